// Moves and pushes.
// VAX Architecture Reference Manual, "Integer Arithmetic and Logical Instructions" and "Address Instructions".
ghost use Rattle.std.specs.Prelude.{◌≡◌, ◌∷◌, [], IfOk};
ghost use Rattle.vax_meaning.specs.Evaluation.{operand};
ghost use Rattle.micro_lower.specs.Plans.{program_of};
ghost use Rattle.micro_lower.specs.Rows.{move_plan, move_zero_extended_plan, clear_plan, ones, move_complemented_plan, move_negated_plan, is_extension, convert_plan, move_address_plan};

use crate::micros::{binary, unary};
use crate::plans::{Plan, Slot, Target, assemble};
use crate::rows::{addressed, operand, overflow_by, placed, read, written};
use micro_ops::{Arg, CodeSources, Exit, Micro, MicroOp};
use std::alloc::Global;
use vax_form::{Instr, Size, WantOfMemory, Width};

/// A row whose result goes to the second operand, of that size, in that slot.
fn to_second(
    alloc: Global,
    codes: CodeSources,
    instr: &Instr,
    slots: [Slot; 2],
    size: Size,
    before: &[Micro],
    behind: &[Micro],
) -> Result<Vec<Micro>, WantOfMemory>
    ensures { IfOk result (λ p. p.items ≡ program_of codes (record { slots = slots; before = before.now; target = Target.Result (operand instr.now 1) size; behind = behind.now; exit = Exit.Next }) instr.now) }
{
    let plan = Plan {
        slots: &slots,
        before,
        target: Target::Result {
            operand: operand(instr, 1),
            size,
        },
        behind,
        exit: Exit::Next,
    };
    assemble(alloc, codes, plan, instr)
}

/// MOV.
pub(crate) fn move_value(
    alloc: Global,
    codes: CodeSources,
    instr: &Instr,
    size: Size,
) -> Result<Vec<Micro>, WantOfMemory>
    ensures { IfOk result (λ p. p.items ≡ program_of codes (move_plan size instr.now) instr.now) }
{
    let slots = [read(size, 2, 1), placed(size)];
    to_second(alloc, codes, instr, slots, size, &[], &[])
}

/// MOVZ.
pub(crate) fn move_zero_extended(
    alloc: Global,
    codes: CodeSources,
    instr: &Instr,
    from: Width,
    to: Width,
) -> Result<Vec<Micro>, WantOfMemory>
    ensures { IfOk result (λ p. p.items ≡ program_of codes (move_zero_extended_plan from to instr.now) instr.now) }
{
    let size = to.size();
    let slots = [read(from.size(), 2, 1), placed(size)];
    to_second(alloc, codes, instr, slots, size, &[], &[])
}

/// 0 into 0.
const NONE: Micro = unary!(0, MicroOp::Move, Size::Byte, Arg::Const(0));

/// 0 into the result.
const NO_RESULT: Micro = unary!(2, MicroOp::Move, Size::Byte, Arg::Const(0));

/// CLR.
pub(crate) fn clear(
    alloc: Global,
    codes: CodeSources,
    instr: &Instr,
    size: Size,
) -> Result<Vec<Micro>, WantOfMemory>
    ensures { IfOk result (λ p. p.items ≡ program_of codes (clear_plan size instr.now) instr.now) }
{
    let plan = Plan {
        slots: &[written(size)],
        before: &[NO_RESULT],
        target: Target::Result {
            operand: operand(instr, 0),
            size,
        },
        behind: &[],
        exit: Exit::Next,
    };
    assemble(alloc, codes, plan, instr)
}

/// All bits of a size.
fn ones(size: Size) -> u64
    ensures { result ≡ ones size }
{
    match size {
        Size::Byte => 0xFF,
        Size::Word => 0xFFFF,
        Size::Long => 0xFFFF_FFFF,
        Size::Quad => 0xFFFF_FFFF_FFFF_FFFF,
    }
}

/// MCOM.
pub(crate) fn move_complemented(
    alloc: Global,
    codes: CodeSources,
    instr: &Instr,
    width: Width,
) -> Result<Vec<Micro>, WantOfMemory>
    ensures { IfOk result (λ p. p.items ≡ program_of codes (move_complemented_plan width instr.now) instr.now) }
{
    let size = width.size();
    let all = Arg::Const(ones(size));
    let before = [binary!(2, MicroOp::Sub, size, all, Arg::Temp(0))];
    let slots = [read(size, 0, 1), written(size)];
    to_second(alloc, codes, instr, slots, size, &before, &[])
}

/// MNEG: 0 minus the operand.
pub(crate) fn move_negated(
    alloc: Global,
    codes: CodeSources,
    instr: &Instr,
    width: Width,
) -> Result<Vec<Micro>, WantOfMemory>
    ensures { IfOk result (λ p. p.items ≡ program_of codes (move_negated_plan width instr.now) instr.now) }
{
    let (size, none) = (width.size(), Arg::Const(0));
    let before = [binary!(2, MicroOp::Sub, size, none, Arg::Temp(1))];
    let behind = [NONE];
    let slots = [read(size, 1, 0), written(size)];
    to_second(alloc, codes, instr, slots, size, &before, &behind)
}

/// A longer number holds what a shorter one does.
fn is_extension(from: Width, to: Width) -> bool
    ensures { result ≡ is_extension from to }
{
    match from {
        Width::Byte => !matches!(to, Width::Byte),
        Width::Word => matches!(to, Width::Long),
        Width::Long => false,
    }
}

/// V of a conversion into 3: an extension never overflows.
const NO_OVERFLOW: Micro = unary!(3, MicroOp::Move, Size::Byte, Arg::Const(0));

/// CVT.
pub(crate) fn convert(
    alloc: Global,
    codes: CodeSources,
    instr: &Instr,
    from: Width,
    to: Width,
) -> Result<Vec<Micro>, WantOfMemory>
    ensures { IfOk result (λ p. p.items ≡ program_of codes (convert_plan from to instr.now) instr.now) }
{
    let (source, size) = (from.size(), to.size());
    let [extended, equal, overflows] = overflow_by(size);
    let before = [
        unary!(2, MicroOp::SignExtend, source, Arg::Temp(0)),
        unary!(2, MicroOp::Move, size, Arg::Temp(2)),
    ];
    let overflow = [
        unary!(4, MicroOp::SignExtend, source, Arg::Temp(0)),
        extended,
        equal,
        overflows,
    ];
    let behind: &[Micro] = if is_extension(from, to) {
        &[NO_OVERFLOW]
    } else {
        &overflow
    };
    let slots = [read(source, 0, 1), written(size)];
    to_second(alloc, codes, instr, slots, size, &before, behind)
}

/// MOVA.
pub(crate) fn move_address(
    alloc: Global,
    codes: CodeSources,
    instr: &Instr,
    size: Size,
) -> Result<Vec<Micro>, WantOfMemory>
    ensures { IfOk result (λ p. p.items ≡ program_of codes (move_address_plan size instr.now) instr.now) }
{
    let slots = [addressed(size, 2), placed(Size::Long)];
    to_second(alloc, codes, instr, slots, Size::Long, &[], &[])
}

/// PUSHA, PUSHL: what is in 2 is pushed.
pub(crate) fn push(
    alloc: Global,
    codes: CodeSources,
    instr: &Instr,
    slot: Slot,
) -> Result<Vec<Micro>, WantOfMemory>
    ensures { IfOk result (λ p. p.items ≡ program_of codes (record { slots = slot ∷ []; before = []; target = Target.Stack; behind = []; exit = Exit.Next }) instr.now) }
{
    let plan = Plan {
        slots: &[slot],
        before: &[],
        target: Target::Stack,
        behind: &[],
        exit: Exit::Next,
    };
    assemble(alloc, codes, plan, instr)
}
