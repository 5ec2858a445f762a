// Shifts and rotations.
// VAX Architecture Reference Manual, "Integer Arithmetic and Logical Instructions": Arithmetic Shift, Rotate Long.
ghost use Rattle.std.specs.Prelude.{◌≡◌, ◌<◌, ◌++◌, IfOk, MatchOption, None, OnOk, Some};
ghost use Rattle.vax_meaning.specs.Evaluation.{operand};
ghost use Rattle.operand_programs.specs.InOrder.{operands_program, steps_behind_all};
ghost use Rattle.micro_lower.specs.Plans.{program_of, specifiers_from};
ghost use Rattle.micro_lower.specs.Rows.{shifted_by, overflow_of_shift_by, arithmetic_shift_plan, later_slots, literal_shift_program, literal_shift_by, rotated_by, before_rotation, rotate_plan};

use crate::arithmetic::OVERFLOWS;
use crate::micros::{add, binary, unary};
use crate::plans::{Plan, Slot, Target, assemble, put_rest, put_slot};
use crate::rows::{operand, slot};
use micro_ops::{Arg, CodeSources, Exit, Micro, MicroOp, sources_of};
use operand_programs::Steps;
use std::alloc::Global;
use vax_form::{Access, Instr, Operand, Operation, Size, WantOfMemory};

/// V of ASHL into 3: the source as a signed quadword, shifted by at most 32, is not its low longword, and the count is
/// not negative.
const OVERFLOW_OF_SHIFT: [Micro; 10] = [
    unary!(4, MicroOp::Move, Size::Byte, Arg::Temp(0)),
    binary!(
        5,
        MicroOp::LessUnsigned,
        Size::Byte,
        Arg::Const(32),
        Arg::Temp(0)
    ),
    binary!(
        4,
        MicroOp::SelectNonzero,
        Size::Byte,
        Arg::Temp(5),
        Arg::Const(32)
    ),
    unary!(5, MicroOp::SignExtend, Size::Long, Arg::Temp(1)),
    binary!(
        4,
        MicroOp::ShiftLeft,
        Size::Quad,
        Arg::Temp(5),
        Arg::Temp(4)
    ),
    unary!(5, MicroOp::SignExtend, Size::Long, Arg::Temp(4)),
    binary!(3, MicroOp::Equal, Size::Quad, Arg::Temp(4), Arg::Temp(5)),
    OVERFLOWS,
    binary!(4, MicroOp::Less, Size::Byte, Arg::Temp(0), Arg::Const(0)),
    binary!(3, MicroOp::AndNot, Size::Byte, Arg::Temp(3), Arg::Temp(4)),
];

/// To the left by the unsigned count, or with a negative count to the right by what it lacks to 256.
const SHIFTED: [Micro; 5] = [
    binary!(
        2,
        MicroOp::ShiftLeft,
        Size::Long,
        Arg::Temp(1),
        Arg::Temp(0)
    ),
    binary!(4, MicroOp::Sub, Size::Byte, Arg::Const(0), Arg::Temp(0)),
    binary!(
        5,
        MicroOp::ShiftSigned,
        Size::Long,
        Arg::Temp(1),
        Arg::Temp(4)
    ),
    binary!(4, MicroOp::Less, Size::Byte, Arg::Temp(0), Arg::Const(0)),
    binary!(
        2,
        MicroOp::SelectNonzero,
        Size::Long,
        Arg::Temp(4),
        Arg::Temp(5)
    ),
];

/// The values that a byte has.
const BYTES: u64 = 256;

/// The bits of a longword.
const BITS: u64 = 32;

/// From here on a count is negative.
const LEFT: u64 = 128;

/// The greatest count that matters to V.
const MOST: u64 = 32;

/// By a literal count: to the left as a quadword into 0, or to the right.
fn put_shifted_by(program: &mut Vec<Micro>, left: bool, count: u64) -> Result<(), WantOfMemory>
    requires { count < 256 }
    ensures { OnOk result (program.new.items ≡ program.old.items ++ shifted_by left count) }
{
    if left {
        let most = Arg::Const(count.min(MOST));
        add(
            program,
            &[
                unary!(0, MicroOp::SignExtend, Size::Long, Arg::Temp(1)),
                binary!(0, MicroOp::ShiftLeft, Size::Quad, Arg::Temp(0), most),
                unary!(2, MicroOp::Move, Size::Long, Arg::Temp(0)),
            ],
        )
    } else {
        let right = Arg::Const(BYTES - count);
        add(
            program,
            &[binary!(2, MicroOp::ShiftSigned, Size::Long, Arg::Temp(1), right)],
        )
    }
}

/// V of a shift to the left by a literal count: the quadword in 0 is not the result with its sign.
const OVERFLOW_TO_LEFT: [Micro; 3] = [
    unary!(5, MicroOp::SignExtend, Size::Long, Arg::Temp(2)),
    binary!(3, MicroOp::Equal, Size::Quad, Arg::Temp(0), Arg::Temp(5)),
    binary!(3, MicroOp::Xor, Size::Quad, Arg::Temp(3), Arg::Const(1)),
];

/// V of a shift to the right.
const NO_OVERFLOW: [Micro; 1] = [unary!(3, MicroOp::Move, Size::Byte, Arg::Const(0))];

/// V of a shift by a literal count into 3.
fn put_overflow_by(program: &mut Vec<Micro>, left: bool, count: u64) -> Result<(), WantOfMemory>
    ensures { OnOk result (program.new.items ≡ program.old.items ++ overflow_of_shift_by left count) }
{
    if left {
        add(program, &OVERFLOW_TO_LEFT)
    } else {
        add(program, &NO_OVERFLOW)
    }
}

/// The source, behind the count.
const SOURCE: Slot = slot!(Access::Read, Size::Long, 1, 2);

const WRITTEN: Slot = slot!(Access::Write, Size::Long, 2, 3);

/// The count, the source and the result.
const SHIFT: [Slot; 3] = [slot!(Access::Read, Size::Byte, 0, 1), SOURCE, WRITTEN];

/// The source and the result alone.
const LATER: [Slot; 2] = [SOURCE, WRITTEN];

/// ASHL by a count that is computed.
pub(crate) fn arithmetic_shift(
    alloc: Global,
    codes: CodeSources,
    instr: &Instr,
) -> Result<Vec<Micro>, WantOfMemory>
    ensures { IfOk result (λ p. p.items ≡ program_of codes (arithmetic_shift_plan instr.now) instr.now) }
{
    let plan = Plan {
        slots: &SHIFT,
        before: &SHIFTED,
        target: Target::Result {
            operand: operand(instr, 2),
            size: Size::Long,
        },
        behind: &OVERFLOW_OF_SHIFT,
        exit: Exit::Next,
    };
    assemble(alloc, codes, plan, instr)
}

/// The operands behind the count.
fn put_later(program: &mut Vec<Micro>, instr: &Instr, steps: &mut Steps) -> Result<(), WantOfMemory>
    ensures program { OnOk result (program.new.items ≡ program.old.items ++ operands_program (specifiers_from 1 later_slots instr.now) steps.old) }
    ensures steps { OnOk result (steps.new ≡ steps_behind_all (specifiers_from 1 later_slots instr.now) steps.old) }
{
    put_slot(program, 1, SOURCE, instr, steps)?;
    put_slot(program, 2, WRITTEN, instr, steps)
}

/// ASHL by a literal count.
fn shift_by(
    alloc: Global,
    instr: &Instr,
    left: bool,
    count: u64,
) -> Result<Vec<Micro>, WantOfMemory>
    requires { count < 256 }
    ensures { IfOk result (λ p. p.items ≡ literal_shift_program left count instr.now) }
{
    let mut before = Vec::new(alloc);
    put_shifted_by(&mut before, left, count)?;
    let mut behind = Vec::new(alloc);
    put_overflow_by(&mut behind, left, count)?;
    let plan = Plan {
        slots: &LATER,
        before: &before,
        target: Target::Result {
            operand: operand(instr, 2),
            size: Size::Long,
        },
        behind: &behind,
        exit: Exit::Next,
    };
    let mut program = Vec::new(alloc);
    let mut steps: Steps = [0; 15];
    put_later(&mut program, instr, &mut steps)?;
    let codes = sources_of(Operation::ArithmeticShift);
    put_rest(&mut program, codes, plan, &mut steps)?;
    Ok(program)
}

/// ASHL by a literal count; None by another one.
pub(crate) fn literal_shift(
    alloc: Global,
    instr: &Instr,
) -> Option<Result<Vec<Micro>, WantOfMemory>>
    ensures { MatchOption result (literal_shift_by (operand instr.now 0) instr.now ≡ None) (λ made. IfOk made (λ p. literal_shift_by (operand instr.now 0) instr.now ≡ Some p.items)) }
{
    match operand(instr, 0) {
        Operand::Value(value) => {
            let count = value % BYTES;
            Some(shift_by(alloc, instr, count < LEFT, count))
        }
        Operand::Unused | Operand::Register(_) | Operand::Place { .. } | Operand::Target(_) => None,
    }
}

/// By the count modulo 32, and what it lacks to 32 to the right.
const ROTATED: [Micro; 5] = [
    binary!(4, MicroOp::And, Size::Byte, Arg::Temp(0), Arg::Const(31)),
    binary!(
        2,
        MicroOp::ShiftLeft,
        Size::Long,
        Arg::Temp(1),
        Arg::Temp(4)
    ),
    binary!(4, MicroOp::Sub, Size::Byte, Arg::Const(32), Arg::Temp(4)),
    binary!(
        5,
        MicroOp::ShiftRight,
        Size::Long,
        Arg::Temp(1),
        Arg::Temp(4)
    ),
    binary!(2, MicroOp::Or, Size::Quad, Arg::Temp(2), Arg::Temp(5)),
];

/// By a literal count below 32.
fn put_rotated_by(program: &mut Vec<Micro>, count: u64) -> Result<(), WantOfMemory>
    requires { count < 32 }
    ensures { OnOk result (program.new.items ≡ program.old.items ++ rotated_by count) }
{
    let (left, right) = (Arg::Const(count), Arg::Const(BITS - count));
    add(
        program,
        &[
            binary!(2, MicroOp::ShiftLeft, Size::Long, Arg::Temp(1), left),
            binary!(5, MicroOp::ShiftRight, Size::Long, Arg::Temp(1), right),
            binary!(2, MicroOp::Or, Size::Quad, Arg::Temp(2), Arg::Temp(5)),
        ],
    )
}

fn put_before_rotation(program: &mut Vec<Micro>, count: Operand) -> Result<(), WantOfMemory>
    ensures { OnOk result (program.new.items ≡ program.old.items ++ before_rotation count) }
{
    match count {
        Operand::Value(value) => put_rotated_by(program, value % BITS),
        Operand::Unused | Operand::Register(_) | Operand::Place { .. } | Operand::Target(_) => {
            add(program, &ROTATED)
        }
    }
}

/// ROTL.
pub(crate) fn rotate(
    alloc: Global,
    codes: CodeSources,
    instr: &Instr,
) -> Result<Vec<Micro>, WantOfMemory>
    ensures { IfOk result (λ p. p.items ≡ program_of codes (rotate_plan instr.now) instr.now) }
{
    let mut before = Vec::new(alloc);
    put_before_rotation(&mut before, operand(instr, 0))?;
    let plan = Plan {
        slots: &SHIFT,
        before: &before,
        target: Target::Result {
            operand: operand(instr, 2),
            size: Size::Long,
        },
        behind: &[],
        exit: Exit::Next,
    };
    assemble(alloc, codes, plan, instr)
}
