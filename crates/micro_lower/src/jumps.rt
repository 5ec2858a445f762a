// Branches on a bit, loops and jumps.
// VAX Architecture Reference Manual, "Control Instructions".
ghost use Rattle.std.specs.Prelude.{◌≡◌, IfOk};
ghost use Rattle.micro_lower.specs.Plans.{program_of};
ghost use Rattle.micro_lower.specs.Rows.{low_bit_plan, down_test, subtract_one_plan, up_test, add_one_plan, behind_sum, add_compare_plan, jump_exit, jump_plan, jump_to_subroutine_plan, change_mode_plan};

use crate::micros::{binary, unary};
use crate::plans::{Plan, Slot, Target, assemble};
use crate::rows::{
    BIT, branch_exit, displaced, inverted, modified, operand, read, slot, test_exit,
};
use micro_ops::{Arg, CodeSources, Exit, Micro, MicroOp};
use std::alloc::Global;
use vax_form::{Access, Base, Instr, Operand, Size, WantOfMemory, Width};

const ITS_BIT: [Micro; 1] = [BIT];

const SOURCE_AND_TARGET: [Slot; 2] = [
    slot!(Access::Read, Size::Long, 0, 1),
    slot!(Access::Branch, Size::Byte, 0, 1),
];

/// BLBS, BLBC.
pub(crate) fn branch_on_low_bit(
    alloc: Global,
    codes: CodeSources,
    instr: &Instr,
    state: bool,
) -> Result<Vec<Micro>, WantOfMemory>
    ensures { IfOk result (λ p. p.items ≡ program_of codes (low_bit_plan state instr.now) instr.now) }
{
    let plan = Plan {
        slots: &SOURCE_AND_TARGET,
        before: &ITS_BIT,
        target: Target::Nowhere,
        behind: &[],
        exit: test_exit(state, instr, 1),
    };
    assemble(alloc, codes, plan, instr)
}

const ONE_LESS: [Micro; 1] = [binary!(2, MicroOp::Sub, Size::Long, Arg::Temp(0), Arg::Const(1))];

/// V of one less: the index was below what it is.
const WAS_LESS: Micro = binary!(3, MicroOp::Less, Size::Long, Arg::Temp(0), Arg::Temp(2));

const BELOW_ZERO: [Micro; 2] = [
    WAS_LESS,
    binary!(0, MicroOp::Less, Size::Long, Arg::Temp(2), Arg::Const(0)),
];

const ABOVE_ZERO: [Micro; 2] = [
    WAS_LESS,
    binary!(0, MicroOp::Less, Size::Long, Arg::Const(0), Arg::Temp(2)),
];

const INDEX_AND_TARGET: [Slot; 2] = [
    slot!(Access::Modify, Size::Long, 0, 3),
    slot!(Access::Branch, Size::Byte, 0, 1),
];

/// SOBGEQ, SOBGTR.
pub(crate) fn subtract_one_branch(
    alloc: Global,
    codes: CodeSources,
    instr: &Instr,
    or_equal: bool,
) -> Result<Vec<Micro>, WantOfMemory>
    ensures { IfOk result (λ p. p.items ≡ program_of codes (subtract_one_plan or_equal instr.now) instr.now) }
{
    let plan = Plan {
        slots: &INDEX_AND_TARGET,
        before: &ONE_LESS,
        target: Target::Replacement {
            operand: operand(instr, 0),
            size: Size::Long,
        },
        behind: if or_equal { &BELOW_ZERO } else { &ABOVE_ZERO },
        exit: test_exit(!or_equal, instr, 1),
    };
    assemble(alloc, codes, plan, instr)
}

const ONE_MORE: [Micro; 1] = [binary!(2, MicroOp::Add, Size::Long, Arg::Temp(0), Arg::Const(1))];

/// V of one more: the index is below what it was.
const IS_LESS: Micro = binary!(3, MicroOp::Less, Size::Long, Arg::Temp(2), Arg::Temp(0));

const ABOVE_LIMIT: [Micro; 2] = [
    IS_LESS,
    binary!(0, MicroOp::Less, Size::Long, Arg::Temp(1), Arg::Temp(2)),
];

const BELOW_LIMIT: [Micro; 2] = [
    IS_LESS,
    binary!(0, MicroOp::Less, Size::Long, Arg::Temp(2), Arg::Temp(1)),
];

const LIMIT_INDEX_AND_TARGET: [Slot; 3] = [
    slot!(Access::Read, Size::Long, 1, 2),
    slot!(Access::Modify, Size::Long, 0, 3),
    slot!(Access::Branch, Size::Byte, 0, 1),
];

/// AOBLEQ, AOBLSS.
pub(crate) fn add_one_branch(
    alloc: Global,
    codes: CodeSources,
    instr: &Instr,
    or_equal: bool,
) -> Result<Vec<Micro>, WantOfMemory>
    ensures { IfOk result (λ p. p.items ≡ program_of codes (add_one_plan or_equal instr.now) instr.now) }
{
    let plan = Plan {
        slots: &LIMIT_INDEX_AND_TARGET,
        before: &ONE_MORE,
        target: Target::Replacement {
            operand: operand(instr, 1),
            size: Size::Long,
        },
        behind: if or_equal { &ABOVE_LIMIT } else { &BELOW_LIMIT },
        exit: test_exit(!or_equal, instr, 2),
    };
    assemble(alloc, codes, plan, instr)
}

/// What ACB computes behind the sum: V, where the sum less the addend is no such number, and whether the index is at most
/// the limit, or with a negative addend at least the limit.
fn behind_sum(size: Size) -> [Micro; 11]
    ensures { result ≡ behind_sum size }
{
    let (limit, addend, index) = (Arg::Temp(0), Arg::Temp(1), Arg::Temp(2));
    let (made, other) = (Arg::Temp(4), Arg::Temp(5));
    [
        unary!(4, MicroOp::SignExtend, size, index),
        unary!(5, MicroOp::SignExtend, size, addend),
        binary!(4, MicroOp::Sub, Size::Quad, made, other),
        unary!(5, MicroOp::SignExtend, size, made),
        binary!(3, MicroOp::Equal, Size::Quad, made, other),
        inverted(3),
        binary!(4, MicroOp::Less, size, limit, index),
        binary!(5, MicroOp::Less, size, index, limit),
        binary!(1, MicroOp::Less, size, addend, Arg::Const(0)),
        binary!(4, MicroOp::SelectNonzero, Size::Byte, addend, other),
        binary!(0, MicroOp::Xor, Size::Byte, made, Arg::Const(1)),
    ]
}

/// ACB: the limit is in 0, the addend in 1 and the index in 2.
pub(crate) fn add_compare_branch(
    alloc: Global,
    codes: CodeSources,
    instr: &Instr,
    width: Width,
) -> Result<Vec<Micro>, WantOfMemory>
    ensures { IfOk result (λ p. p.items ≡ program_of codes (add_compare_plan width instr.now) instr.now) }
{
    let size = width.size();
    let plan = Plan {
        slots: &[
            read(size, 0, 2),
            read(size, 1, 2),
            modified(size, 2),
            displaced(Size::Word),
        ],
        before: &[binary!(2, MicroOp::Add, size, Arg::Temp(2), Arg::Temp(1))],
        target: Target::Replacement {
            operand: operand(instr, 2),
            size,
        },
        behind: &behind_sum(size),
        exit: branch_exit(instr, 3),
    };
    assemble(alloc, codes, plan, instr)
}

/// An operand whose address the code fixes is a fixed target.
fn jump_exit(operand: Operand) -> Exit
    ensures { result ≡ jump_exit operand }
{
    match operand {
        Operand::Place {
            base: Base::Fixed {
                address,
                deferred: false,
            },
            index: None,
        } => Exit::Fixed(address),
        _ => Exit::Computed(0),
    }
}

const ADDRESS: [Slot; 1] = [slot!(Access::Address, Size::Byte, 0, 1)];

/// JMP.
pub(crate) fn jump(
    alloc: Global,
    codes: CodeSources,
    instr: &Instr,
) -> Result<Vec<Micro>, WantOfMemory>
    ensures { IfOk result (λ p. p.items ≡ program_of codes (jump_plan instr.now) instr.now) }
{
    let plan = Plan {
        slots: &ADDRESS,
        before: &[],
        target: Target::Nowhere,
        behind: &[],
        exit: jump_exit(operand(instr, 0)),
    };
    assemble(alloc, codes, plan, instr)
}

/// JSB.
pub(crate) fn jump_to_subroutine(
    alloc: Global,
    codes: CodeSources,
    instr: &Instr,
) -> Result<Vec<Micro>, WantOfMemory>
    ensures { IfOk result (λ p. p.items ≡ program_of codes (jump_to_subroutine_plan instr.now) instr.now) }
{
    let after = Arg::Const(u64::from(instr.after));
    let plan = Plan {
        slots: &ADDRESS,
        before: &[unary!(2, MicroOp::Move, Size::Long, after)],
        target: Target::Stack,
        behind: &[],
        exit: jump_exit(operand(instr, 0)),
    };
    assemble(alloc, codes, plan, instr)
}

const CODE: [Slot; 1] = [slot!(Access::Read, Size::Word, 0, 1)];

/// CHMK.
pub(crate) fn change_mode(
    alloc: Global,
    codes: CodeSources,
    instr: &Instr,
) -> Result<Vec<Micro>, WantOfMemory>
    ensures { IfOk result (λ p. p.items ≡ program_of codes change_mode_plan instr.now) }
{
    let plan = Plan {
        slots: &CODE,
        before: &[],
        target: Target::Nowhere,
        behind: &[],
        exit: Exit::Service(0),
    };
    assemble(alloc, codes, plan, instr)
}
