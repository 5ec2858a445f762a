// Moves from and to the processor status.
// VAX Architecture Reference Manual, "Processor Status Longword"; "Miscellaneous Instructions".
ghost use Rattle.std.specs.Prelude.{◌≡◌, IfOk};
ghost use Rattle.micro_lower.specs.Plans.{program_of};
ghost use Rattle.micro_lower.specs.Rows.{move_psl_plan, change_psw_plan};

use crate::micros::{binary, unary};
use crate::plans::{Plan, Slot, Target, assemble};
use crate::rows::{operand, slot};
use micro_ops::{Arg, CodeSources, Exit, Micro, MicroOp};
use std::alloc::Global;
use vax_form::{Access, Instr, Size, USER_MODE, WantOfMemory};

const DOUBLED: Micro = binary!(2, MicroOp::Add, Size::Byte, Arg::Temp(2), Arg::Temp(2));

macro_rules! with_flag {
    ($flag:expr) => {
        binary!(2, MicroOp::Add, Size::Byte, Arg::Temp(2), Arg::Flag($flag))
    };
}

/// The low byte of the status into 2, from DV down to C, between other operations.
macro_rules! with_status {
    ($($first:expr),*; $last:expr) => {
        [
            $($first,)*
            unary!(2, MicroOp::Move, Size::Byte, Arg::Flag(7)),
            DOUBLED,
            with_flag!(6),
            DOUBLED,
            with_flag!(5),
            DOUBLED,
            with_flag!(4),
            DOUBLED,
            with_flag!(0),
            DOUBLED,
            with_flag!(1),
            DOUBLED,
            with_flag!(2),
            DOUBLED,
            with_flag!(3),
            $last,
        ]
    };
}

const MODE: Micro = binary!(
    2,
    MicroOp::Add,
    Size::Long,
    Arg::Temp(2),
    Arg::Const(USER_MODE as u64)
);

const LONGWORD: [Micro; 16] = with_status!(; MODE);

const RESULT: [Slot; 1] = [slot!(Access::Write, Size::Long, 2, 3)];

/// MOVPSL: user mode is added.
pub(crate) fn move_psl(
    alloc: Global,
    codes: CodeSources,
    instr: &Instr,
) -> Result<Vec<Micro>, WantOfMemory>
    ensures { IfOk result (λ p. p.items ≡ program_of codes (move_psl_plan instr.now) instr.now) }
{
    let plan = Plan {
        slots: &RESULT,
        before: &LONGWORD,
        target: Target::Result {
            operand: operand(instr, 0),
            size: Size::Long,
        },
        behind: &[],
        exit: Exit::Next,
    };
    assemble(alloc, codes, plan, instr)
}

/// The greatest mask that BISPSW and BICPSW take.
const GREATEST_MASK: u64 = 255;

const ABOVE: Micro = binary!(
    1,
    MicroOp::LessUnsigned,
    Size::Word,
    Arg::Const(GREATEST_MASK),
    Arg::Temp(0)
);

const REFUSED: Micro = Micro::Refuse { when: 1 };

const SET: Micro = binary!(2, MicroOp::Or, Size::Byte, Arg::Temp(2), Arg::Temp(0));

const CLEARED: Micro = binary!(2, MicroOp::AndNot, Size::Byte, Arg::Temp(2), Arg::Temp(0));

const MASK: [Slot; 1] = [slot!(Access::Read, Size::Word, 0, 1)];

/// A mask above 255 is refused; the new PSW goes into 2.
const WITH_MASK: [Micro; 18] = with_status!(ABOVE, REFUSED; SET);

const WITHOUT_MASK: [Micro; 18] = with_status!(ABOVE, REFUSED; CLEARED);

/// BISPSW.
pub(crate) fn set_psw(
    alloc: Global,
    codes: CodeSources,
    instr: &Instr,
) -> Result<Vec<Micro>, WantOfMemory>
    ensures { IfOk result (λ p. p.items ≡ program_of codes (change_psw_plan MicroOp.Or) instr.now) }
{
    let plan = Plan {
        slots: &MASK,
        before: &WITH_MASK,
        target: Target::Nowhere,
        behind: &[],
        exit: Exit::Next,
    };
    assemble(alloc, codes, plan, instr)
}

/// BICPSW.
pub(crate) fn clear_psw(
    alloc: Global,
    codes: CodeSources,
    instr: &Instr,
) -> Result<Vec<Micro>, WantOfMemory>
    ensures { IfOk result (λ p. p.items ≡ program_of codes (change_psw_plan MicroOp.AndNot) instr.now) }
{
    let plan = Plan {
        slots: &MASK,
        before: &WITHOUT_MASK,
        target: Target::Nowhere,
        behind: &[],
        exit: Exit::Next,
    };
    assemble(alloc, codes, plan, instr)
}
