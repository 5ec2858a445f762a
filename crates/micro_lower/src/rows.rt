// What rows of the table are made of: slots of operands, and computations.
ghost use Rattle.std.specs.Prelude.{◌≡◌, ◌<◌};
ghost use Rattle.vax_meaning.specs.Evaluation.{operand};
ghost use Rattle.micro_lower.specs.Rows.{read, written, placed, modified, addressed, displaced, inverted, overflow_by, register_target, branch_exit, test_exit};

use crate::micros::{binary, unary};
use crate::plans::{Slot, Target};
use micro_ops::{Arg, Exit, Micro, MicroOp};
use vax_form::{Access, Instr, Operand, Size};
use vax_meaning::target;

macro_rules! slot {
    ($access:expr, $size:expr, $to:expr, $place:expr) => {
        Slot {
            access: $access,
            size: $size,
            to: $to,
            place: $place,
        }
    };
}

pub(crate) use slot;

pub(crate) fn read(size: Size, to: u8, place: u8) -> Slot
    ensures { result ≡ read size to place }
{
    slot!(Access::Read, size, to, place)
}

/// The address goes into 3, and is found through 2.
pub(crate) fn written(size: Size) -> Slot
    ensures { result ≡ written size }
{
    slot!(Access::Write, size, 2, 3)
}

/// The same through 0, where 2 has the value that is written.
pub(crate) fn placed(size: Size) -> Slot
    ensures { result ≡ placed size }
{
    slot!(Access::Write, size, 0, 3)
}

/// The value goes into that temporary, the address into 3.
pub(crate) fn modified(size: Size, to: u8) -> Slot
    ensures { result ≡ modified size to }
{
    slot!(Access::Modify, size, to, 3)
}

/// The address goes into that temporary.
pub(crate) fn addressed(size: Size, to: u8) -> Slot
    ensures { result ≡ addressed size to }
{
    slot!(Access::Address, size, to, 1)
}

/// A displacement is in the instruction, and takes no temporary.
pub(crate) fn displaced(size: Size) -> Slot
    ensures { result ≡ displaced size }
{
    slot!(Access::Branch, size, 0, 1)
}

/// 1 for 0, and 0 for 1.
pub(crate) fn inverted(temp: u8) -> Micro
    ensures { result ≡ inverted temp }
{
    binary!(
        temp,
        MicroOp::Xor,
        Size::Byte,
        Arg::Temp(temp),
        Arg::Const(1),
    )
}

/// The last bit of 0 alone.
pub(crate) const BIT: Micro = binary!(0, MicroOp::And, Size::Byte, Arg::Temp(0), Arg::Const(1));

/// V into 3: a number that was extended into 4 is not the result extended.
pub(crate) fn overflow_by(size: Size) -> [Micro; 3]
    ensures { result ≡ overflow_by size }
{
    [
        unary!(5, MicroOp::SignExtend, size, Arg::Temp(2)),
        binary!(3, MicroOp::Equal, Size::Quad, Arg::Temp(4), Arg::Temp(5)),
        inverted(3),
    ]
}

/// The operand of that number, 0 to 5.
pub(crate) fn operand(instr: &Instr, number: usize) -> Operand
    requires { number < 6 }
    ensures { result ≡ operand instr.now number }
{
    instr.operands[number]
}

/// An operand that is written by an interlocked reference, if it is in memory: a register takes the result.
pub(crate) fn register_target(base: Operand, size: Size) -> Target
    ensures { result ≡ register_target base size }
{
    match base {
        Operand::Register(_) => Target::Replacement {
            operand: base,
            size,
        },
        Operand::Unused | Operand::Value(_) | Operand::Place { .. } | Operand::Target(_) => {
            Target::Nowhere
        }
    }
}

/// A branch that is taken where what is in 0 is not 0, or where it is.
pub(crate) fn test_exit(state: bool, instr: &Instr, number: usize) -> Exit
    requires { number < 6 }
    ensures { result ≡ test_exit state instr.now number }
{
    if state {
        branch_exit(instr, number)
    } else {
        Exit::Choice {
            when: 0,
            taken: instr.after,
            other: target(operand(instr, number)),
        }
    }
}

/// A branch, taken where 0 is not 0.
pub(crate) fn branch_exit(instr: &Instr, number: usize) -> Exit
    requires { number < 6 }
    ensures { result ≡ branch_exit instr.now number }
{
    Exit::Choice {
        when: 0,
        taken: target(operand(instr, number)),
        other: instr.after,
    }
}
