// Instructions by their format.
ghost use Rattle.std.specs.Prelude.{◌≡◌};

use crate::instr::{AlphaInstr, BranchOp, MemoryOp, OperateOp, Second};
use crate::registers::ZERO;

/// NOP: BIS R31,R31,R31.
pub const NOP: AlphaInstr = AlphaInstr::Operate {
    op: OperateOp::Bis,
    ra: ZERO,
    rb: Second::Register(ZERO),
    rc: ZERO,
};

/// A load, a store or a load of an address.
pub fn memory(op: MemoryOp, ra: u8, rb: u8, disp: i16) -> AlphaInstr
    ensures { result ≡ AlphaInstr.Memory op ra rb disp }
{
    AlphaInstr::Memory { op, ra, rb, disp }
}

/// An operation on two registers.
pub fn operate(op: OperateOp, ra: u8, rb: u8, rc: u8) -> AlphaInstr
    ensures { result ≡ AlphaInstr.Operate op ra (Second.Register rb) rc }
{
    AlphaInstr::Operate {
        op,
        ra,
        rb: Second::Register(rb),
        rc,
    }
}

/// An operation on a register and a literal.
pub fn operate_by(op: OperateOp, ra: u8, literal: u8, rc: u8) -> AlphaInstr
    ensures { result ≡ AlphaInstr.Operate op ra (Second.Literal literal) rc }
{
    AlphaInstr::Operate {
        op,
        ra,
        rb: Second::Literal(literal),
        rc,
    }
}

/// A branch by so many words behind the next.
pub fn branch(op: BranchOp, ra: u8, disp: i32) -> AlphaInstr
    ensures { result ≡ AlphaInstr.Branch op ra disp }
{
    AlphaInstr::Branch { op, ra, disp }
}
