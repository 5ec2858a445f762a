// Conditional and unconditional branches.
ghost use Rattle.std.specs.Prelude.{◌≡◌};
ghost use Rattle.alpha_meaning.specs.Act.{taken, links};

use alpha_encode::BranchOp;

/// Whether a branch is taken for this value of Ra.
pub fn is_taken(op: BranchOp, a: u64) -> bool
    ensures { result ≡ taken op a }
{
    match op {
        BranchOp::Br | BranchOp::Bsr => true,
        BranchOp::Blbc => a % 2 == 0,
        BranchOp::Beq => a == 0,
        BranchOp::Blt => a >= 1 << 63,
        BranchOp::Ble => a == 0 || a >= 1 << 63,
        BranchOp::Blbs => a % 2 == 1,
        BranchOp::Bne => a != 0,
        BranchOp::Bge => a < 1 << 63,
        BranchOp::Bgt => a != 0 && a < 1 << 63,
    }
}

/// Whether a branch puts the next address into Ra.
pub fn links(op: BranchOp) -> bool
    ensures { result ≡ links op }
{
    matches!(op, BranchOp::Br | BranchOp::Bsr)
}
