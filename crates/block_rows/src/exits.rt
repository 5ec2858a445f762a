// A branch reaches 2 ^ 20 words back and one word less forth, from the next word; behind that a jump is taken.
use alpha_encode::registers::{ADDRESS, ZERO};
use alpha_encode::{AlphaInstr, BranchOp, MemoryOp, NOP};
use anyhow::Result;
use branch_layout::code_to;
use row_tally::{Tally, check_cases};

fn near(disp: i32) -> [AlphaInstr; 3] {
    let branch = AlphaInstr::Branch {
        op: BranchOp::Br,
        ra: ZERO,
        disp,
    };
    [branch, NOP, NOP]
}

/// A load of an address into the register of a jump.
fn load(op: MemoryOp, rb: u8, disp: i16) -> AlphaInstr {
    AlphaInstr::Memory {
        op,
        ra: ADDRESS,
        rb,
        disp,
    }
}

fn far(high: i16, low: i16) -> [AlphaInstr; 3] {
    [
        load(MemoryOp::Ldah, ZERO, high),
        load(MemoryOp::Lda, ADDRESS, low),
        AlphaInstr::Jump {
            ra: ZERO,
            rb: ADDRESS,
        },
    ]
}

/// The exits at the edge of a branch's reach, forth and back, and a jump whose low half is negative.
pub fn reach(rt: &impl Print) -> Result<Tally> {
    check_cases(
        rt,
        "exits",
        &[
            ("forth", code_to(0, 0x10_0000), near(0xF_FFFF)),
            ("back", code_to(0xF_FFFF, 0), near(-0x10_0000)),
            ("further forth", code_to(0, 0x10_0001), far(0x40, 4)),
            ("further back", code_to(0x10_0000, 0), far(0, 0)),
            ("a borrow", code_to(0, 0x7F_E000), far(0x200, -0x8000)),
        ],
    )
}
