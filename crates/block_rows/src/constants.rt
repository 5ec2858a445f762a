// A constant in a register, by hand.
use alpha_encode::registers::{TARGET, ZERO};
use alpha_encode::{AlphaInstr, MemoryOp};
use anyhow::Result;
use compute_sequences::constant_words;
use row_tally::Tally;
use std::alloc::AllocError;
use vax_form::Size;

/// LDAH, and LDA, whose displacement is negative: so the high half is one more.
const WORDS: [AlphaInstr; 2] = [
    AlphaInstr::Memory {
        op: MemoryOp::Ldah,
        ra: TARGET,
        rb: ZERO,
        disp: 0x1235,
    },
    AlphaInstr::Memory {
        op: MemoryOp::Lda,
        ra: TARGET,
        rb: TARGET,
        disp: -0x789B,
    },
];

/// The words of a longword.
pub fn longword(rt: &(impl Print + AllocGlobal)) -> Result<Tally> {
    let mut tally = Tally::NONE;
    let words = constant_words(rt.alloc(), 0x1234_8765, Size::Long, TARGET).map_err(
        |_| AllocError,
    )?;
    tally.check(rt, "12348765", &words.as_slice(), &WORDS.as_slice())?;
    tally.print(rt, "constants")?;
    Ok(tally)
}
