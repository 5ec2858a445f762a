//! Interprets a VAX instruction that is not long one reference at a time. A `Tie` keeps the state before the instruction,
//! its place, the values of its operands and the few replies of its current part; memory stays with the caller.
//!
//! `body` is what comes behind the operands, `tie` the whole instruction, `instr` goes through an instruction, and `played` does so from its
//! begin with the replies so far.
#![tactic(auto)]

mod body;
mod instr;
mod played;
mod tie;

pub use played::{played_instr, played_short};
pub use tie::Tie;
pub use tie_operands::TieStep;
