//! Interprets a long VAX instruction one reference at a time. A `LongTie` keeps the state before the instruction, its
//! place and the values of its operands; a call, a list of registers and INDEX keep the replies of their body too, at most
//! 36, and go through it anew, and a string keeps its place and at most one byte. Memory stays with the caller.
//!
//! `body` is what comes behind the operands of an instruction without a string, `moving`, `comparing` and `scanning` are
//! strings under way, `byte` has the next byte of one, `string` goes through any of them, `tie` is the whole
//! instruction, `played` goes through one without strings from its begin with the replies so far, and `wanting` has what a
//! RET wants by their number.
#![tactic(auto)]

mod begun;
mod body;
mod byte;
mod comparing;
mod moving;
mod played;
mod scanning;
mod string;
mod tie;
mod wanting;

pub use body::Plain;
pub use played::{plain_of, played_long};
pub use tie::LongTie;
pub use tie_operands::TieStep;
pub use wanting::told;
