//! The top call of `vximage`: it obeys one command line, over what it is lent of the outside. `make` writes an image of parts, or of an
//! ELF file; `show` says what an image has, and what its translation makes of it; `dis` lists its code.
//!
//! Words are read by vximage_words; what they are read as is no part of any contract. Behind them each command is one function that says
//! what it does, or why it stops before it has written anything (`making`, `showing`, `listing`).
#![tactic(auto)]

mod entries;
mod halt;
mod listing;
mod making;
mod names;
mod programs;
mod showing;
mod top;

pub use programs::{answer, program, words_of};
pub use top::{obey, vximage};
pub use vest_stops::Status;
