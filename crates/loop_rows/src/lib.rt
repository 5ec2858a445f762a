//! Blocks with a loop, written by hand: they copy a string byte by byte, in R0 to R5. One has the length in a register, and
//! the other reads it from memory first. It is proved that they follow their trees wherever they stand, and are all that a
//! block has to be: so the judgement on blocks lets loops through.
#![tactic(auto)]

mod block;

pub use block::{copy_block, measured_block};
