//! The Alpha words that read, write and change an operand of 1, 2, 4 or 8 bytes at any address, on a processor that
//! has no loads and stores of bytes and words, and on one that has them: one access that counts for each part of the
//! operand.
#![tactic(auto)]

mod locked;
mod operators;
mod reading;
mod writing;

pub use locked::locked_words;
pub use reading::{bw_read_words, extended_read_words, read_words};
pub use writing::{bw_write_words, write_words};
