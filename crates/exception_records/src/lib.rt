//! What is known of the words of translated code: where the condition codes are found at each boundary between VAX
//! instructions, what a word that calls the PALcode checks or raises, and the block type.
#![tactic(auto)]

mod block;
mod points;
mod registers;
mod rules;

pub use block::Block;
pub use points::{Point, PointRefusal, Points, build};
pub use registers::{codes_shown, shown, still_held};
pub use rules::{CodeRule, Rules};
