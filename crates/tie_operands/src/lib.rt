//! Evaluates the operands of a VAX instruction one reference at a time: it keeps its place, the values so far, the state
//! before the current part of an operand and at most one reply. What comes behind the operands is the caller's.
//!
//! `replies` holds few replies, `specifiers` finds and obtains one operand, `operands` goes through all of them, `all` evaluates
//! them at once, and `step` is what a step of an interpreted instruction shows.
#![tactic(auto)]

mod all;
mod operands;
mod replies;
mod specifiers;
mod step;

pub use all::all_operands;
pub use operands::Operands;
pub use replies::Replies;
pub use specifiers::Specifiers;
pub use step::TieStep;
