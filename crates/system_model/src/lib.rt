//! Processors that run a translation and interpret the rest, which histories of theirs are legal, and the order of
//! references that a history keeps.
//!
//! `specs/` has the definitions: what a processor does in its turn, what it reaches with its own entries of a history, and
//! when a history and its processors are legal; references as accesses to quadwords, and when a history matches the
//! references that were made; the interpreted steps of a driven thread.
#![tactic(auto)]

mod boundary;
pub mod laws;
mod order;
mod translation;

pub use boundary::shown;
pub use order::{is_counted, order_of, pick_of};
pub use translation::{Range, Translation, word_for};
pub use vax_driven::End;
