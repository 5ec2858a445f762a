//! Alpha words as text, which the GNU assembler reads back.
#![tactic(auto)]

mod names;
mod words;

pub use words::{one_word_each, word_text};
