//! A line of text in an array, made without memory: texts and numbers, appended.
#![tactic(auto)]

mod digits;
mod line;

pub use digits::{push_decimal, push_hexadecimal};
pub use line::{Line, ROOM, push_text};
