//! VAX instructions as text, in the syntax of DEC's MACRO.
//!
//! `names` has the names of opcodes and registers, `numbers` reads and appends numbers, `operands` appends the specifiers,
//! and `instruction` a whole instruction.
#![tactic(auto)]

mod instruction;
mod names;
mod numbers;
mod operands;

pub use instruction::{instruction_text, walks_whole};
pub use names::{name_of, names_are_whole};
