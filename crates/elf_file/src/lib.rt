//! Static ELF executables for the VAX: their loaded segments, and the functions that their symbols name.
#![tactic(auto)]

mod fields;
mod figures;
mod header;
mod program;
mod refusal;
mod sections;
mod segments;
mod symbols;

pub use figures::limits_are_as_stated;
pub use program::{Program, Segment, read_program};
pub use refusal::{ElfRefusal, Numbers};
pub use symbols::function_symbols;
