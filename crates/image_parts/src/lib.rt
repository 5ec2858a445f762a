//! Images made of their parts, and of static ELF executables for the VAX.
#![tactic(auto)]

mod options;
mod parts;
mod program;
mod refusal;
mod sections;
mod segments;
mod spans;
mod spelled;
mod stacks;

pub use options::{Functions, Options};
pub use parts::{Parts, from_parts};
pub use program::from_elf;
pub use refusal::{Judge, MakeRefusal, Numbers};
