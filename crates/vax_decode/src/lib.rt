//! Decodes whole VAX instructions from the code of an image: its read-only pages.
//!
//! `fetch` takes the bytes at an address that can be fetched, `instr` reads the specifiers that the opcode's row asks for,
//! and `decode` answers the instruction, or what stands there in its place.
#![tactic(auto)]

mod decode;
mod fetch;
mod instr;

pub use decode::{Decoded, decode_at};
