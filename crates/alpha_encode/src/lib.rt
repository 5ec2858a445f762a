//! Alpha instructions and their 32-bit words, by the instruction formats of the Alpha Architecture
//! Reference Manual: memory, branch, operate, JMP and PALcode. `encode` and `decode` undo each other.
//! `pal` and `registers` have the numbers of the PALcode calls and registers that translated code uses.
#![tactic(auto)]

mod decoder;
mod encoder;
mod halves;
mod instr;
mod makers;
pub mod pal;
pub mod registers;
mod tables;

pub use crate::decoder::decode;
pub use crate::encoder::encode;
pub use crate::halves::{load_high, load_longword, load_low};
pub use crate::instr::{AlphaInstr, BranchOp, MemoryOp, OperateOp, Second};
pub use crate::makers::{NOP, branch, memory, operate, operate_by};
pub use crate::tables::{BRANCH_ROWS, MEMORY_ROWS, OPERATE_ROWS, tables_are_the_manuals};
