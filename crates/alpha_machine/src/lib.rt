//! One Alpha processor's local step, as the Alpha Architecture Reference Manual describes its
//! integer instructions. Memory is outside: a step that needs it answers with the access it wants.
#![tactic(auto)]

mod branch;
mod cpu;
mod execution;
mod memory;

pub use crate::cpu::{AlphaStep, Cpu};
pub use crate::execution::{finish, step};
