//! The VAX threads driven by an order: what their references reply and make of memory, which reference each thread wants,
//! and how each thread ends. It is said of any meaning of instructions.
#![tactic(auto)]

pub mod laws;
mod thread;

pub use thread::{End, ThreadRun};
