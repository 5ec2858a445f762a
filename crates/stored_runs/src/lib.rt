//! A stored order driven again: the VAX threads by themselves, each taken to the references that the order names, without a
//! translation.
//!
//! `memory` is the memory, input and output of references, `thread` one thread that makes them, `world` all threads along an
//! order, `course` what they share, `marks` the addresses at which they retired, `replay` what the order gives, `found_addresses`
//! which of these addresses a map lacks, and `report` what is told of an order.
#![tactic(auto)]

mod course;
mod ends;
mod found_addresses;
pub mod laws;
mod marks;
mod memory;
mod refusal;
mod replay;
mod report;
mod thread;
mod world;

pub use ends::Replayed;
pub use found_addresses::{Finding, found};
pub use refusal::ReplayRefusal;
pub use replay::replayed;
pub use report::{done_of, replay_report};
