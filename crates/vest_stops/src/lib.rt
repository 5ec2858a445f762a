//! How a call ends: its status, what it has done, or why it stopped before it had written anything, with the line that says so; and what
//! is decided on it.
#![tactic(auto)]

mod status;
mod stop;

pub use status::{Done, Status};
pub use stop::{Refusal, Stop};
