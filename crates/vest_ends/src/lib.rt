//! How a command ends that waits for no threads: its status, and the line that the report takes where it stopped.
#![tactic(auto)]

mod ending;

pub use ending::{end, refuse, tell_usage};
