//! The condition codes that are live behind each instruction of a run, and what each operation does to the codes.
#![tactic(auto)]

mod liveness;
mod uses;

pub use liveness::{live, live_behind, liveness_laws, wanted};
pub use uses::{CodeUse, code_use};
