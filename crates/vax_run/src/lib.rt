//! The VAX threads driven by an order of references: each pick's thread makes its next one, without a translation.
#![tactic(auto)]

mod advance;
mod answered;
mod memory;
mod run;
mod thread;
mod world;

pub use advance::{Life, Place, one_more};
pub use run::{DrivenRun, driven};
pub use vax_driven::ThreadRun;
