//! The text that shows an image and what its translation makes of it.
#![tactic(auto)]

mod flow;
mod instructions;
mod put;
mod tables;

pub use flow::show_text;
