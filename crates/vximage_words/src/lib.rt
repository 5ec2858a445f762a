//! The words of `vximage`: the command that a command line spells, as `clap` reads it, or what is told in its place.
//!
//! `app` has the commands with their help, `words` the command that matches, `values` what options write, `numbers` hexadecimal ones,
//! and `commands` what is asked for.
#![tactic(auto)]

mod app;
mod commands;
mod numbers;
mod values;
mod words;

pub use commands::{Command, ListingAsked, PartsAsked, SectionAsked};
pub use numbers::hexadecimal;
pub use words::{Told, read_words};
