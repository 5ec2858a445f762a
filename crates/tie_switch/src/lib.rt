//! A processor and its turn: one step of one thread, in translated code or interpreted.
//!
//! `processor` keeps a thread between its turns, `next` gives what the word at which it stands does, `call` has the
//! PALcode calls, `request` and `reference` the accesses to memory, `registers` what Alpha registers show of a VAX state,
//! `interpreted` what a thread does at a state a reference at a time, `turn` makes one step over any memory, `many` and `live`
//! many of them, and `ready` makes a translation ready to be run.
#![tactic(auto)]

mod access;
mod arrive;
mod call;
mod course;
mod interpreted;
mod known;
pub mod laws;
mod live;
mod many;
mod next;
mod over;
mod pending;
mod place;
mod played;
mod processor;
mod ready;
mod reference;
mod registers;
mod request;
mod setting;
mod tie;
mod turn;

pub use interpreted::{Interpreted, Step};
pub use known::KNOWN;
pub use live::Pause;
pub use place::Last;
pub use played::Played;
pub use processor::Processor;
pub use ready::made_ready;
pub use system_model::Range;
pub use turn::Turn;
pub use vax_driven::End;
