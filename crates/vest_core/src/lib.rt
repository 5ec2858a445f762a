//! The pure world: a memory and its processors, of which one at a time is picked for a turn, in any order. Whatever is
//! picked, the history is what the VAX threads do that are driven by its order.
//!
//! `world` has the world, and its turn, which takes no memory; `alone` runs one of a single thread to its end;
//! `live` has the world of a single thread whose input is given, and whose output is sent, while it runs, `talking` talks with it,
//! and `progress` has the lines that tell how far it has come.
#![tactic(auto)]

mod alone;
mod live;
mod progress;
mod talking;
mod world;

pub use live::LiveWorld;
pub use talking::TalkEnd;
pub use tie_switch::{Pause, Processor, Turn};
pub use world::World;
