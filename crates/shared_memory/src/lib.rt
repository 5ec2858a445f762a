//! A memory that threads share: each access is one entry of one history. The memory lies in a slot; a processor's way takes it out,
//! makes accesses until another processor waits for it, and puts it back. A pass is what one processor knows of the history.
#![tactic(auto)]

mod pass;
mod plays;
mod port;
mod shared;
mod steps;
mod view;
mod waiting;
mod way;

pub use pass::Pass;
pub use port::Port;
pub use shared::SharedMemory;
pub use view::{Ended, View};
pub use way::Way;
