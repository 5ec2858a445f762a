//! What the commands that run something have in common: the input is read, output and report go out, and a run is kept.
//!
//! `input` reads the input to its end, `delivery` writes what came of a run, `keeping` keeps it in `kept`, and `generated` makes the lines
//! that `generate` writes. `order` makes the file of a run's order. `specs/Keeping.antt` has what is known of a run that was kept, and `specs/Threads.antt` why a processor is spent.
#![tactic(auto)]

mod delivery;
mod generated;
mod input;
mod keeping;
mod kept;
pub mod laws;
mod order;

pub use delivery::{deliver, report_ends};
pub use generated::lines_of;
pub use input::{input_limit_is_as_stated, read_input};
pub use keeping::{keep, keep_live, limit_of};
pub use kept::{Kept, KeptMemory};
pub use order::OrderRoom;
