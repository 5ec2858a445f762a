//! What is said: the report of a run, how far a thread has come, the line of a refused file, the image and the lines of `generate`, and the listing of
//! a translation.
//!
//! A `Line` is made in an array, so that what a run says takes no memory.
#![tactic(auto)]

mod blocks;
mod generating;
mod images;
mod line;
mod progress;
mod refused;
mod threads;

pub use blocks::{are_within, listing};
pub use generating::generated_lines;
pub use images::{MOST_GROUPS, generated, generated_bytes};
pub use line::{LINE_ROOM, Line};
pub use progress::offer_progress;
pub use refused::{MOST_NUMBERS, Subject, refused_line};
pub use threads::{Offered, offer, report};
