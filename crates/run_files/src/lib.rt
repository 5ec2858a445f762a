//! Two file formats. Orders: what a run is determined by besides its image, which is its input, the order of its references,
//! and how far each thread came. Hints: addresses from which instructions are looked for, too. Reading, with the first
//! refusal of a file that is none, and writing.
#![tactic(auto)]

mod fields;
mod file;
mod header;
mod hint_refusal;
mod hints;
pub mod laws;
mod limits;
mod parts;
mod reading;
mod refusal;
mod writing;

pub use file::OrderFile;
pub use hint_refusal::HintRefusal;
pub use hints::{read_hints, write_hints};
pub use limits::{MOST_COUNT, MOST_INPUT, MOST_PICKS, MOST_THREADS, limits_are_as_stated};
pub use reading::read_order;
pub use refusal::{Numbers, OrderRefusal};
pub use writing::{append_order, order_room};
