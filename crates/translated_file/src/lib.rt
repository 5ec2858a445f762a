//! The file format of translated images: reading the parts of a file, comparing them with a translation, and writing.
#![tactic(auto)]

mod comparing;
mod header;
pub mod laws;
mod limits;
mod parts;
mod reading;
mod refusal;
mod writing;

pub use comparing::compare;
pub use limits::{MOST_HINTS, MOST_PAIRS, MOST_WORDS, VERSION_1, VERSION_2, limits_are_as_stated};
pub use parts::Parts;
pub use reading::{first_fall, hints_of, read_parts};
pub use refusal::{Numbers, TranslatedRefusal};
pub use writing::write_translated;
