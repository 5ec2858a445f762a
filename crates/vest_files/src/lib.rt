//! Files that a command line names: the image of a file with its translation, and the commands that run nothing.
//!
//! Each stage and each command is one function that says what it does, why it stops before it has written anything, and
//! what the files decide where the desk tells them. `specs/` has their tables.
#![tactic(auto)]

pub mod laws;
mod listing;
mod loading;
mod stages;
mod translating;
mod versions;

pub use listing::list_file;
pub use loading::{Loaded, load, of_bytes};
pub use stages::{file_limit_is_as_stated, read_file};
pub use translating::translate_file;
pub use versions::version_of;
pub use vest_stops::{Done, Refusal, Status, Stop};
