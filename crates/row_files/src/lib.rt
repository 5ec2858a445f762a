//! Files under names, and the pieces that rows spell their bytes by, for the programs that call a command over files in memory.
#![tactic(auto)]

mod files;
mod pieces;

pub use files::Files;
pub use pieces::{first_word, lines_of, parted, place_of, spelled, words_of};
