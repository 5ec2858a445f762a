//! The file format of VAX images: reading, with the first refusal of a file that is none, and writing.
#![tactic(auto)]

mod checks;
mod fields;
mod header;
mod image;
pub mod laws;
mod lengths;
mod limits;
mod pages;
mod reading;
mod refusal;
mod rows;
mod tables;
mod writing;

pub use fields::word_at;
pub use image::{Image, Section, Start};
pub use lengths::image_length;
pub use limits::{FIRST_REGISTERS, VERSION_1, limits_are_as_stated, most_threads};
pub use reading::read_image;
pub use refusal::{ImageRefusal, Numbers};
pub use writing::{put_words, write_image};
