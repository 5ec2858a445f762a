//! The listing of the read-only sections of an image: instructions as text, and the bytes between them.
#![tactic(auto)]

mod code;
mod covered;
mod extent;
mod labels;
mod pieces;
mod put;
mod sections;

ghost use Rattle.dis_text.specs.Whole.{IsWhole};

pub use code::Code;
pub use labels::Name;
pub use pieces::Range;
pub use sections::listing_text;

/// The pieces of a section are all its bytes, each just once, save those of instructions that begin inside others.
pub fn pieces_are_whole()
    ensures { IsWhole }
{}
