//! The Alpha code of a VAX instruction: the block of its micro program, which does what the program means wherever it
//! comes to stand in a translation. The temporaries 0 to 5 stand in R21 to R26. Nothing that a boundary between
//! instructions shows is written before the last word that may fault.
#![tactic(auto)]

mod blocks;
mod calls;
mod direct;
mod entering;
mod frames;
mod homes;
mod leaving;
mod lines;
mod operations;
mod points;
mod reached;
mod spared;
mod strings;
mod tested;
mod waits;

pub use blocks::block;
pub use entering::long_block;
pub use strings::string_block;
