//! The place of each block of Alpha code, and the words by which one block goes on to another.
//!
//! Blocks stand in rising order of their VAX addresses from word 0 on without gaps. A block keeps three words for each
//! of its exits. In its place an exit has none of them where the block of its address stands behind, one branch where that
//! reaches the block, and else three: a jump, or a call of the interpreter where the address has no block.
#![tactic(auto)]

mod ends;
mod exits;
mod layout;

pub use exits::code_to;
pub use layout::lay_out;
