//! Code made ready to be run: each word's instruction, decoded before, and what is known of the block that begins there;
//! many steps inside a block at once, with the registers in place, the step that arrives at the next block, and a probe and
//! an access that go on inside their block.
#![tactic(auto)]

mod asked;
mod blocks;
mod effect;
mod flat;
mod landing;
mod place;
mod prepared;
mod probe;
mod run;

pub use asked::Asked;
pub use blocks::Block;
pub use effect::Effect;
pub use landing::Landing;
pub use place::{Gliding, Keeping, Stepping};
pub use prepared::{Prepared, prepare};
pub use probe::probe_count;
