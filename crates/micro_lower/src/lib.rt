//! One VAX instruction as a micro program: the same checks and references, the same end, and what the condition codes
//! are made from in its temporaries.
#![tactic(auto)]

mod arithmetic;
mod bits;
mod branches;
mod codes;
mod jumps;
mod laws;
mod lowering;
mod micros;
mod moves;
mod plans;
mod products;
mod ranges;
mod rows;
mod shifts;
mod status;
mod table;

pub use laws::{ending_law, translated_law, written_law};
pub use lowering::{LowerFault, has_program, lower};
