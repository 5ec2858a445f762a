//! The Alpha words of a micro program's computations: constants, operations on numbers of every size, and overflow. They
//! make no access, and change only the register of the result and R27.
#![tactic(auto)]

mod arguments;
mod compute;
mod constants;
mod forms;
mod laws;
mod literals;
mod overflow;
mod parts;

pub use compute::compute_words;
pub use constants::constant_words;
pub use laws::compute_laws;
pub use overflow::{Arithmetic, overflow_words};
