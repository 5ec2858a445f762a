//! The operands of an instruction as parts of a micro program: read, located, modified, given a result, pushed, and what
//! their specifiers add to the registers.
#![tactic(auto)]

mod laws;
mod operands;
mod results;
mod specifiers;

pub use laws::{fitting_law, operand_laws, piece_laws, row_law, word_laws};
pub use operands::{Specifier, put_operand};
pub use results::{put_finish, put_push, put_replacement, put_result, put_steps};
pub use specifiers::{Pointer, Steps};
