//! What the VAX instructions do, but for the long ones: each is a script of checks and references that ends with a new
//! state, a trap or a fault, and `next` plays it with the replies that there are.
#![tactic(auto)]

mod arithmetic;
mod branches;
mod codes;
mod control;
mod cursor;
mod evaluation;
mod fields;
mod instructions;
mod meaning;
mod memory;
mod moves;
mod operands;

pub use branches::target;
pub use codes::{go_to, set_codes, set_pc, sign_of};
pub use cursor::Cursor;
pub use evaluation::{
    Evaluated, NOTHING, evaluated_row, find, location_of_place, obtain, operands_from,
    value_of_place,
};
pub use instructions::{body, operation_run};
pub use meaning::next;
pub use memory::{check, code_word, fetch, low_bytes, read, write};
pub use moves::set_compared;
pub use operands::{Location, register_of, set_register_of, store};
pub use vax_form::{Outcome, Pick, RefKind, Reference, VaxState};
