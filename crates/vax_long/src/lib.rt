//! What the long VAX instructions do: calls, lists of registers, character strings and INDEX. Each is a script of checks
//! and references that ends with a new state, a trap or a fault, and `next_long` plays it with the replies that there
//! are. Here too is what a thread does at any state: its instruction, or what is pending.
#![tactic(auto)]

mod bytes;
mod calls;
mod forms;
mod frames;
mod indexing;
mod instructions;
mod meaning;
mod moving;
mod pending;
mod registers;
mod searching;
mod standing;
mod words;

pub use bytes::{beside, beyond, check_string, fetch_byte, first_bad, read_byte, write_byte};
pub use calls::{call_general, call_stack, return_from_procedure};
pub use forms::long_form;
pub use frames::longword_wanted;
pub use indexing::index;
pub use instructions::{long_body, long_operation_of, long_operation_run};
pub use meaning::next_long;
pub use moving::{beginning, fill_bytes, move_bytes, set_moved};
pub use pending::{frame_is_allowed, next_pending, push_exception, resume, settle};
pub use registers::{pop_by_mask, push_by_mask};
pub use searching::{compare_bytes, scan_bytes, stops_at};
pub use standing::laws_of_tree_at;
pub use words::code_word;
