//! Micro programs: the steps between a VAX instruction and the words of its block. What a program means, how many
//! words it is counted as, and which programs fit a block.
#![tactic(auto)]

mod check;
mod codes;
mod known;
mod laws;
mod left_out;
mod program;
mod sources;
mod steps;
mod uses;
mod values;
mod words;

pub use check::fits;
pub use codes::{CodeSource, CodeSources};
pub use known::{Checked, Holding, Known};
pub use laws::{part_laws, piece_laws};
pub use left_out::is_left_out;
pub use program::{Arg, Exit, LockedOp, Micro, MicroOp};
pub use sources::sources_of;
pub use values::compute;
pub use words::{program_words, words_of};
