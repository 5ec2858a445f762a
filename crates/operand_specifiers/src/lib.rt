//! Reads one operand specifier of a VAX instruction from the bytes of the code: its operand and the place behind it, or
//! that the bytes end inside it, or that they show a reserved addressing mode.
//!
//! A specifier begins with a byte that shows its addressing mode (`vax_form::Mode`). `modes` says which modes are
//! reserved, what number stands behind the first byte and which operand they give; `number` reads that number; `spec`
//! reads a whole specifier.
#![tactic(auto)]

mod modes;
mod number;
mod spec;

pub use spec::{SpecFault, read_spec};
