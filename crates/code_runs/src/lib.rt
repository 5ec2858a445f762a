//! Runs of instructions, in which each begins where the one before ends: the condition codes that are live behind each
//! instruction of a run, and the rules by which they are told before it and behind it.
#![tactic(auto)]

mod codes;
mod entrances;
mod laws;
mod rules;

pub use codes::{InstrCodes, code_sources, instruction_codes};
pub use laws::{rule_laws, run_laws};
pub use rules::{rule_of, rules_behind};
