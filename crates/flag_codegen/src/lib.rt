//! The Alpha words that leave the condition codes of an instruction. A code that is live is made in its register; of one that
//! isn't, the operands of its rule are kept.
#![tactic(auto)]

mod codes;
mod instructions;
mod laws;
mod made;

pub use codes::code_words;
pub use laws::rule_law;
