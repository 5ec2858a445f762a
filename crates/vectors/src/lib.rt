//! What assemblers, simulators, manuals, and tables worked out apart from the code say of the definitions, as lemmas: each table of
//! data/ is a file of proofs/, which `tools/vectors.py` makes of it.
#![tactic(auto)]

/// Does nothing: the tables are proved with this crate.
pub fn outside_answers() {}
