//! What the Alpha words of a VAX instruction have to do: the judgement that a block follows the tree of its
//! instruction, and what a whole translation has to meet.
#![tactic(auto)]

pub mod laws;
