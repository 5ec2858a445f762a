//! What a legal history of processors is for the VAX threads of its image, whose instructions are translated or
//! interpreted in any mix.
#![tactic(auto)]

pub mod laws;
