//! What the VAX instructions of an image mean for the processors that run them, and that this meaning is sound: from every
//! state, each reference is one that memory can make, each end is a state, and the services are the six. And by which
//! accesses code for each of the processors may make its references.
#![tactic(auto)]

pub mod laws;
mod target;

pub use target::Target;
