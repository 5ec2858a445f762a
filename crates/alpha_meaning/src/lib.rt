//! What Alpha instructions mean: the result of each operate instruction, the rows of the memory and branch
//! formats, and the judgement on pieces of code against the accesses that they are to make.
#![tactic(auto)]

mod access;
mod branch;
mod byte_laws;
mod memory;
mod operate;

pub use access::{AlphaAccess, AlphaKind, Extension, is_aligned, stores};
pub use branch::{is_taken, links};
pub use byte_laws::{extract_bytes, join_bytes, replace_bytes, replace_crossing_bytes};
pub use memory::{
    access_of, address_of, bytes_of, drops_low_bits, extended, extension_of, kind_of, scale_of,
};
pub use operate::result;
