//! Whole-number arithmetic on bytes, words and longwords with condition codes, and quadwords as eight
//! bytes. Operands are unsigned numbers that fit their size; nothing here takes memory or fails.
#![tactic(auto)]

mod arithmetic;
mod bits;
mod bytes;
mod conversion;
mod extensions;
mod values;

pub use arithmetic::{Coded, add, divide, mul, negate, sub, with_signs};
pub use bits::{and, and_not, complement, or, rotate, shift_left, shift_right, xor};
pub use bytes::{
    cleared, extract_high, extract_low, field, insert_high, insert_low, kept, mask_high, mask_low,
    sign_extend, spread,
};
pub use conversion::{convert, extended_product};
pub use extensions::{extension_laws, quadword_laws};
pub use values::{limit, signed, wrapped};
