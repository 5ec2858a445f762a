// Conversion between sizes, and the extended product.
ghost use Rattle.std.specs.Prelude.{◌≡◌, ◌<◌, ◌≤◌, ◌*◌, ◌/◌, ◌^◌, pos, neg_ℤ, ◌+ℤ◌, ◌*ℤ◌, unsigned_abs};
ghost use Rattle.vt_words.specs.Values.{IsSize, modulus, signed_value, value_of};
ghost use Rattle.vt_words.specs.Arithmetic.{conversion_of, extended_product_of};

use crate::arithmetic::{Coded, signed_product, with_signs};
use crate::values::{is_in_range, limit, signed, wrapped};

/// The signed number of a value in another size: CVT.
#[tactic(auto, unfolding(crate::specs::Arithmetic::conversion_of))]
pub fn convert(from: u32, to: u32, value: u64) -> Coded
    requires from { IsSize from }
    requires to { IsSize to }
    requires value_fits { value < modulus from }
    ensures { result ≡ conversion_of from to value }
{
    let number = signed(from, value);
    with_signs(to, wrapped(to, number), !is_in_range(to, number), false)
}

/// A number as a quadword in two's complement.
fn quadword_of(number: i64) -> u64
    ensures { result ≡ value_of 8 number }
{
    number.cast_unsigned()
}

/// The product of two signed longwords plus a third, as a signed number.
fn signed_extended_product(a: u64, b: u64, addend: u64) -> i64
    requires a_fits { a < 2 ^ 32 }
    requires b_fits { b < 2 ^ 32 }
    requires addend_fits { addend < 2 ^ 32 }
    ensures { result ≡ signed_value 4 a *ℤ signed_value 4 b +ℤ signed_value 4 addend }
{
    let product = signed_product(4, a, b);
    product + signed(4, addend)
}

/// The product of two signed longwords plus a third, as a quadword: EMUL.
#[tactic(auto, unfolding(crate::specs::Arithmetic::extended_product_of))]
pub fn extended_product(a: u64, b: u64, addend: u64) -> u64
    requires a_fits { a < 2 ^ 32 }
    requires b_fits { b < 2 ^ 32 }
    requires addend_fits { addend < 2 ^ 32 }
    ensures { result ≡ extended_product_of a b addend }
{
    quadword_of(signed_extended_product(a, b, addend))
}
