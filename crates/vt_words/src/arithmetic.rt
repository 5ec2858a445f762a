// Sums, differences, products and quotients with their condition codes.
ghost use Rattle.std.specs.Prelude.{◌≡◌, ◌<◌, ◌≤◌, ◌*◌, ◌^◌, unsigned_abs, pos, ◌+ℤ◌, ◌-ℤ◌, ◌*ℤ◌, int_div};
ghost use Rattle.vt_words.specs.Values.{IsSize, modulus, bit, signed_value};
ghost use Rattle.vt_words.specs.Arithmetic.{coded_value, sum_of, difference_of, negation_of, product_of, quotient_of};

use crate::values::{is_in_range, limit, signed, wrapped};

/// A value of some bytes, with the condition codes of the operation that gave it.
#[derive(Clone, Copy, Debug, PartialEq, Eq)]
pub struct Coded {
    /// Unsigned, below 2 to 8 times the number of bytes.
    pub value: u64,
    /// Negative: the value's sign.
    pub n: bool,
    /// Zero.
    pub z: bool,
    /// Overflow.
    pub v: bool,
    /// Carry or borrow.
    pub c: bool,
}

/// A value with N and Z by the value.
pub fn with_signs(bytes: u32, value: u64, v: bool, c: bool) -> Coded
    requires { IsSize bytes }
    ensures { result ≡ coded_value bytes value v c }
{
    Coded {
        value,
        n: value >= limit(bytes) / 2,
        z: value == 0,
        v,
        c,
    }
}

/// The sum as a signed number.
fn signed_sum(bytes: u32, a: u64, b: u64, carry: bool) -> i64
    requires size { IsSize bytes }
    requires a_fits { a < modulus bytes }
    requires b_fits { b < modulus bytes }
    ensures { result ≡ signed_value bytes a +ℤ signed_value bytes b +ℤ pos (bit carry) }
{
    signed(bytes, a) + signed(bytes, b) + carry as i64
}

/// The difference as a signed number.
fn signed_difference(bytes: u32, a: u64, b: u64, borrow: bool) -> i64
    requires size { IsSize bytes }
    requires a_fits { a < modulus bytes }
    requires b_fits { b < modulus bytes }
    ensures { result ≡ signed_value bytes a -ℤ signed_value bytes b -ℤ pos (bit borrow) }
{
    signed(bytes, a) - signed(bytes, b) - borrow as i64
}

/// The product as a signed number.
pub fn signed_product(bytes: u32, a: u64, b: u64) -> i64
    requires size { IsSize bytes }
    requires a_fits { a < modulus bytes }
    requires b_fits { b < modulus bytes }
    ensures value { result ≡ signed_value bytes a *ℤ signed_value bytes b }
    ensures bound { unsigned_abs result ≤ 2 ^ 62 }
{
    signed(bytes, a) * signed(bytes, b)
}

/// The sum of two values and a carry: ADD, INC, ADWC.
#[tactic(auto, unfolding(crate::specs::Arithmetic::sum_of))]
pub fn add(bytes: u32, a: u64, b: u64, carry: bool) -> Coded
    requires size { IsSize bytes }
    requires a_fits { a < modulus bytes }
    requires b_fits { b < modulus bytes }
    ensures { result ≡ sum_of bytes a b carry }
{
    let limit = limit(bytes);
    let sum = a + b + carry as u64;
    let v = !is_in_range(bytes, signed_sum(bytes, a, b, carry));
    with_signs(bytes, sum % limit, v, sum >= limit)
}

/// The value of a minus b minus a borrow: SUB, DEC, SBWC.
#[tactic(auto, unfolding(crate::specs::Arithmetic::difference_of))]
pub fn sub(bytes: u32, a: u64, b: u64, carry: bool) -> Coded
    requires size { IsSize bytes }
    requires a_fits { a < modulus bytes }
    requires b_fits { b < modulus bytes }
    ensures { result ≡ difference_of bytes a b carry }
{
    let taken = b + carry as u64;
    let value = (a + limit(bytes) - taken) % limit(bytes);
    let v = !is_in_range(bytes, signed_difference(bytes, a, b, carry));
    with_signs(bytes, value, v, a < taken)
}

/// Zero minus a value: MNEG. C says that the value is not 0.
pub fn negate(bytes: u32, value: u64) -> Coded
    requires size { IsSize bytes }
    requires value_fits { value < modulus bytes }
    ensures { result ≡ negation_of bytes value }
{
    sub(bytes, 0, value, false)
}

/// The unsigned product of two longwords.
fn product(a: u32, b: u32) -> u64
    ensures { result ≡ a * b }
{
    a as u64 * b as u64
}

/// The product of two values: MUL.
#[tactic(auto, unfolding(crate::specs::Arithmetic::product_of))]
pub fn mul(bytes: u32, a: u64, b: u64) -> Coded
    requires size { IsSize bytes }
    requires a_fits { a < modulus bytes }
    requires b_fits { b < modulus bytes }
    ensures { result ≡ product_of bytes a b }
{
    let v = !is_in_range(bytes, signed_product(bytes, a, b));
    with_signs(bytes, product(a as u32, b as u32) % limit(bytes), v, false)
}

/// The dividend over the divisor, towards zero.
fn signed_quotient(bytes: u32, dividend: u64, divisor: u64) -> i64
    requires size { IsSize bytes }
    requires dividend_fits { dividend < modulus bytes }
    requires divisor_fits { divisor < modulus bytes }
    requires not_zero { 0 < divisor }
    ensures { result ≡ int_div (signed_value bytes dividend) (signed_value bytes divisor) }
{
    signed(bytes, dividend) / signed(bytes, divisor)
}

/// The dividend over the divisor, towards zero: DIV. On overflow and on divisor 0 it is the dividend.
#[tactic(auto, unfolding(crate::specs::Arithmetic::quotient_of))]
pub fn divide(bytes: u32, dividend: u64, divisor: u64) -> Coded
    requires size { IsSize bytes }
    requires dividend_fits { dividend < modulus bytes }
    requires divisor_fits { divisor < modulus bytes }
    ensures { result ≡ quotient_of bytes dividend divisor }
{
    if divisor == 0 {
        return with_signs(bytes, dividend, true, false);
    }
    let number = signed_quotient(bytes, dividend, divisor);
    if is_in_range(bytes, number) {
        with_signs(bytes, wrapped(bytes, number), false, false)
    } else {
        with_signs(bytes, dividend, true, false)
    }
}
