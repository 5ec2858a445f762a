// Shifts, rotation and logical operations on numbers of a few bytes.
ghost use Rattle.std.specs.Prelude.{◌≡◌, ◌<◌, ◌≤◌, ◌*◌, ◌%◌, ◌^◌, pos, ◌*ℤ◌, bit_and, bit_or, bit_xor, unsigned_abs, min};
ghost use Rattle.std.specs.Int.{int_div_euclid};
ghost use Rattle.vt_words.specs.Values.{IsSize, modulus, signed_value};
ghost use Rattle.vt_words.specs.Shifts.{left_shift_of, right_shift_of, rotation_of, complement_of, without};

use crate::arithmetic::{Coded, with_signs};
use crate::values::{is_in_range, limit, signed, wrapped};

/// A power of two.
fn power(count: u32) -> i64
    requires { count < 32 }
    ensures value { result ≡ pos (2 ^ count) }
    ensures bound { unsigned_abs result ≤ 2 ^ 31 }
{
    let power: u64 = 1 << count;
    power as i64
}

/// A longword as a signed number, times a power of two.
fn scaled(value: u64, count: u32) -> i64
    requires value_fits { value < 2 ^ 32 }
    requires count { count < 32 }
    ensures { result ≡ signed_value 4 value *ℤ pos (2 ^ count) }
{
    signed(4, value) * power(count)
}

/// A longword times a power of two, its low 32 bits.
fn shifted(value: u32, count: u32) -> u64
    requires { count < 32 }
    ensures { result ≡ value * 2 ^ count % modulus 4 }
{
    ((value as u64) << count) % limit(4)
}

/// A longword shifted to the left, with the codes of ASHL. A count above 31 gives 0.
#[tactic(auto, unfolding(crate::specs::Shifts::left_shift_of))]
pub fn shift_left(value: u64, count: u32) -> Coded
    requires { value < 2 ^ 32 }
    ensures { result ≡ left_shift_of value count }
{
    if count > 31 {
        return with_signs(4, 0, value != 0, false);
    }
    let v = !is_in_range(4, scaled(value, count));
    with_signs(4, shifted(value as u32, count), v, false)
}

/// A signed longword over a power of two, rounded down.
fn floor_over(value: u64, count: u32) -> i64
    requires value_fits { value < 2 ^ 32 }
    requires count { count < 32 }
    ensures { result ≡ int_div_euclid (signed_value 4 value) (pos (2 ^ count)) }
{
    signed(4, value).div_euclid(power(count))
}

/// A longword shifted to the right with its sign: ASHL with the count turned. From 31 on only the sign is left.
pub fn shift_right(value: u64, count: u32) -> u64
    requires { value < 2 ^ 32 }
    ensures { result ≡ right_shift_of value count }
{
    wrapped(4, floor_over(value, count.min(31)))
}

/// A longword rotated to the left: ROTL.
pub fn rotate(value: u32, count: u32) -> u32
    requires { count < 32 }
    ensures { result ≡ rotation_of value count }
{
    value.rotate_left(count)
}

/// Each bit of a value turned: MCOM.
pub fn complement(bytes: u32, value: u64) -> u64
    requires size { IsSize bytes }
    requires value_fits { value < modulus bytes }
    ensures value { result ≡ complement_of bytes value }
    ensures bound { result < modulus bytes }
{
    limit(bytes) - 1 - value
}

/// The bits that both have: BIT.
pub fn and(bytes: u32, a: u64, b: u64) -> u64
    requires size { IsSize bytes }
    requires a_fits { a < modulus bytes }
    requires b_fits { b < modulus bytes }
    ensures value { result ≡ bit_and a b }
    ensures bound { result < modulus bytes }
{
    a & b
}

/// The bits of a that b does not have: BIC.
pub fn and_not(bytes: u32, a: u64, b: u64) -> u64
    requires size { IsSize bytes }
    requires a_fits { a < modulus bytes }
    requires b_fits { b < modulus bytes }
    ensures value { result ≡ without bytes a b }
    ensures bound { result < modulus bytes }
{
    a & (limit(bytes) - 1 - b)
}

/// The bits that one has: BIS.
#[tactic(auto, using(std::proofs::lemmas::Nat::or_lt))]
pub fn or(bytes: u32, a: u64, b: u64) -> u64
    requires size { IsSize bytes }
    requires a_fits { a < modulus bytes }
    requires b_fits { b < modulus bytes }
    ensures value { result ≡ bit_or a b }
    ensures bound { result < modulus bytes }
{
    a | b
}

/// The bits that just one has: XOR.
#[tactic(auto, using(std::proofs::lemmas::Nat::xor_lt))]
pub fn xor(bytes: u32, a: u64, b: u64) -> u64
    requires size { IsSize bytes }
    requires a_fits { a < modulus bytes }
    requires b_fits { b < modulus bytes }
    ensures value { result ≡ bit_xor a b }
    ensures bound { result < modulus bytes }
{
    a ^ b
}
