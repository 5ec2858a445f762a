// What a computation gives.
ghost use Rattle.std.specs.Prelude.{◌≡◌, ◌≤◌, ◌<◌, ◌-◌, ◌*◌, ◌/◌, ◌%◌, ◌^◌, pos, nat_lt, if◌then◌else◌};
ghost use Rattle.vax_form.specs.Size.{bytes_of};
ghost use Rattle.vt_words.specs.Values.{value_of};
ghost use Rattle.micro_ops.specs.Values.{bits_of, limit_of, low, signed, sign_of, signed_right, value_from, computed};

use crate::program::MicroOp;
use vax_form::Size;
use vt_words::sign_extend;

/// The least number that does not fit the size.
fn limit(size: Size) -> u128
    ensures value { result ≡ limit_of size }
    ensures least { 2 ≤ result }
    ensures most { result ≤ 2 ^ 64 }
{
    1 << (8 * size.bytes())
}

/// The low bytes of a value.
fn low(size: Size, value: u64) -> u64
    ensures value { result ≡ low size value }
    ensures fits { result < limit_of size }
{
    (u128::from(value) % limit(size)) as u64
}

/// As a two's complement number.
fn signed(size: Size, value: u64) -> i64
    requires { value < limit_of size }
    ensures { result ≡ signed size value }
{
    match size {
        Size::Quad => value.cast_signed(),
        _ => vt_words::signed(size.bytes(), value),
    }
}

/// All bits of the size where the sign is set, else 0.
fn sign(size: Size, value: u64) -> u64
    ensures { result ≡ sign_of size value }
{
    let limit = limit(size);
    if u128::from(value) < limit / 2 {
        0
    } else {
        (limit - 1) as u64
    }
}

/// The low bytes of a number, in two's complement.
fn wrapped(size: Size, number: i64) -> u64
    ensures { result ≡ value_of (bytes_of size) number }
{
    match size {
        Size::Quad => number.cast_unsigned(),
        _ => vt_words::wrapped(size.bytes(), number),
    }
}

/// A shift to the right that copies the sign.
fn shift_signed(size: Size, value: u64, count: u64) -> u64
    requires value_fits { value < limit_of size }
    requires count { count < bits_of size }
    ensures { result ≡ signed_right size value count }
{
    wrapped(size, signed(size, value) >> count)
}

/// What a micro operation leaves in its temporary, for the values of its arguments and for what the temporary held.
pub fn compute(op: MicroOp, size: Size, a: u64, b: u64, held: u64) -> u64
    ensures { result ≡ computed op size a b held }
{
    value_from(op, size, low(size, a), low(size, b), held)
}

#[tactic(auto, unfolding(crate::specs::Values::value_from))]
fn value_from(op: MicroOp, size: Size, a: u64, b: u64, held: u64) -> u64
    requires a_fits { a < limit_of size }
    requires b_fits { b < limit_of size }
    ensures { result ≡ value_from op size a b held }
{
    let bits = 8 * size.bytes();
    match op {
        MicroOp::Move | MicroOp::ZeroExtend => a,
        MicroOp::Add => low(size, a.wrapping_add(b)),
        MicroOp::Sub => low(size, a.wrapping_sub(b)),
        MicroOp::Mul => low(size, a.wrapping_mul(b)),
        MicroOp::And => a & b,
        MicroOp::Or => a | b,
        MicroOp::Xor => a ^ b,
        MicroOp::AndNot => a & (limit(size) - 1 - u128::from(b)) as u64,
        MicroOp::ShiftLeft if b < u64::from(bits) => low(size, a << b),
        MicroOp::ShiftRight if b < u64::from(bits) => a >> b,
        MicroOp::ShiftLeft | MicroOp::ShiftRight => 0,
        MicroOp::ShiftSigned if b < u64::from(bits) => shift_signed(size, a, b),
        MicroOp::ShiftSigned => sign(size, a),
        MicroOp::SignExtend => sign_extend(a, bits),
        MicroOp::Equal => u64::from(a == b),
        MicroOp::Less => u64::from(signed(size, a) < signed(size, b)),
        MicroOp::LessUnsigned => u64::from(a < b),
        MicroOp::SelectNonzero => { if a == 0 { low(size, held) } else { b } }
        MicroOp::MulHigh => (u128::from(a) * u128::from(b) / limit(size)) as u64,
    }
}
