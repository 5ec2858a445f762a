// Rules by which a condition code is told from operands.
ghost use Rattle.std.specs.Prelude.{◌≡◌, ◌<◌, ◌≤◌, ◌≤ℤ◌, ◌^◌, pos, neg_ℤ, ◌+ℤ◌, ◌-ℤ◌, not};
ghost use Rattle.vt_words.specs.Values.{modulus, signed_value, fits};
ghost use Rattle.vt_words.specs.Arithmetic.{coded_value};
ghost use Rattle.vax_form.specs.Size.{bytes_of};
ghost use Rattle.exception_records.specs.Codes.{low, codes_of, sum_codes, difference_codes, comparison_codes, codes_by, is_ready};

use vax_form::{Flags, Size};

/// Where a condition code is found: ready in its own register, or by what gave it, from the operands of that.
#[derive(Clone, Copy, Debug, PartialEq, Eq)]
pub enum CodeRule {
    /// In its register, R16 to R19, as 0 or 1.
    Ready,
    /// It is 0.
    Zero,
    /// N and Z are by the first operand; V and C are 0.
    Result { size: Size },
    /// The first operand plus the second.
    Add { size: Size },
    /// The first operand minus the second.
    Sub { size: Size },
    /// The first operand compared with the second; V is 0.
    Compare { size: Size },
}

/// The rule of each condition code.
#[derive(Clone, Copy, Debug, PartialEq, Eq)]
pub struct Rules {
    pub n: CodeRule,
    pub z: CodeRule,
    pub v: CodeRule,
    pub c: CodeRule,
}

impl Rules {
    /// Each code is ready in its register.
    pub const READY: Rules = Rules {
        n: CodeRule::Ready,
        z: CodeRule::Ready,
        v: CodeRule::Ready,
        c: CodeRule::Ready,
    };
}

// The least number that doesn't fit the size.
fn limit(size: Size) -> u128
    ensures value { result ≡ modulus (bytes_of size) }
    ensures some { 2 ≤ result }
    ensures most { result ≤ 2 ^ 64 }
{
    match size {
        Size::Byte => 1 << 8,
        Size::Word => 1 << 16,
        Size::Long => 1 << 32,
        Size::Quad => 1 << 64,
    }
}

// The low bytes of a register.
fn low(size: Size, value: u64) -> u128
    ensures value { result ≡ low size value }
    ensures fits { result < modulus (bytes_of size) }
    ensures small { result < 2 ^ 64 }
{
    u128::from(value) % limit(size)
}

// The value as a signed number.
fn signed(size: Size, value: u128) -> i128
    requires { value < modulus (bytes_of size) }
    ensures value { result ≡ signed_value (bytes_of size) value }
    ensures least { neg_ℤ (pos (2 ^ 63)) ≤ℤ result }
    ensures most { result ≤ℤ pos (2 ^ 63) }
{
    if value < limit(size) / 2 {
        value as i128
    } else {
        value as i128 - limit(size) as i128
    }
}

fn signed_sum(size: Size, first: u128, second: u128) -> i128
    requires first { first < modulus (bytes_of size) }
    requires second { second < modulus (bytes_of size) }
    ensures { result ≡ signed_value (bytes_of size) first +ℤ signed_value (bytes_of size) second }
{
    signed(size, first) + signed(size, second)
}

fn signed_difference(size: Size, first: u128, second: u128) -> i128
    requires first { first < modulus (bytes_of size) }
    requires second { second < modulus (bytes_of size) }
    ensures { result ≡ signed_value (bytes_of size) first -ℤ signed_value (bytes_of size) second }
{
    signed(size, first) - signed(size, second)
}

// N and Z by a value.
fn with_signs(size: Size, value: u128, v: bool, c: bool) -> Flags
    ensures { result ≡ codes_of (coded_value (bytes_of size) value v c) }
{
    Flags {
        n: value >= limit(size) / 2,
        z: value == 0,
        v,
        c,
    }
}

// Whether a signed number doesn't fit the size.
fn overflows(size: Size, number: i128) -> bool
    ensures { result ≡ not (fits (bytes_of size) number) }
{
    let half = limit(size) as i128 / 2;
    number < -half || half <= number
}

fn sum_overflows(size: Size, first: u128, second: u128) -> bool
    requires first { first < modulus (bytes_of size) }
    requires second { second < modulus (bytes_of size) }
    ensures { result ≡ not (fits (bytes_of size) (signed_value (bytes_of size) first +ℤ signed_value (bytes_of size) second)) }
{
    overflows(size, signed_sum(size, first, second))
}

fn difference_overflows(size: Size, first: u128, second: u128) -> bool
    requires first { first < modulus (bytes_of size) }
    requires second { second < modulus (bytes_of size) }
    ensures { result ≡ not (fits (bytes_of size) (signed_value (bytes_of size) first -ℤ signed_value (bytes_of size) second)) }
{
    overflows(size, signed_difference(size, first, second))
}

fn sum_codes(size: Size, first: u128, second: u128) -> Flags
    requires first { first < modulus (bytes_of size) }
    requires second { second < modulus (bytes_of size) }
    ensures { result ≡ sum_codes size first second }
{
    let sum = first + second;
    let v = sum_overflows(size, first, second);
    with_signs(size, sum % limit(size), v, sum >= limit(size))
}

fn difference_codes(size: Size, first: u128, second: u128) -> Flags
    requires first { first < modulus (bytes_of size) }
    requires second { second < modulus (bytes_of size) }
    ensures { result ≡ difference_codes size first second }
{
    let difference = (first + limit(size) - second) % limit(size);
    let v = difference_overflows(size, first, second);
    with_signs(size, difference, v, first < second)
}

fn comparison_codes(size: Size, first: u128, second: u128) -> Flags
    requires first { first < modulus (bytes_of size) }
    requires second { second < modulus (bytes_of size) }
    ensures { result ≡ comparison_codes size first second }
{
    Flags {
        n: signed(size, first) < signed(size, second),
        z: first == second,
        v: false,
        c: first < second,
    }
}

impl CodeRule {
    /// The codes for what the registers of the operands hold. A code that is ready has no operands.
    pub fn codes(self, first: u64, second: u64) -> Flags
        ensures { result ≡ codes_by self first second }
    {
        match self {
            CodeRule::Ready | CodeRule::Zero => Flags::NONE,
            CodeRule::Result { size } => with_signs(size, low(size, first), false, false),
            CodeRule::Add { size } => sum_codes(size, low(size, first), low(size, second)),
            CodeRule::Sub { size } => difference_codes(size, low(size, first), low(size, second)),
            CodeRule::Compare { size } => comparison_codes(
                size,
                low(size, first),
                low(size, second),
            ),
        }
    }

    /// Whether the code is in its own register.
    pub fn is_ready(self) -> bool
        ensures { result ≡ is_ready self }
    {
        matches!(self, CodeRule::Ready)
    }
}
