// Numbers of a few bytes as signed numbers.
ghost use Rattle.std.specs.Prelude.{◌≡◌, ◌*◌, ◌^◌, ◌<◌, ◌≤◌, neg_ℤ, pos, unsigned_abs};
ghost use Rattle.vt_words.specs.Values.{IsSize, modulus, signed_value, fits, value_of};

/// The least number that does not fit so many bytes.
pub fn limit(bytes: u32) -> u64
    requires { IsSize bytes }
    ensures { result ≡ modulus bytes }
{
    1 << (8 * bytes)
}

/// The two's complement number that the bytes of a value spell.
pub fn signed(bytes: u32, value: u64) -> i64
    requires size { IsSize bytes }
    requires value_fits { value < modulus bytes }
    ensures value { result ≡ signed_value bytes value }
    ensures bound { unsigned_abs result ≤ 2 ^ 31 }
{
    let limit = limit(bytes);
    if value < limit / 2 {
        value as i64
    } else {
        value as i64 - limit as i64
    }
}

/// The low bytes of a number, in two's complement.
pub fn wrapped(bytes: u32, number: i64) -> u64
    requires { IsSize bytes }
    ensures { result ≡ value_of bytes number }
{
    number.rem_euclid(limit(bytes) as i64) as u64
}

/// Whether a number is a two's complement number of so many bytes.
pub fn is_in_range(bytes: u32, number: i64) -> bool
    requires { IsSize bytes }
    ensures { result ≡ fits bytes number }
{
    let half = (limit(bytes) / 2) as i64;
    -half <= number && number < half
}
