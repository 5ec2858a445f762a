// Hexadecimal numbers.
ghost use Rattle.std.specs.Prelude.{◌≡◌, ◌<◌, IfSome};
ghost use Rattle.vximage_words.specs.Numbers.{digit_of, hexadecimal};

const MOST_DIGITS: usize = 8;

fn digit_of(byte: u8) -> Option<u32>
    ensures value { result ≡ digit_of byte }
    ensures bound { IfSome result (λ digit. digit < 16) }
{
    char::from(byte).to_digit(16)
}

/// The number that at most eight hexadecimal digits write.
pub fn hexadecimal(text: &[u8]) -> Option<u32>
    ensures { result ≡ hexadecimal text.now }
{
    if text.is_empty() || text.len() > MOST_DIGITS {
        return None;
    }
    let mut value = 0;
    for byte in text {
        value = 16 * value + digit_of(*byte)?;
    }
    Some(value)
}
