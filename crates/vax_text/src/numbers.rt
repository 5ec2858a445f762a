// Numbers in bytes, and as text.
ghost use Rattle.std.specs.Prelude.{◌≡◌, ◌+◌, ◌*◌, ◌^◌, ◌<◌, ◌≤◌, ◌++◌, drop, length, take};
ghost use Rattle.vax_form.specs.Size.{bytes_of};
ghost use Rattle.vax_form.specs.Grammar.{extended, number};
ghost use Rattle.array_text.specs.Hexadecimal.{hexadecimal};
ghost use Rattle.vax_text.specs.Operands.{signed_text};

use array_text::{Line, ROOM, push_hexadecimal};
use vax_form::Size;

/// The bytes behind the first so many.
pub(crate) fn behind(bytes: &[u8], count: usize) -> &[u8]
    ensures { result.now ≡ drop count bytes.now }
{
    if count <= bytes.len() {
        &bytes[count..]
    } else {
        &[]
    }
}

/// The number of at most so many bytes at the front, the lowest first.
fn number_in(bytes: &[u8], count: usize) -> u64
    requires { count ≤ 8 }
    ensures number { result ≡ number (take count bytes.now) }
    ensures fits { result < 256 ^ count }
{
    if count == 0 {
        return 0;
    }
    match bytes {
        [low, rest @ ..] => u64::from(*low) + 256 * number_in(rest, count - 1),
        [] => 0,
    }
}

/// The number of that size at the front of the bytes.
pub(crate) fn sized_number(bytes: &[u8], size: Size) -> u64
    ensures number { result ≡ number (take (bytes_of size) bytes.now) }
    ensures fits { result < 256 ^ bytes_of size }
{
    number_in(bytes, size.bytes() as usize)
}

/// A displacement of that size, sign-extended to a longword.
pub(crate) fn extend(size: Size, value: u64) -> u32
    requires { value < 256 ^ bytes_of size }
    ensures { result ≡ extended size value }
{
    match size {
        Size::Byte if value < 0x80 => value as u32,
        Size::Byte => value as u32 + 0xFFFF_FF00,
        Size::Word if value < 0x8000 => value as u32,
        Size::Word => value as u32 + 0xFFFF_0000,
        Size::Long => value as u32,
        Size::Quad => (value % 0x1_0000_0000) as u32,
    }
}

/// Appends a quadword.
#[tactic(auto, using(array_text::proofs::Hexadecimal::quadword_places))]
pub(crate) fn push_quadword(line: &mut Line, value: u64)
    requires { length line.old.items + 16 ≤ ROOM }
    ensures text { line.new.items ≡ line.old.items ++ hexadecimal value }
    ensures room { length line.new.items ≤ length line.old.items + 16 }
{
    push_hexadecimal(line, value);
}

/// Appends a longword.
#[tactic(auto, using(array_text::proofs::Hexadecimal::longword_places))]
pub(crate) fn push_longword(line: &mut Line, value: u32)
    requires { length line.old.items + 8 ≤ ROOM }
    ensures text { line.new.items ≡ line.old.items ++ hexadecimal value }
    ensures room { length line.new.items ≤ length line.old.items + 8 }
{
    push_hexadecimal(line, u64::from(value));
}

/// Appends a longword with its sign.
pub(crate) fn push_signed(line: &mut Line, value: u32)
    requires { length line.old.items + 9 ≤ ROOM }
    ensures text { line.new.items ≡ line.old.items ++ signed_text value }
    ensures room { length line.new.items ≤ length line.old.items + 9 }
{
    if value < 0x8000_0000 {
        push_longword(line, value);
    } else {
        line.push(b'-');
        push_longword(line, value.wrapping_neg());
    }
}
