// Numbers in a list of bytes.
ghost use Rattle.std.specs.Prelude.{◌≡◌, ◌+◌, ◌*◌, ◌^◌, ◌<◌, ◌≤◌, length, IfSome};
ghost use Rattle.vax_form.specs.Size.{bytes_of};
ghost use Rattle.vax_form.specs.Grammar.{extended, wrapped};
ghost use Rattle.vax_form.specs.GrammarReading.{read_number};
ghost use Rattle.vax_form.specs.declared.instr.Size.TheVariants.{Byte, Word, Long, Quad};

use vax_form::Size;

/// The number of that size at the front of the bytes, the lowest byte first.
pub(crate) fn number_in(bytes: &[u8], size: Size) -> Option<u64>
    ensures number { result ≡ read_number size bytes.now }
    ensures fits { IfSome result (λ value. value < 2 ^ (8 * bytes_of size)) }
    ensures within { IfSome result (λ value. bytes_of size ≤ length bytes.now) }
{
    match size {
        Size::Byte => byte_in(bytes),
        Size::Word => word_in(bytes),
        Size::Long => long_in(bytes),
        Size::Quad => quad_in(bytes),
    }
}

fn byte_in(bytes: &[u8]) -> Option<u64>
    ensures number { result ≡ read_number Byte bytes.now }
    ensures fits { IfSome result (λ value. value < 2 ^ 8) }
    ensures within { IfSome result (λ value. 1 ≤ length bytes.now) }
{
    match bytes {
        [a, ..] => Some(u64::from(*a)),
        _ => None,
    }
}

fn word_in(bytes: &[u8]) -> Option<u64>
    ensures number { result ≡ read_number Word bytes.now }
    ensures fits { IfSome result (λ value. value < 2 ^ 16) }
    ensures within { IfSome result (λ value. 2 ≤ length bytes.now) }
{
    match bytes {
        [a, b, ..] => Some(u64::from(u16::from_le_bytes([*a, *b]))),
        _ => None,
    }
}

fn long_in(bytes: &[u8]) -> Option<u64>
    ensures number { result ≡ read_number Long bytes.now }
    ensures fits { IfSome result (λ value. value < 2 ^ 32) }
    ensures within { IfSome result (λ value. 4 ≤ length bytes.now) }
{
    match bytes {
        [a, b, c, d, ..] => Some(u64::from(u32::from_le_bytes([*a, *b, *c, *d]))),
        _ => None,
    }
}

fn quad_in(bytes: &[u8]) -> Option<u64>
    ensures number { result ≡ read_number Quad bytes.now }
    ensures fits { IfSome result (λ value. value < 2 ^ 64) }
    ensures within { IfSome result (λ value. 8 ≤ length bytes.now) }
{
    match bytes {
        [a, b, c, d, e, f, g, h, ..] => {
            Some(u64::from_le_bytes([*a, *b, *c, *d, *e, *f, *g, *h]))
        }
        _ => None,
    }
}

/// A displacement of that size, sign-extended to a longword.
pub(crate) fn extend(size: Size, value: u64) -> u32
    requires { value < 2 ^ (8 * bytes_of size) }
    ensures { result ≡ extended size value }
{
    match size {
        Size::Byte if value < 0x80 => value as u32,
        Size::Byte => value as u32 + 0xFFFF_FF00,
        Size::Word if value < 0x8000 => value as u32,
        Size::Word => value as u32 + 0xFFFF_0000,
        Size::Long => value as u32,
        Size::Quad => (value % 0x1_0000_0000) as u32,
    }
}

/// The VAX address of a place in bytes that begin at `origin`.
pub(crate) fn address_at(origin: u32, place: usize) -> u32
    ensures { result ≡ wrapped (origin + place) }
{
    origin.wrapping_add((place % 0x1_0000_0000) as u32)
}
