// Little-endian numbers at places of a file.
ghost use Rattle.std.specs.Prelude.{◌≡◌, ◌≤◌, ◌+◌, length, drop};
ghost use Rattle.image_file.specs.Reading.{half, word};

use byteorder::{ByteOrder, LittleEndian};

/// The number in the two bytes at a place.
pub fn half_at(bytes: &[u8], at: usize) -> u16
    requires { at + 2 ≤ length bytes.now }
    ensures { result ≡ half (drop at bytes.now) }
{
    LittleEndian::read_u16(&bytes[at..])
}

/// The number in the four bytes at a place.
pub fn word_at(bytes: &[u8], at: usize) -> u32
    requires { at + 4 ≤ length bytes.now }
    ensures { result ≡ word (drop at bytes.now) }
{
    LittleEndian::read_u32(&bytes[at..])
}
