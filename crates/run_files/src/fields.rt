//! Numbers of eight bytes, and parts, at places of a file.
ghost use Rattle.std.specs.Prelude.{◌≡◌, ◌≤◌, ◌+◌, length, drop};
ghost use Rattle.run_files.specs.Reading.{quad};

use byteorder::{ByteOrder, LittleEndian};

/// The number in the eight bytes at a place.
pub fn quad_at(bytes: &[u8], at: usize) -> u64
    requires { at + 8 ≤ length bytes.now }
    ensures { result ≡ quad (drop at bytes.now) }
{
    LittleEndian::read_u64(&bytes[at..])
}

/// The bytes from a place on.
pub fn behind(bytes: &[u8], at: usize) -> &[u8]
    requires { at ≤ length bytes.now }
    ensures { result.now ≡ drop at bytes.now }
{
    &bytes[at..]
}
