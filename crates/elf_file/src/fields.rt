// Numbers and parts at places of a file.
ghost use Rattle.std.specs.Prelude.{◌≡◌, ◌≤◌, ◌+◌, length};
ghost use Rattle.elf_file.specs.Fields.{half_at, part_at, is_cut, has_flag};

use byteorder::{ByteOrder, LittleEndian};

/// The number in the two bytes at a place.
pub fn half_at(bytes: &[u8], at: usize) -> u16
    requires { at + 2 ≤ length bytes.now }
    ensures { result ≡ half_at at bytes.now }
{
    LittleEndian::read_u16(&bytes[at..])
}

/// Whether not all of so many bytes from a place on are there.
pub fn is_cut(bytes: &[u8], at: usize, size: usize) -> bool
    ensures { result ≡ is_cut at size bytes.now }
{
    bytes.len().saturating_sub(at) < size
}

/// So many bytes from a place on, or as many of them as there are.
pub fn part_at(bytes: &[u8], at: usize, size: usize) -> &[u8]
    ensures { result.now ≡ part_at at size bytes.now }
{
    let behind = &bytes[at.min(bytes.len())..];
    &behind[..size.min(behind.len())]
}

/// Whether a flag, which is a power of two, is among the flags.
pub fn has_flag(flags: u32, flag: u32) -> bool
    requires { 1 ≤ flag }
    ensures { result ≡ has_flag flag flags }
{
    flags / flag % 2 == 1
}
