//! The numbers of the format, and the limits of each version.
ghost use Rattle.std.specs.Prelude.{◌≡◌, ◌≤◌};
ghost use Rattle.image_file.specs.Limits.{is_version, most_threads, most_bytes, start_width};
ghost use Rattle.image_file.specs.Limits as stated;

/// The most sections of an image.
pub const MOST_SECTIONS: u16 = 64;
/// The most entries of an image.
pub const MOST_ENTRIES: u16 = 4096;
/// Sections end at this address or below it.
pub const ADDRESS_END: u64 = 0x8000_0000;

/// The bytes `VXIM`, the lowest first.
pub const MAGIC: u32 = 0x4d49_5856;

/// In version 2 each thread has its first registers, and there may be more threads and bytes.
pub const VERSION_1: u16 = 1;

pub const VERSION_2: u16 = 2;
/// The bytes of the header.
pub const HEADER: usize = 12;
/// How many first registers a thread has: R0 to R13.
pub const FIRST_REGISTERS: usize = 14;
/// Where a thread's first registers stand in its bytes.
pub const FIRST_AT: usize = 8;
/// The bytes of a register.
pub const REGISTER_BYTES: usize = 4;
/// The bytes of a row of the section table and of an entry.
pub const ROW_BYTES: usize = 16;

pub const ENTRY_BYTES: usize = 4;

const THREADS_1: u16 = 16;

const THREADS_2: u16 = 32;

const BYTES_1: u64 = 1_048_576;

const BYTES_2: u64 = 4_194_304;

const START_BYTES_2: usize = FIRST_AT + REGISTER_BYTES * FIRST_REGISTERS;

/// Whether the format has a version of that number.
pub fn is_version(number: u16) -> bool
    ensures { result ≡ is_version number }
{
    number == VERSION_1 || number == VERSION_2
}

/// The most threads of an image of that version.
pub fn most_threads(version: u16) -> u16
    ensures { result ≡ most_threads version }
{
    if version == VERSION_1 {
        THREADS_1
    } else {
        THREADS_2
    }
}

/// The most bytes of all sections of an image of that version, each with the rest of its last page.
pub fn most_bytes(version: u16) -> u64
    ensures { result ≡ most_bytes version }
{
    if version == VERSION_1 {
        BYTES_1
    } else {
        BYTES_2
    }
}

/// The bytes of a thread in a file of that version.
pub fn start_width(version: u16) -> usize
    ensures value { result ≡ start_width version }
    ensures bound { result ≤ 64 }
{
    if version == VERSION_1 {
        FIRST_AT
    } else {
        START_BYTES_2
    }
}

/// The numbers and the limits are those that the definitions state in figures.
pub fn limits_are_as_stated()
    ensures magic { MAGIC ≡ stated.MAGIC }
    ensures header { HEADER ≡ stated.HEADER }
    ensures first_registers { FIRST_REGISTERS ≡ stated.FIRST_REGISTERS }
    ensures first_at { FIRST_AT ≡ stated.FIRST_AT }
    ensures register_bytes { REGISTER_BYTES ≡ stated.REGISTER_BYTES }
    ensures row_bytes { ROW_BYTES ≡ stated.ROW_BYTES }
    ensures entry_bytes { ENTRY_BYTES ≡ stated.ENTRY_BYTES }
    ensures most_sections { MOST_SECTIONS ≡ stated.MOST_SECTIONS }
    ensures most_entries { MOST_ENTRIES ≡ stated.MOST_ENTRIES }
    ensures address_end { ADDRESS_END ≡ stated.ADDRESS_END }
    ensures version_1 { VERSION_1 ≡ 1 }
    ensures version_2 { VERSION_2 ≡ 2 }
{}
