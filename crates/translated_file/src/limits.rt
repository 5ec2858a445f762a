//! The numbers of the format, and its limits.
ghost use Rattle.std.specs.Prelude.{◌≡◌};
ghost use Rattle.translated_file.specs.Limits.{is_version};
ghost use Rattle.translated_file.specs.Limits as stated;

/// The version of a file with code for the first Alpha processors.
pub const VERSION_1: u32 = 1;
/// The version of a file with code for Alpha processors with the byte-word extension.
pub const VERSION_2: u32 = 2;
/// The most hints of a file.
pub const MOST_HINTS: u32 = 32_768;
/// The most Alpha words of a translation.
pub const MOST_WORDS: usize = 8_388_608;
/// The most pairs of a translation's map.
pub const MOST_PAIRS: usize = 32_768;

/// The bytes `VXTR`, the lowest first.
pub const MAGIC: u32 = 0x5254_5856;
/// The bytes of the header.
pub const HEADER: usize = 16;
/// The bytes of a hint and of a word of the tail.
pub const WORD_BYTES: usize = 4;
/// The words of a pair in the tail.
pub const PAIR_WORDS: usize = 2;

/// Whether the format has a version of that number.
pub fn is_version(number: u32) -> bool
    ensures { result ≡ is_version number }
{
    number == VERSION_1 || number == VERSION_2
}

/// The numbers and the limits are those that the definitions state in figures.
pub fn limits_are_as_stated()
    ensures magic { MAGIC ≡ stated.MAGIC }
    ensures version_1 { VERSION_1 ≡ stated.VERSION_1 }
    ensures version_2 { VERSION_2 ≡ stated.VERSION_2 }
    ensures header { HEADER ≡ stated.HEADER }
    ensures word_bytes { WORD_BYTES ≡ stated.WORD_BYTES }
    ensures most_hints { MOST_HINTS ≡ stated.MOST_HINTS }
    ensures most_words { MOST_WORDS ≡ stated.MOST_WORDS }
    ensures most_pairs { MOST_PAIRS ≡ stated.MOST_PAIRS }
{}
