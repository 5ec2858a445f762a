//! The numbers of the formats, and their limits.
ghost use Rattle.std.specs.Prelude.{◌≡◌};
ghost use Rattle.run_files.specs.Limits as stated;

/// The most threads of a file.
pub const MOST_THREADS: usize = 255;
/// The most bytes of input of a file.
pub const MOST_INPUT: usize = 65_536;
/// The most picks of a file.
pub const MOST_PICKS: usize = 4_194_304;
/// The most instructions that a thread's count can have.
pub const MOST_COUNT: u64 = 1_000_000_000_000;

/// The bytes `VXOR`, the lowest first.
pub const MAGIC: u32 = 0x524f_5856;
/// The bytes `VXHT`, the lowest first.
pub const HINT_MAGIC: u32 = 0x5448_5856;
/// The version of either format that is written, and the only one.
pub const VERSION: u32 = 1;
/// The bytes of an order file's header.
pub const HEADER: usize = 20;
/// The bytes of a hint file's header.
pub const HINT_HEADER: usize = 12;
/// The bytes of an address.
pub const HINT_BYTES: usize = 4;
/// The bytes of a thread's count and flag.
pub const THREAD_BYTES: usize = 9;
/// The bytes of a pick.
pub const PICK_BYTES: usize = 9;

/// The numbers and the limits are those that the definitions state in figures.
pub fn limits_are_as_stated()
    ensures magic { MAGIC ≡ stated.MAGIC }
    ensures hint_magic { HINT_MAGIC ≡ stated.HINT_MAGIC }
    ensures version { VERSION ≡ stated.VERSION }
    ensures header { HEADER ≡ stated.HEADER }
    ensures hint_header { HINT_HEADER ≡ stated.HINT_HEADER }
    ensures hint_bytes { HINT_BYTES ≡ stated.HINT_BYTES }
    ensures thread_bytes { THREAD_BYTES ≡ stated.THREAD_BYTES }
    ensures pick_bytes { PICK_BYTES ≡ stated.PICK_BYTES }
    ensures most_threads { MOST_THREADS ≡ stated.MOST_THREADS }
    ensures most_input { MOST_INPUT ≡ stated.MOST_INPUT }
    ensures most_picks { MOST_PICKS ≡ stated.MOST_PICKS }
    ensures most_count { MOST_COUNT ≡ stated.MOST_COUNT }
{}
