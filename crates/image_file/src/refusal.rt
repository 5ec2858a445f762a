// Why a file is no image.
ghost use Rattle.std.specs.Prelude.{◌≡◌};
ghost use Rattle.image_file.specs.declared.refusal.ImageRefusal.TheVariants.{WantOfMemory};

use arrayvec::ArrayVec;
use std::alloc::{AllocError, AllocFailed};

/// A refusal's number, and then what it tells of the file.
pub type Numbers = ArrayVec<u64, 3>;

/// Why bytes are no image: the first reason in the order of the checks.
#[derive(Clone, Copy, Debug, PartialEq, Eq)]
pub enum ImageRefusal {
    /// The file ends inside its header, its tables or its stored bytes; `at` is its length.
    Truncated { at: u64 },
    BadMagic,
    BadVersion { found: u16 },
    NoThread,
    TooManyThreads { count: u16 },
    TooManySections { count: u16 },
    /// The first section whose start isn't at a page, whose size is 0 or less than what it stores, that ends above
    /// address 80000000, or whose flags are above 1.
    BadSection { place: u16 },
    /// The first two sections that share a page.
    Overlap { low: u16, high: u16 },
    /// The bytes of all sections, each with the rest of its last page, are too many.
    TooLarge { total: u64 },
    /// The first entry that is in no read-only page.
    BadEntry { place: u16 },
    /// A byte stands behind the stored bytes.
    Trailing { at: u64 },
    TooManyEntries { count: u16 },
    WantOfMemory,
}

impl ImageRefusal {
    ghost use Rattle.std.specs.Prelude.{◌++◌};
    ghost use Rattle.image_file.specs.Refusal.{number_of, numbers_of};

    /// The refusal's number, which want of memory lacks.
    pub fn number(self) -> Option<u8>
        ensures { result ≡ number_of self }
    {
        match self {
            ImageRefusal::Truncated { .. } => Some(1),
            ImageRefusal::BadMagic => Some(2),
            ImageRefusal::BadVersion { .. } => Some(3),
            ImageRefusal::NoThread => Some(4),
            ImageRefusal::TooManyThreads { .. } => Some(5),
            ImageRefusal::TooManySections { .. } => Some(6),
            ImageRefusal::BadSection { .. } => Some(7),
            ImageRefusal::Overlap { .. } => Some(8),
            ImageRefusal::TooLarge { .. } => Some(9),
            ImageRefusal::BadEntry { .. } => Some(10),
            ImageRefusal::Trailing { .. } => Some(11),
            ImageRefusal::TooManyEntries { .. } => Some(12),
            ImageRefusal::WantOfMemory => None,
        }
    }

    /// The refusal's number, and then what it tells of the file.
    pub fn numbers(self) -> Numbers
        ensures { result.items ≡ numbers_of self }
    {
        let mut numbers = Numbers::new();
        if let Some(number) = self.number() {
            numbers.push(u64::from(number));
        }
        match self {
            ImageRefusal::Truncated { at } | ImageRefusal::Trailing { at } => numbers.push(at),
            ImageRefusal::BadVersion { found } => numbers.push(u64::from(found)),
            ImageRefusal::TooManyThreads { count }
            | ImageRefusal::TooManySections { count }
            | ImageRefusal::TooManyEntries { count } => numbers.push(u64::from(count)),
            ImageRefusal::BadSection { place } | ImageRefusal::BadEntry { place } => {
                numbers.push(u64::from(place))
            }
            ImageRefusal::Overlap { low, high } => {
                numbers.push(u64::from(low));
                numbers.push(u64::from(high));
            }
            ImageRefusal::TooLarge { total } => numbers.push(total),
            ImageRefusal::BadMagic | ImageRefusal::NoThread | ImageRefusal::WantOfMemory => {}
        }
        numbers
    }
}

impl From<AllocError> for ImageRefusal {
    ghost from_gives = { λ _ e. e ≡ WantOfMemory };

    fn from(_e: AllocError) -> ImageRefusal {
        ImageRefusal::WantOfMemory
    }
}

impl<T: Drop> From<AllocFailed<T>> for ImageRefusal {
    ghost from_gives = { λ _ e. e ≡ WantOfMemory };

    fn from(_e: AllocFailed<T>) -> ImageRefusal {
        ImageRefusal::WantOfMemory
    }
}
