//! Why an order file is refused.
ghost use Rattle.std.specs.Prelude.{◌≡◌};
ghost use Rattle.run_files.specs.declared.refusal.OrderRefusal.TheVariants.{WantOfMemory};

use arrayvec::ArrayVec;
use std::alloc::{AllocError, AllocFailed};

/// A refusal's number, and then what it tells of the file.
pub type Numbers = ArrayVec<u64, 4>;

/// Why bytes are no order file of an image's threads: the first reason in the order of the checks.
#[derive(Clone, Copy, Debug, PartialEq, Eq)]
pub enum OrderRefusal {
    /// The file ends inside its header, or before the length that its header tells; `at` is its length.
    Truncated { at: u64 },
    BadMagic,
    BadVersion { found: u32 },
    /// The number of threads isn't the image's.
    WrongThreads { found: u32 },
    TooManyPicks { count: u32 },
    LongInput { length: u32 },
    /// A byte stands behind the length that the header tells, at that place of the file.
    Trailing { at: u64 },
    /// The first thread whose flag is neither 0 nor 1.
    BadFlag { thread: u8 },
    /// The first thread whose count is above 1,000,000,000,000.
    LargeCount { thread: u8 },
    /// The first pick whose thread isn't in the image.
    BadThread { place: u32 },
    WantOfMemory,
}

impl OrderRefusal {
    ghost use Rattle.run_files.specs.Refusal.{number_of, numbers_of};

    /// The refusal's number, which want of memory lacks.
    pub fn number(self) -> Option<u8>
        ensures { result ≡ number_of self }
    {
        match self {
            OrderRefusal::Truncated { .. } => Some(1),
            OrderRefusal::BadMagic => Some(2),
            OrderRefusal::BadVersion { .. } => Some(3),
            OrderRefusal::WrongThreads { .. } => Some(4),
            OrderRefusal::TooManyPicks { .. } => Some(5),
            OrderRefusal::LongInput { .. } => Some(6),
            OrderRefusal::Trailing { .. } => Some(7),
            OrderRefusal::BadFlag { .. } => Some(8),
            OrderRefusal::LargeCount { .. } => Some(9),
            OrderRefusal::BadThread { .. } => Some(10),
            OrderRefusal::WantOfMemory => None,
        }
    }

    /// The refusal's number, and then what it tells of the file.
    pub fn numbers(self) -> Numbers
        ensures { result.items ≡ numbers_of self }
    {
        let mut numbers = Numbers::new();
        if let Some(number) = self.number() {
            numbers.push(u64::from(number));
        }
        match self {
            OrderRefusal::Truncated { at: told } | OrderRefusal::Trailing { at: told } => {
                numbers.push(told)
            }
            OrderRefusal::BadVersion { found: told }
            | OrderRefusal::WrongThreads { found: told }
            | OrderRefusal::TooManyPicks { count: told }
            | OrderRefusal::LongInput { length: told }
            | OrderRefusal::BadThread { place: told } => numbers.push(u64::from(told)),
            OrderRefusal::BadFlag { thread } | OrderRefusal::LargeCount { thread } => {
                numbers.push(u64::from(thread))
            }
            OrderRefusal::BadMagic | OrderRefusal::WantOfMemory => {}
        }
        numbers
    }
}

impl From<AllocError> for OrderRefusal {
    ghost from_gives = { λ _ e. e ≡ WantOfMemory };

    fn from(_e: AllocError) -> OrderRefusal {
        OrderRefusal::WantOfMemory
    }
}

impl<T: Drop> From<AllocFailed<T>> for OrderRefusal {
    ghost from_gives = { λ _ e. e ≡ WantOfMemory };

    fn from(_e: AllocFailed<T>) -> OrderRefusal {
        OrderRefusal::WantOfMemory
    }
}
