//! Why a hint file is refused.
ghost use Rattle.std.specs.Prelude.{◌≡◌};
ghost use Rattle.run_files.specs.declared.hint_refusal.HintRefusal.TheVariants.{WantOfMemory};

use crate::refusal::Numbers;
use std::alloc::AllocError;

/// Why bytes are no hint file: the first reason in the order of the checks.
#[derive(Clone, Copy, Debug, PartialEq, Eq)]
pub enum HintRefusal {
    /// The file ends inside its header, or before the addresses that its header tells; `at` is its length.
    Truncated { at: u64 },
    BadMagic,
    BadVersion { found: u32 },
    TooMany { count: u32 },
    /// The address at that place isn't above its predecessor.
    BadHint { place: u32 },
    /// A byte stands behind the addresses, at that place of the file.
    Trailing { at: u64 },
    WantOfMemory,
}

impl HintRefusal {
    ghost use Rattle.run_files.specs.Hints.{hint_number_of, hint_numbers_of};

    /// The refusal's number, which want of memory lacks.
    pub fn number(self) -> Option<u8>
        ensures { result ≡ hint_number_of self }
    {
        match self {
            HintRefusal::Truncated { .. } => Some(1),
            HintRefusal::BadMagic => Some(2),
            HintRefusal::BadVersion { .. } => Some(3),
            HintRefusal::TooMany { .. } => Some(4),
            HintRefusal::BadHint { .. } => Some(5),
            HintRefusal::Trailing { .. } => Some(6),
            HintRefusal::WantOfMemory => None,
        }
    }

    /// The refusal's number, and then what it tells of the file.
    pub fn numbers(self) -> Numbers
        ensures { result.items ≡ hint_numbers_of self }
    {
        let mut numbers = Numbers::new();
        if let Some(number) = self.number() {
            numbers.push(u64::from(number));
        }
        match self {
            HintRefusal::Truncated { at: told } | HintRefusal::Trailing { at: told } => {
                numbers.push(told)
            }
            HintRefusal::BadVersion { found: told }
            | HintRefusal::TooMany { count: told }
            | HintRefusal::BadHint { place: told } => numbers.push(u64::from(told)),
            HintRefusal::BadMagic | HintRefusal::WantOfMemory => {}
        }
        numbers
    }
}

impl From<AllocError> for HintRefusal {
    ghost from_gives = { λ _ e. e ≡ WantOfMemory };

    fn from(_e: AllocError) -> HintRefusal {
        HintRefusal::WantOfMemory
    }
}
