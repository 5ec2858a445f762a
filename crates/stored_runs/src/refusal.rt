//! Why an order can't be replayed.
ghost use Rattle.std.specs.Prelude.{◌≡◌};
ghost use Rattle.stored_runs.specs.declared.refusal.ReplayRefusal.TheVariants.{WantOfMemory};

use run_files::Numbers;
use std::alloc::{AllocError, AllocFailed};

/// Why an order that its file may hold gives nothing of an image.
#[derive(Clone, Copy, Debug, PartialEq, Eq)]
pub enum ReplayRefusal {
    /// A pick's thread wants no reference then, or a thread doesn't come to its count.
    NotDriven,
    /// The first thread that ends otherwise than is stored: it is not spent, and neither exited nor raised an exception; or it
    /// is spent, and exited.
    WrongEnd { thread: u8 },
    WantOfMemory,
}

impl ReplayRefusal {
    ghost use Rattle.stored_runs.specs.Refusal.{number_of, numbers_of};

    /// The refusal's number, which want of memory lacks.
    pub fn number(self) -> Option<u8>
        ensures { result ≡ number_of self }
    {
        match self {
            ReplayRefusal::NotDriven => Some(11),
            ReplayRefusal::WrongEnd { .. } => Some(12),
            ReplayRefusal::WantOfMemory => None,
        }
    }

    /// The refusal's number, and then what it tells of the order.
    pub fn numbers(self) -> Numbers
        ensures { result.items ≡ numbers_of self }
    {
        let mut numbers = Numbers::new();
        if let Some(number) = self.number() {
            numbers.push(u64::from(number));
        }
        if let ReplayRefusal::WrongEnd { thread } = self {
            numbers.push(u64::from(thread));
        }
        numbers
    }
}

impl From<AllocError> for ReplayRefusal {
    ghost from_gives = { λ _ e. e ≡ WantOfMemory };

    fn from(_e: AllocError) -> ReplayRefusal {
        ReplayRefusal::WantOfMemory
    }
}

impl<T: Drop> From<AllocFailed<T>> for ReplayRefusal {
    ghost from_gives = { λ _ e. e ≡ WantOfMemory };

    fn from(_e: AllocFailed<T>) -> ReplayRefusal {
        ReplayRefusal::WantOfMemory
    }
}
