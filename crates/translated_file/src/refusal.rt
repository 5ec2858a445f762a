//! Why a translated file is refused.
ghost use Rattle.std.specs.Prelude.{◌≡◌};
ghost use Rattle.translated_file.specs.declared.refusal.TranslatedRefusal.TheVariants.{WantOfMemory};

use arrayvec::ArrayVec;
use image_file::ImageRefusal;
use std::alloc::{AllocError, AllocFailed};

/// A refusal's number, and then what it tells of the file.
pub type Numbers = ArrayVec<u64, 4>;

/// Why bytes are no translated file, or hold another translation: the first reason in the order of the checks.
#[derive(Clone, Copy, Debug, PartialEq, Eq)]
pub enum TranslatedRefusal {
    /// The file ends inside its header, its image, its hints or its tail; `at` is its length.
    Truncated { at: u64 },
    BadMagic,
    BadVersion { found: u32 },
    /// The bytes of the image are refused.
    Inner(ImageRefusal),
    /// The first word of the tail that isn't the translation's; its place is counted in words from the tail's begin.
    NotTheTranslation { place: u64, found: u32, wanted: u32 },
    /// A byte stands behind the tail, at that place of the file.
    Trailing { at: u64 },
    /// The first hint that isn't above its predecessor, or that is one too many.
    BadHint { place: u32 },
    WantOfMemory,
}

impl TranslatedRefusal {
    ghost use Rattle.translated_file.specs.Refusal.{number_of, numbers_of};

    /// The refusal's number, which want of memory lacks.
    pub fn number(self) -> Option<u8>
        ensures { result ≡ number_of self }
    {
        match self {
            TranslatedRefusal::Truncated { .. } => Some(1),
            TranslatedRefusal::BadMagic => Some(2),
            TranslatedRefusal::BadVersion { .. } => Some(3),
            TranslatedRefusal::Inner(_) => Some(4),
            TranslatedRefusal::NotTheTranslation { .. } => Some(5),
            TranslatedRefusal::Trailing { .. } => Some(6),
            TranslatedRefusal::BadHint { .. } => Some(7),
            TranslatedRefusal::WantOfMemory => None,
        }
    }

    /// The refusal's number, and then what it tells of the file: of an image's refusal its number and what that tells.
    pub fn numbers(self) -> Numbers
        ensures { result.items ≡ numbers_of self }
    {
        let mut numbers = Numbers::new();
        if let Some(number) = self.number() {
            numbers.push(u64::from(number));
        }
        match self {
            TranslatedRefusal::Truncated { at } | TranslatedRefusal::Trailing { at } => {
                numbers.push(at)
            }
            TranslatedRefusal::BadVersion { found } => numbers.push(u64::from(found)),
            TranslatedRefusal::Inner(refusal) => {
                for number in refusal.numbers().as_slice() {
                    numbers.push(*number);
                }
            }
            TranslatedRefusal::NotTheTranslation {
                place,
                found,
                wanted,
            } => {
                numbers.push(place);
                numbers.push(u64::from(found));
                numbers.push(u64::from(wanted));
            }
            TranslatedRefusal::BadHint { place } => numbers.push(u64::from(place)),
            TranslatedRefusal::BadMagic | TranslatedRefusal::WantOfMemory => {}
        }
        numbers
    }
}

impl From<AllocError> for TranslatedRefusal {
    ghost from_gives = { λ _ e. e ≡ WantOfMemory };

    fn from(_e: AllocError) -> TranslatedRefusal {
        TranslatedRefusal::WantOfMemory
    }
}

impl<T: Drop> From<AllocFailed<T>> for TranslatedRefusal {
    ghost from_gives = { λ _ e. e ≡ WantOfMemory };

    fn from(_e: AllocFailed<T>) -> TranslatedRefusal {
        TranslatedRefusal::WantOfMemory
    }
}
