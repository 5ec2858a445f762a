// Why no image is made.
ghost use Rattle.std.specs.Prelude.{◌≡◌};
ghost use Rattle.image_file.specs.Refusal as image;
ghost use Rattle.image_parts.specs.declared.refusal.MakeRefusal.TheVariants.{WantOfMemory};

use elf_file::ElfRefusal;
use image_file::ImageRefusal;
use std::alloc::AllocError;

/// A refusal's number, and then what it tells.
pub use elf_file::Numbers;

/// Who refuses: the rules of ELF files and of the images that they give, the rules of parts, or the image format.
#[derive(Clone, Copy)]
pub enum Judge {
    OfElf,
    OfParts,
    OfImage,
}

/// Why no image is made: the first reason in the order of the checks.
#[derive(Clone, Copy)]
pub enum MakeRefusal {
    /// The file is no static executable for the VAX, or its symbols cannot be read.
    Elf(ElfRefusal),
    /// The first two loaded segments of different rights that share a page, by their places among the loaded segments.
    SharedPage { low: u64, high: u64 },
    /// The first start that is in no read-only section.
    StartOutside { address: u32 },
    /// The first section that stores more bytes than it has.
    StoredTooLong { place: u16 },
    /// There are so many threads, sections or entries that the header of an image cannot count them.
    TooMany { count: u64 },
    /// What the file would be, the format refuses.
    Image(ImageRefusal),
    WantOfMemory,
}

/// The numbers of a refusal of the format, which are three at the most.
fn image_numbers(refusal: ImageRefusal) -> Numbers
    ensures { result.items ≡ image.numbers_of refusal }
{
    let told = refusal.numbers();
    let mut numbers = Numbers::new();
    match numbers.try_extend_from_slice(told.as_slice()) {
        Ok(()) => numbers,
        Err(_) => unreachable!(),
    }
}

impl MakeRefusal {
    ghost use Rattle.image_parts.specs.Refusal.{judge_of, numbers_of};

    /// Who refuses. Want of memory is nobody's refusal.
    pub fn judge(self) -> Option<Judge>
        ensures { result ≡ judge_of self }
    {
        match self {
            MakeRefusal::Elf(_)
            | MakeRefusal::SharedPage { .. }
            | MakeRefusal::StartOutside { .. } => Some(Judge::OfElf),
            MakeRefusal::StoredTooLong { .. } | MakeRefusal::TooMany { .. } => Some(Judge::OfParts),
            MakeRefusal::Image(_) => Some(Judge::OfImage),
            MakeRefusal::WantOfMemory => None,
        }
    }

    /// The refusal's number, and then what it tells. Want of memory has none.
    pub fn numbers(self) -> Numbers
        ensures { result.items ≡ numbers_of self }
    {
        let mut numbers = Numbers::new();
        match self {
            MakeRefusal::Elf(refusal) => return refusal.numbers(),
            MakeRefusal::SharedPage { low, high } => {
                numbers.push(11);
                numbers.push(low);
                numbers.push(high);
            }
            MakeRefusal::StartOutside { address } => {
                numbers.push(12);
                numbers.push(u64::from(address));
            }
            MakeRefusal::StoredTooLong { place } => {
                numbers.push(1);
                numbers.push(u64::from(place));
            }
            MakeRefusal::TooMany { count } => {
                numbers.push(3);
                numbers.push(count);
            }
            MakeRefusal::Image(refusal) => return image_numbers(refusal),
            MakeRefusal::WantOfMemory => {}
        }
        numbers
    }
}

impl From<ElfRefusal> for MakeRefusal {
    ghost use Rattle.image_parts.specs.Refusal.{of_elf};

    ghost from_gives = { λ e r. r ≡ of_elf e };

    fn from(e: ElfRefusal) -> MakeRefusal {
        match e {
            ElfRefusal::WantOfMemory => MakeRefusal::WantOfMemory,
            refusal => MakeRefusal::Elf(refusal),
        }
    }
}

impl From<ImageRefusal> for MakeRefusal {
    ghost use Rattle.image_parts.specs.Refusal.{of_image};

    ghost from_gives = { λ e r. r ≡ of_image e };

    fn from(e: ImageRefusal) -> MakeRefusal {
        match e {
            ImageRefusal::WantOfMemory => MakeRefusal::WantOfMemory,
            refusal => MakeRefusal::Image(refusal),
        }
    }
}

impl From<vax_form::WantOfMemory> for MakeRefusal {
    ghost from_gives = { λ _ e. e ≡ WantOfMemory };

    fn from(_e: vax_form::WantOfMemory) -> MakeRefusal {
        MakeRefusal::WantOfMemory
    }
}

impl From<AllocError> for MakeRefusal {
    ghost from_gives = { λ _ e. e ≡ WantOfMemory };

    fn from(_e: AllocError) -> MakeRefusal {
        MakeRefusal::WantOfMemory
    }
}
