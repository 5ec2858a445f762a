// Why a file is no static executable for the VAX.
ghost use Rattle.std.specs.Prelude.{◌≡◌};
ghost use Rattle.elf_file.specs.declared.refusal.ElfRefusal.TheVariants.{WantOfMemory};

use arrayvec::ArrayVec;
use std::alloc::AllocError;

/// A refusal's number, and then what it tells of the file.
pub type Numbers = ArrayVec<u64, 4>;

/// Why a file has no program, or no symbols that can be read: the first reason in the order of the checks.
#[derive(Clone, Copy)]
pub enum ElfRefusal {
    /// The file ends inside its header.
    Short { length: u64 },
    BadMagic,
    /// Another class than 32 bits, another order of bytes than little-endian, or another version.
    BadClass { class: u8, order: u8, version: u8 },
    /// Another machine than the VAX.
    BadMachine { found: u16 },
    /// No executable file.
    BadType { found: u16 },
    /// The program headers, which stand at that place, have another size, or are not all in the file.
    BadHeaders { at: u32 },
    /// The first header that asks for a linker when the program is run.
    NotStatic { place: u16 },
    /// The first segment whose bytes are not all in the file.
    SegmentCut { place: u16 },
    /// The first segment that has more bytes in the file than in memory, or ends above address 80000000.
    BadSegment { place: u16 },
    /// The first segment that can be written and run.
    WritableCode { place: u16 },
    /// The symbol table whose section header stands at that place, or its names, are not all in the file; or the
    /// section headers, which stand at that place, are not.
    SymbolsCut { at: u64 },
    WantOfMemory,
}

impl ElfRefusal {
    ghost use Rattle.elf_file.specs.Refusal.{number_of, numbers_of};

    /// The refusal's number, which want of memory lacks.
    pub fn number(self) -> Option<u8>
        ensures { result ≡ number_of self }
    {
        match self {
            ElfRefusal::Short { .. } => Some(1),
            ElfRefusal::BadMagic => Some(2),
            ElfRefusal::BadClass { .. } => Some(3),
            ElfRefusal::BadMachine { .. } => Some(4),
            ElfRefusal::BadType { .. } => Some(5),
            ElfRefusal::BadHeaders { .. } => Some(6),
            ElfRefusal::NotStatic { .. } => Some(7),
            ElfRefusal::SegmentCut { .. } => Some(8),
            ElfRefusal::BadSegment { .. } => Some(9),
            ElfRefusal::WritableCode { .. } => Some(10),
            ElfRefusal::SymbolsCut { .. } => Some(13),
            ElfRefusal::WantOfMemory => None,
        }
    }

    /// The refusal's number, and then what it tells of the file.
    pub fn numbers(self) -> Numbers
        ensures { result.items ≡ numbers_of self }
    {
        let mut numbers = Numbers::new();
        if let Some(number) = self.number() {
            numbers.push(u64::from(number));
        }
        match self {
            ElfRefusal::Short { length: told } | ElfRefusal::SymbolsCut { at: told } => {
                numbers.push(told)
            }
            ElfRefusal::BadClass {
                class,
                order,
                version,
            } => {
                numbers.push(u64::from(class));
                numbers.push(u64::from(order));
                numbers.push(u64::from(version));
            }
            ElfRefusal::BadHeaders { at } => numbers.push(u64::from(at)),
            ElfRefusal::BadMachine { found: told }
            | ElfRefusal::BadType { found: told }
            | ElfRefusal::NotStatic { place: told }
            | ElfRefusal::SegmentCut { place: told }
            | ElfRefusal::BadSegment { place: told }
            | ElfRefusal::WritableCode { place: told } => numbers.push(u64::from(told)),
            ElfRefusal::BadMagic | ElfRefusal::WantOfMemory => {}
        }
        numbers
    }
}

impl From<AllocError> for ElfRefusal {
    ghost from_gives = { λ _ e. e ≡ WantOfMemory };

    fn from(_e: AllocError) -> ElfRefusal {
        ElfRefusal::WantOfMemory
    }
}
