// Entries of the history: one access each.
ghost use Rattle.std.specs.Prelude.{◌≡◌};
ghost use Rattle.memory_core.specs.Kinds.{is_memory, writes, is_conditional, is_put};
ghost use Rattle.memory_core.specs.Fields.{most_kept};
ghost use Rattle.memory_core.specs.Limits.{greatest};

use image_file::Image;
use std::collections::LinkedList;

/// The kind of an entry. Kinds with Tie are made by interpreted instructions.
#[derive(Clone, Copy, Debug, PartialEq, Eq)]
pub enum Kind {
    Load,
    LoadLocked,
    Store,
    StoreConditional,
    TieRead,
    TieWrite,
    /// A read-modify-write of one quadword at once.
    TieLocked,
    /// Appends a byte to the output.
    Put,
    /// Takes the next input byte.
    Get,
}

impl Kind {
    pub(crate) fn is_memory(self) -> bool
        ensures { result ≡ is_memory self }
    {
        !matches!(self, Kind::Put | Kind::Get)
    }

    pub(crate) fn is_conditional(self) -> bool
        ensures { result ≡ is_conditional self }
    {
        matches!(self, Kind::StoreConditional)
    }

    pub(crate) fn is_put(self) -> bool
        ensures { result ≡ is_put self }
    {
        matches!(self, Kind::Put)
    }

    pub(crate) fn writes(self, success: bool) -> bool
        ensures { result ≡ writes self success }
    {
        match self {
            Kind::Store | Kind::TieWrite | Kind::TieLocked => true,
            Kind::StoreConditional => success,
            Kind::Load | Kind::LoadLocked | Kind::TieRead | Kind::Put | Kind::Get => false,
        }
    }
}

/// One access: who made it and how many instructions that processor had retired, the address of the aligned quadword,
/// and the quadword before and after. A PUT has quad 0, before 0 and its byte as after; a GET has quad 0 and its answer
/// as before and after. `success` is false for a failed store conditional alone.
#[derive(Clone, Copy, Debug, PartialEq, Eq)]
pub struct Entry {
    pub retired: u64,
    pub before: u64,
    pub after: u64,
    pub quad: u32,
    pub processor: u8,
    pub kind: Kind,
    pub success: bool,
}

const _: () = prove!(size_of::<Entry>() == 32);

/// What an access makes of its quadword; byte 0 and bit 0 are the lowest.
#[derive(Clone, Copy, Debug, PartialEq, Eq)]
pub enum Change {
    Nothing,
    /// A bit of the mask names a byte, and the value stands in place.
    Bytes { mask: u8, value: u64 },
    /// Adds to the word at byte 0, 2, 4 or 6, modulo 2^16.
    AddWord { at: u8, value: u16 },
    SetBit(u8),
    ClearBit(u8),
    /// The byte of a PUT.
    Byte(u8),
}

/// One access as it is asked for.
#[derive(Clone, Copy, Debug, PartialEq, Eq)]
pub struct Request {
    pub processor: u8,
    pub retired: u64,
    pub kind: Kind,
    pub quad: u32,
    pub change: Change,
}

#[derive(Clone, Copy, Debug, PartialEq, Eq)]
pub enum Reply {
    /// What the access found, and whether it succeeded.
    Made { before: u64, success: bool },
    /// One more of what the limit counts is asked for than there may be, and nothing was done.
    Full,
}

/// What a memory counts, and how many of these there may be.
#[derive(Clone, Copy, Debug, PartialEq, Eq)]
pub enum Limit {
    /// Entries of the history, which is kept.
    Entries(u32),
    /// Bytes that are put. Proofs alone keep the history.
    Puts(u64),
}

impl Limit {
    pub(crate) fn greatest(self) -> u64
        ensures { result ≡ greatest self }
    {
        match self {
            Limit::Entries(most) => u64::from(most),
            Limit::Puts(most) => most,
        }
    }

    /// The greatest number of entries that are kept.
    pub(crate) fn most_kept(self) -> u32
        ensures { result ≡ most_kept self }
    {
        match self {
            Limit::Entries(most) => most,
            Limit::Puts(_) => 0,
        }
    }
}

/// What a memory starts with: the image with its pages, the input, the limit, and the miss number, which is 0 or makes every so
/// many-th store conditional of a processor fail. It is a value of contracts alone.
pub struct SetUp {
    pub image: Image,
    pub input: LinkedList<u8>,
    pub limit: Limit,
    pub miss: u16,
}
