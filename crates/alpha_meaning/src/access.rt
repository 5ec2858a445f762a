// Accesses to memory: their kinds, their bytes, and how what is loaded is extended.
ghost use Rattle.std.specs.Prelude.{◌≡◌, ◌%◌, ◌<◌, ◌↔◌, IsTrue};
ghost use Rattle.alpha_meaning.specs.Memory.{stores};

/// The kind of an access to memory.
#[derive(Clone, Copy, PartialEq, Eq, Debug)]
pub enum AlphaKind {
    Load,
    LoadLocked,
    Store,
    StoreConditional,
}

/// An access that an instruction asks for.
#[derive(Clone, Copy, PartialEq, Eq, Debug)]
pub struct AlphaAccess {
    pub kind: AlphaKind,
    /// Of the lowest byte.
    pub address: u64,
    /// 1, 2, 4 or 8.
    pub bytes: u8,
    /// The bytes to be stored, right-aligned, with zeros above; 0 for a load.
    pub value: u64,
}

/// How loaded bytes fill a register.
#[derive(Clone, Copy, PartialEq, Eq, Debug)]
pub enum Extension {
    Zero,
    Sign,
}

/// Whether an access of this kind writes memory, where it succeeds.
pub fn stores(kind: AlphaKind) -> bool
    ensures { result ≡ stores kind }
{
    match kind {
        AlphaKind::Load | AlphaKind::LoadLocked => false,
        AlphaKind::Store | AlphaKind::StoreConditional => true,
    }
}

/// Whether an access is naturally aligned: its address is a multiple of its number of bytes.
pub fn is_aligned(access: AlphaAccess) -> bool
    requires { 0 < access.bytes }
    ensures { IsTrue result ↔ (access.address % access.bytes ≡ 0) }
{
    access.address % u64::from(access.bytes) == 0
}
