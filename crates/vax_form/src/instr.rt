// Instructions, their operands and addressing modes.
ghost use Rattle.std.specs.Prelude.{◌≡◌, ◌≤◌};
ghost use Rattle.vax_form.specs.Size.{bytes_of, size_of};

/// The length of an operand: a byte, a word, a longword or a quadword.
#[derive(Clone, Copy, Debug, PartialEq, Eq)]
pub enum Size {
    Byte,
    Word,
    Long,
    Quad,
}

impl Size {
    /// The length in bytes.
    pub fn bytes(self) -> u32
        ensures { result ≡ bytes_of self }
    {
        match self {
            Size::Byte => 1,
            Size::Word => 2,
            Size::Long => 4,
            Size::Quad => 8,
        }
    }
}

/// The length of an operand of integer arithmetic, which has no quadwords.
#[derive(Clone, Copy, Debug, PartialEq, Eq)]
pub enum Width {
    Byte,
    Word,
    Long,
}

impl Width {
    /// The same length as a size.
    pub fn size(self) -> Size
        ensures { result ≡ size_of self }
    {
        match self {
            Width::Byte => Size::Byte,
            Width::Word => Size::Word,
            Width::Long => Size::Long,
        }
    }

    /// The length in bytes: 1, 2 or 4.
    pub fn bytes(self) -> u32
        ensures value { result ≡ bytes_of (size_of self) }
        ensures least { 1 ≤ result }
        ensures most { result ≤ 4 }
    {
        self.size().bytes()
    }
}

/// The access type of an operand: how the instruction uses it.
#[derive(Clone, Copy, Debug, PartialEq, Eq)]
pub enum Access {
    Read,
    Write,
    Modify,
    /// The address of the operand is what the instruction uses.
    Address,
    /// The base of a bit field: a register, or an address.
    Field,
    /// A branch displacement.
    Branch,
}

/// The addressing mode of an operand in memory, without its index.
#[derive(Clone, Copy, Debug, PartialEq, Eq)]
pub enum Base {
    /// Register deferred: at Rn.
    Deferred(u8),
    /// Autodecrement: Rn is lowered by the operand's length, then at Rn.
    Decrement(u8),
    /// Autoincrement: at Rn, which is then raised by the operand's length.
    Increment(u8),
    /// Autoincrement deferred: at the longword at Rn, which is then raised by 4.
    IncrementDeferred(u8),
    /// Displacement: at Rn plus the sign-extended displacement, modulo 2^32; deferred, at the longword there.
    Offset {
        register: u8,
        offset: u32,
        deferred: bool,
    },
    /// Absolute and relative, and an immediate whose address is taken: an address that the code fixes; deferred, at
    /// the longword there.
    Fixed {
        address: u32,
        deferred: bool,
    },
}

/// One operand, as its specifier was decoded.
#[derive(Clone, Copy, Debug, PartialEq, Eq)]
pub enum Operand {
    /// No operand of this number.
    Unused,
    /// A short literal or an immediate, zero-extended.
    Value(u64),
    /// Register mode: Rn, for a quadword Rn and the next register.
    Register(u8),
    /// In memory; the index register times the operand's length is added to the address.
    Place { base: Base, index: Option<u8> },
    /// The address that a branch displacement names.
    Target(u32),
}

/// One decoded instruction: the opcode at `at`, its first `count` operands, and the address behind its last specifier.
#[derive(Clone, Copy, Debug, PartialEq, Eq)]
pub struct Instr {
    pub at: u32,
    pub opcode: u8,
    pub count: u8,
    pub operands: [Operand; 6],
    pub after: u32,
}
