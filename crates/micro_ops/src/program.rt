// The operations of micro programs.
use vax_form::Size;

/// An argument of a computation.
#[derive(Clone, Copy, Debug, PartialEq, Eq)]
pub enum Arg {
    /// What a temporary, 0 to 63, holds.
    Temp(u8),
    /// A register R0 to R14, as the instruction found it.
    Register(u8),
    /// A bit of the PSW as the instruction found it: N, Z, V, C, T, IV, FU and DV are 0 to 7.
    Flag(u8),
    Const(u64),
}

/// What is computed from the arguments a and b.
#[derive(Clone, Copy, Debug, PartialEq, Eq)]
pub enum MicroOp {
    /// a.
    Move,
    Add,
    /// a minus b.
    Sub,
    /// The low half of the product.
    Mul,
    And,
    Or,
    Xor,
    /// a and the complement of b.
    AndNot,
    /// a by b bits.
    ShiftLeft,
    /// a by b bits, with zeros from above.
    ShiftRight,
    /// a by b bits, with copies of the sign from above.
    ShiftSigned,
    /// a, whose sign fills all 64 bits.
    SignExtend,
    /// a.
    ZeroExtend,
    /// 1 where a and b are equal, else 0.
    Equal,
    /// 1 where a is below b as signed numbers, else 0.
    Less,
    /// 1 where a is below b as unsigned numbers, else 0.
    LessUnsigned,
    /// b where a isn't 0, else what the temporary held.
    SelectNonzero,
    /// The high half of the unsigned product.
    MulHigh,
}

/// An interlocked change of memory.
#[derive(Clone, Copy, Debug, PartialEq, Eq)]
pub enum LockedOp {
    /// Adds to a word.
    AddWord,
    /// Sets one bit of a byte.
    SetBit,
    /// Clears one bit of a byte.
    ClearBit,
}

/// Where a program leaves to.
#[derive(Clone, Copy, Debug, PartialEq, Eq)]
pub enum Exit {
    /// The address behind the instruction.
    Next,
    /// A fixed address.
    Fixed(u32),
    /// The address in a temporary.
    Computed(u8),
    /// `taken` where a temporary isn't 0, else `other`.
    Choice { when: u8, taken: u32, other: u32 },
    /// The service whose code is in a temporary, and then the address behind the instruction.
    Service(u8),
    /// Raises the breakpoint fault.
    Breakpoint,
}

/// One micro operation. Places and values are named by the temporaries that hold them.
#[derive(Clone, Copy, Debug, PartialEq, Eq)]
pub enum Micro {
    /// Computes into a temporary, on the low bytes of its size.
    Compute {
        to: u8,
        op: MicroOp,
        size: Size,
        a: Arg,
        b: Arg,
    },
    /// Faults where one of the bytes may not be used with that intent.
    Probe {
        place: u8,
        count: u8,
        write: bool,
    },
    /// The reserved operand fault where a temporary isn't 0.
    Refuse {
        when: u8,
    },
    Read {
        to: u8,
        place: u8,
        count: u8,
    },
    Write {
        place: u8,
        count: u8,
        from: u8,
    },
    /// An interlocked change, with what was there before as its value.
    Locked {
        to: u8,
        place: u8,
        kind: LockedOp,
        from: u8,
    },
    /// Changes a register at `Leave`.
    Commit {
        register: u8,
        from: u8,
    },
    /// Sets condition codes at `Leave`, from temporaries that are 0 or not; without `c`, C stays.
    Codes {
        n: u8,
        z: u8,
        v: u8,
        c: Option<u8>,
    },
    /// Sets all eight bits of the PSW at `Leave`.
    SetPsw {
        from: u8,
    },
    Leave(Exit),
}
