// The state of a VAX thread.
ghost use Rattle.std.specs.Prelude.{◌≡◌};

use std::alloc::AllocError;

/// The processor status longword of a thread is this and its low word: user mode, now and before.
pub const USER_MODE: u32 = 0x03C0_0000;

/// The argument pointer, the frame pointer and the stack pointer.
pub const AP: u8 = 12;

pub const FP: u8 = 13;

pub const SP: u8 = 14;

/// A thread's processor state: R0 to R14 (AP, FP and SP among them), the PC, the low word of the processor status
/// (C is bit 0, V 1, Z 2, N 3, T 4, IV 5, FU 6, DV 7), the address of its handler, or 0 where it has none, and what it
/// does before its next instruction.
#[derive(Clone, Copy, Debug, PartialEq, Eq)]
pub struct VaxState {
    pub r: [u32; 15],
    pub pc: u32,
    pub psw: u16,
    pub handler: u32,
    pub pending: Pending,
}

/// What a thread has to do before its next instruction.
#[derive(Clone, Copy, Debug, PartialEq, Eq)]
pub enum Pending {
    Nothing,
    /// The exception's frame is pushed, and it goes on at its handler.
    Deliver(Exception),
    /// It goes on as the frame at SP says.
    Resume,
}

impl VaxState {
    ghost use Rattle.vax_form.specs.Moments.{delivering, has_handler};
    ghost use Rattle.vax_form.specs.State.{register, with_register, psl_of};

    /// A register R0 to R14, and 0 for any other number.
    pub fn register(&self, number: u8) -> u32
        ensures { result ≡ register number self.now }
    {
        if number < 15 {
            self.r[number as usize]
        } else {
            0
        }
    }

    /// Changes a register R0 to R14; any other number changes nothing.
    pub fn set_register(&mut self, number: u8, value: u32)
        ensures { self.new ≡ with_register number value self.old }
    {
        if number < 15 {
            self.r[number as usize] = value;
        }
    }

    /// Whether the thread has a handler.
    pub fn has_handler(&self) -> bool
        ensures { result ≡ has_handler self.now }
    {
        self.handler != 0
    }

    /// The state with that exception to be delivered.
    pub fn delivering(&self, exception: Exception) -> VaxState
        ensures { result ≡ delivering exception self.now }
    {
        let pending = Pending::Deliver(exception);
        VaxState { pending, ..*self }
    }

    /// The processor status longword.
    pub fn psl(&self) -> u32
        ensures { result ≡ psl_of self.now }
    {
        USER_MODE + self.psw as u32
    }
}

/// The condition codes.
#[derive(Clone, Copy, Debug, PartialEq, Eq)]
pub struct Flags {
    pub n: bool,
    pub z: bool,
    pub v: bool,
    pub c: bool,
}

impl Flags {
    pub const NONE: Flags = Flags {
        n: false,
        z: false,
        v: false,
        c: false,
    };

    pub const ALL: Flags = Flags {
        n: true,
        z: true,
        v: true,
        c: true,
    };
}

/// What a reference does. `Add`, `SetBit` and `ClearBit` are interlocked.
#[derive(Clone, Copy, Debug, PartialEq, Eq)]
pub enum RefKind {
    Read,
    /// Stores these bytes, right-aligned and zero-extended.
    Write(u64),
    /// Adds to a word; the reply is the word before.
    Add(u16),
    /// Sets this bit, 0 to 7, of a byte; the reply is the byte before.
    SetBit(u8),
    /// Clears this bit, 0 to 7, of a byte; the reply is the byte before.
    ClearBit(u8),
    /// Appends a byte to the output; it has address 0 and count 0.
    Put(u8),
    /// Takes the next input byte; it has address 0 and count 0.
    Get,
}

/// One reference: `count` bytes from `address` on, within one aligned quadword.
#[derive(Clone, Copy, Debug, PartialEq, Eq)]
pub struct Reference {
    pub address: u32,
    pub count: u8,
    pub kind: RefKind,
}

/// The exceptions that an instruction raises. All but `Arithmetic` are faults.
#[derive(Clone, Copy, Debug, PartialEq, Eq)]
pub enum Exception {
    ReservedInstruction,
    ReservedOperand,
    ReservedMode,
    /// The byte at this address may not be used with that intent.
    AccessViolation { address: u32, write: bool },
    Breakpoint,
    /// An arithmetic trap: type 1 is integer overflow, 2 divide by zero, 7 subscript range.
    Arithmetic(u8),
}

impl Exception {
    ghost use Rattle.vax_form.specs.Exceptions.{vector_of, parameter_of, intent_of};

    /// The offset of its vector in the System Control Block.
    pub fn vector(&self) -> u8
        ensures { result ≡ vector_of self.now }
    {
        match self {
            Exception::ReservedInstruction => 0x10,
            Exception::ReservedOperand => 0x18,
            Exception::ReservedMode => 0x1C,
            Exception::AccessViolation { .. } => 0x20,
            Exception::Breakpoint => 0x2C,
            Exception::Arithmetic(_) => 0x34,
        }
    }

    /// The address of an access violation, the type of an arithmetic trap, and 0 for any other.
    pub fn parameter(&self) -> u32
        ensures { result ≡ parameter_of self.now }
    {
        match self {
            Exception::AccessViolation { address, .. } => *address,
            Exception::Arithmetic(kind) => *kind as u32,
            _ => 0,
        }
    }

    /// 1 for an access violation with write intent, else 0.
    pub fn intent(&self) -> u32
        ensures { result ≡ intent_of self.now }
    {
        match self {
            Exception::AccessViolation { write: true, .. } => 1,
            _ => 0,
        }
    }
}

/// What an instruction comes to with the replies so far.
#[derive(Clone, Copy, Debug, PartialEq, Eq)]
pub enum Outcome {
    /// The next reference has no reply yet.
    Wants(Reference),
    /// It is done, and the thread goes on with this state.
    Done(VaxState),
    /// It ends the thread.
    Exits(VaxState),
    /// It raises an exception: a fault with the state before it, a trap with the state behind it.
    Raises(Exception, VaxState),
}

/// One choice of an order of references: the thread that makes its next one, and how many instructions that thread has
/// retired.
#[derive(Clone, Copy, Debug, PartialEq, Eq)]
pub struct Pick {
    pub thread: u8,
    pub retired: u64,
}

/// The answer of a call that could not get the memory that it needs.
#[derive(Clone, Copy, Debug, PartialEq, Eq)]
pub struct WantOfMemory;

impl From<AllocError> for WantOfMemory {
    fn from(_: AllocError) -> WantOfMemory {
        WantOfMemory
    }
}
