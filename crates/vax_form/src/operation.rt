// The table of opcodes.
ghost use Rattle.std.specs.Prelude.{◌≡◌};
ghost use Rattle.vax_form.specs.Operation.{operation_at, among, integer_opcodes, control_opcodes, mixed_opcodes, move_opcodes, bit_opcodes};

use crate::instr::{Size, Width};

/// What a conditional branch tests.
#[derive(Clone, Copy, Debug, PartialEq, Eq)]
pub enum Condition {
    /// Z is 0.
    NotEqual,
    /// Z is 1.
    Equal,
    /// N and Z are 0.
    Greater,
    /// N or Z is 1.
    LessOrEqual,
    /// N is 0.
    GreaterOrEqual,
    /// N is 1.
    Less,
    /// C and Z are 0.
    GreaterUnsigned,
    /// C or Z is 1.
    LessOrEqualUnsigned,
    /// V is 0.
    OverflowClear,
    /// V is 1.
    OverflowSet,
    /// C is 0.
    CarryClear,
    /// C is 1.
    CarrySet,
}

/// An integer or logical operation of two operands. Subtract and Divide take the first operand from the second and
/// divide the second by the first; BitClear clears in the second what is set in the first.
#[derive(Clone, Copy, Debug, PartialEq, Eq)]
pub enum BinaryOperation {
    Add,
    Subtract,
    Multiply,
    Divide,
    BitSet,
    BitClear,
    ExclusiveOr,
}

/// What a branch on a bit leaves in the bit.
#[derive(Clone, Copy, Debug, PartialEq, Eq)]
pub enum BitStore {
    /// The bit is only read.
    Nothing,
    /// The bit is read, and then written with this value.
    Plain(bool),
    /// The same as one interlocked reference.
    Interlocked(bool),
}

/// A branch on a bit: the state of the bit in which it branches, and what it leaves in the bit.
#[derive(Clone, Copy, Debug, PartialEq, Eq)]
pub struct BitBranch {
    pub state: bool,
    pub store: BitStore,
}

/// The long instructions: those that make more references than their operands have parts, or that use the stack for
/// lists of registers; and INDEX.
#[derive(Clone, Copy, Debug, PartialEq, Eq)]
pub enum LongOperation {
    /// INDEX.
    Index,
    /// CALLG.
    CallGeneral,
    /// CALLS.
    CallStack,
    /// RET.
    Return,
    /// PUSHR.
    PushRegisters,
    /// POPR.
    PopRegisters,
    /// MOVC3.
    MoveCharacters,
    /// MOVC5.
    MoveCharactersFilled,
    /// CMPC3.
    CompareCharacters,
    /// LOCC.
    LocateCharacter,
    /// SKPC.
    SkipCharacter,
}

/// What an opcode does. Opcodes that differ in size, condition or number of operands have one operation with that as
/// data.
#[derive(Clone, Copy, Debug, PartialEq, Eq)]
pub enum Operation {
    /// NOP.
    NoOperation,
    /// BPT.
    Breakpoint,
    /// CHMK.
    ChangeMode,
    /// MOV.
    Move(Size),
    /// CLR.
    Clear(Size),
    /// MOVA: the address of an operand of that size.
    MoveAddress(Size),
    /// PUSHA.
    PushAddress(Size),
    /// PUSHL.
    PushLong,
    /// MOVZ.
    MoveZeroExtended { from: Width, to: Width },
    /// CVT.
    Convert { from: Width, to: Width },
    /// MCOM.
    MoveComplemented(Width),
    /// MNEG.
    MoveNegated(Width),
    /// MOVPSL.
    MovePsl,
    /// BISPSW.
    BitSetPsw,
    /// BICPSW.
    BitClearPsw,
    /// CMP.
    Compare(Width),
    /// TST.
    Test(Width),
    /// BIT.
    BitTest(Width),
    /// ADD2 and its kin: the second operand is the destination.
    TwoOperands(BinaryOperation, Width),
    /// ADD3 and its kin: the third operand is the destination.
    ThreeOperands(BinaryOperation, Width),
    /// INC.
    Increment(Width),
    /// DEC.
    Decrement(Width),
    /// ADWC.
    AddWithCarry,
    /// SBWC.
    SubtractWithCarry,
    /// ADAWI.
    AddAlignedWord,
    /// EMUL.
    ExtendedMultiply,
    /// ASHL.
    ArithmeticShift,
    /// ROTL.
    Rotate,
    /// EXTV, and EXTZV where it is not signed.
    ExtractField { signed: bool },
    /// INSV.
    InsertField,
    /// BR, with a displacement of that width.
    Branch(Width),
    /// BNEQ to BCS.
    BranchIf(Condition),
    /// BLBS and BLBC: the state of bit 0 in which it branches.
    BranchOnLowBit(bool),
    /// BBS to BBCCI.
    BranchOnBit(BitBranch),
    /// AOBLEQ, and AOBLSS where it is not `or_equal`.
    AddOneBranch { or_equal: bool },
    /// SOBGEQ, and SOBGTR where it is not `or_equal`.
    SubtractOneBranch { or_equal: bool },
    /// ACB.
    AddCompareBranch(Width),
    /// BSB, with a displacement of that width.
    BranchToSubroutine(Width),
    /// JMP.
    Jump,
    /// JSB.
    JumpToSubroutine,
    /// RSB.
    ReturnFromSubroutine,
    /// CASE.
    Case(Width),
    Long(LongOperation),
}

/// The 24 opcodes of integer arithmetic of one width, by their distance from the first.
#[tactic(auto, unfolding(crate::specs::Operation::integer_opcodes))]
fn integer_operation(row: u8, width: Width) -> Option<Operation>
    ensures { result ≡ among (integer_opcodes width) row }
{
    use BinaryOperation::{Add, BitClear, BitSet, Divide, ExclusiveOr, Multiply, Subtract};
    match row {
        0x00 => Some(Operation::TwoOperands(Add, width)),
        0x01 => Some(Operation::ThreeOperands(Add, width)),
        0x02 => Some(Operation::TwoOperands(Subtract, width)),
        0x03 => Some(Operation::ThreeOperands(Subtract, width)),
        0x04 => Some(Operation::TwoOperands(Multiply, width)),
        0x05 => Some(Operation::ThreeOperands(Multiply, width)),
        0x06 => Some(Operation::TwoOperands(Divide, width)),
        0x07 => Some(Operation::ThreeOperands(Divide, width)),
        0x08 => Some(Operation::TwoOperands(BitSet, width)),
        0x09 => Some(Operation::ThreeOperands(BitSet, width)),
        0x0A => Some(Operation::TwoOperands(BitClear, width)),
        0x0B => Some(Operation::ThreeOperands(BitClear, width)),
        0x0C => Some(Operation::TwoOperands(ExclusiveOr, width)),
        0x0D => Some(Operation::ThreeOperands(ExclusiveOr, width)),
        0x0E => Some(Operation::MoveNegated(width)),
        0x0F => Some(Operation::Case(width)),
        0x10 => Some(Operation::Move(width.size())),
        0x11 => Some(Operation::Compare(width)),
        0x12 => Some(Operation::MoveComplemented(width)),
        0x13 => Some(Operation::BitTest(width)),
        0x14 => Some(Operation::Clear(width.size())),
        0x15 => Some(Operation::Test(width)),
        0x16 => Some(Operation::Increment(width)),
        0x17 => Some(Operation::Decrement(width)),
        _ => None,
    }
}

/// Branches, jumps and calls with opcodes below 40.
#[tactic(auto, unfolding(crate::specs::Operation::control_opcodes))]
fn control_operation(opcode: u8) -> Option<Operation>
    ensures { result ≡ among control_opcodes opcode }
{
    match opcode {
        0x01 => Some(Operation::NoOperation),
        0x03 => Some(Operation::Breakpoint),
        0x04 => Some(Operation::Long(LongOperation::Return)),
        0x05 => Some(Operation::ReturnFromSubroutine),
        0x10 => Some(Operation::BranchToSubroutine(Width::Byte)),
        0x11 => Some(Operation::Branch(Width::Byte)),
        0x12 => Some(Operation::BranchIf(Condition::NotEqual)),
        0x13 => Some(Operation::BranchIf(Condition::Equal)),
        0x14 => Some(Operation::BranchIf(Condition::Greater)),
        0x15 => Some(Operation::BranchIf(Condition::LessOrEqual)),
        0x16 => Some(Operation::JumpToSubroutine),
        0x17 => Some(Operation::Jump),
        0x18 => Some(Operation::BranchIf(Condition::GreaterOrEqual)),
        0x19 => Some(Operation::BranchIf(Condition::Less)),
        0x1A => Some(Operation::BranchIf(Condition::GreaterUnsigned)),
        0x1B => Some(Operation::BranchIf(Condition::LessOrEqualUnsigned)),
        0x1C => Some(Operation::BranchIf(Condition::OverflowClear)),
        0x1D => Some(Operation::BranchIf(Condition::OverflowSet)),
        0x1E => Some(Operation::BranchIf(Condition::CarryClear)),
        0x1F => Some(Operation::BranchIf(Condition::CarrySet)),
        0x30 => Some(Operation::BranchToSubroutine(Width::Word)),
        0x31 => Some(Operation::Branch(Width::Word)),
        _ => None,
    }
}

/// The other opcodes below 80.
#[tactic(auto, unfolding(crate::specs::Operation::mixed_opcodes))]
fn mixed_operation(opcode: u8) -> Option<Operation>
    ensures { result ≡ among mixed_opcodes opcode }
{
    let (word, long) = (Width::Word, Width::Long);
    match opcode {
        0x0A => Some(Operation::Long(LongOperation::Index)),
        0x28 => Some(Operation::Long(LongOperation::MoveCharacters)),
        0x29 => Some(Operation::Long(LongOperation::CompareCharacters)),
        0x2C => Some(Operation::Long(LongOperation::MoveCharactersFilled)),
        0x32 => Some(Operation::Convert {
            from: word,
            to: long,
        }),
        0x33 => Some(Operation::Convert {
            from: word,
            to: Width::Byte,
        }),
        0x3A => Some(Operation::Long(LongOperation::LocateCharacter)),
        0x3B => Some(Operation::Long(LongOperation::SkipCharacter)),
        0x3C => Some(Operation::MoveZeroExtended {
            from: word,
            to: long,
        }),
        0x3D => Some(Operation::AddCompareBranch(word)),
        0x3E => Some(Operation::MoveAddress(Size::Word)),
        0x3F => Some(Operation::PushAddress(Size::Word)),
        0x58 => Some(Operation::AddAlignedWord),
        0x78 => Some(Operation::ArithmeticShift),
        0x7A => Some(Operation::ExtendedMultiply),
        0x7C => Some(Operation::Clear(Size::Quad)),
        0x7D => Some(Operation::Move(Size::Quad)),
        0x7E => Some(Operation::MoveAddress(Size::Quad)),
        0x7F => Some(Operation::PushAddress(Size::Quad)),
        _ => None,
    }
}

/// The opcodes from 98 to DF that are not integer arithmetic of one width.
#[tactic(auto, unfolding(crate::specs::Operation::move_opcodes))]
fn move_operation(opcode: u8) -> Option<Operation>
    ensures { result ≡ among move_opcodes opcode }
{
    let (byte, word, long) = (Width::Byte, Width::Word, Width::Long);
    match opcode {
        0x98 => Some(Operation::Convert {
            from: byte,
            to: long,
        }),
        0x99 => Some(Operation::Convert {
            from: byte,
            to: word,
        }),
        0x9A => Some(Operation::MoveZeroExtended {
            from: byte,
            to: long,
        }),
        0x9B => Some(Operation::MoveZeroExtended {
            from: byte,
            to: word,
        }),
        0x9C => Some(Operation::Rotate),
        0x9D => Some(Operation::AddCompareBranch(byte)),
        0x9E => Some(Operation::MoveAddress(Size::Byte)),
        0x9F => Some(Operation::PushAddress(Size::Byte)),
        0xB8 => Some(Operation::BitSetPsw),
        0xB9 => Some(Operation::BitClearPsw),
        0xBA => Some(Operation::Long(LongOperation::PopRegisters)),
        0xBB => Some(Operation::Long(LongOperation::PushRegisters)),
        0xBC => Some(Operation::ChangeMode),
        0xD8 => Some(Operation::AddWithCarry),
        0xD9 => Some(Operation::SubtractWithCarry),
        0xDC => Some(Operation::MovePsl),
        0xDD => Some(Operation::PushLong),
        0xDE => Some(Operation::MoveAddress(Size::Long)),
        0xDF => Some(Operation::PushAddress(Size::Long)),
        _ => None,
    }
}

/// A branch on a bit.
fn bit_branch(state: bool, store: BitStore) -> Option<Operation>
    ensures { result ≡ Some (Operation.BranchOnBit (record { state = state; store = store })) }
{
    Some(Operation::BranchOnBit(BitBranch { state, store }))
}

/// The opcodes from E0 on.
#[tactic(auto, unfolding(crate::specs::Operation::bit_opcodes))]
fn bit_operation(opcode: u8) -> Option<Operation>
    ensures { result ≡ among bit_opcodes opcode }
{
    let (byte, word, long) = (Width::Byte, Width::Word, Width::Long);
    match opcode {
        0xE0 => bit_branch(true, BitStore::Nothing),
        0xE1 => bit_branch(false, BitStore::Nothing),
        0xE2 => bit_branch(true, BitStore::Plain(true)),
        0xE3 => bit_branch(false, BitStore::Plain(true)),
        0xE4 => bit_branch(true, BitStore::Plain(false)),
        0xE5 => bit_branch(false, BitStore::Plain(false)),
        0xE6 => bit_branch(true, BitStore::Interlocked(true)),
        0xE7 => bit_branch(false, BitStore::Interlocked(false)),
        0xE8 => Some(Operation::BranchOnLowBit(true)),
        0xE9 => Some(Operation::BranchOnLowBit(false)),
        0xEE => Some(Operation::ExtractField { signed: true }),
        0xEF => Some(Operation::ExtractField { signed: false }),
        0xF0 => Some(Operation::InsertField),
        0xF1 => Some(Operation::AddCompareBranch(long)),
        0xF2 => Some(Operation::AddOneBranch { or_equal: false }),
        0xF3 => Some(Operation::AddOneBranch { or_equal: true }),
        0xF4 => Some(Operation::SubtractOneBranch { or_equal: true }),
        0xF5 => Some(Operation::SubtractOneBranch { or_equal: false }),
        0xF6 => Some(Operation::Convert {
            from: long,
            to: byte,
        }),
        0xF7 => Some(Operation::Convert {
            from: long,
            to: word,
        }),
        0xFA => Some(Operation::Long(LongOperation::CallGeneral)),
        0xFB => Some(Operation::Long(LongOperation::CallStack)),
        _ => None,
    }
}

/// The operation of an opcode; None for a reserved one.
#[tactic(auto, unfolding(crate::specs::Operation::operation_at))]
pub fn operation_of(opcode: u8) -> Option<Operation>
    ensures { result ≡ operation_at opcode }
{
    match opcode {
        0x80..=0x97 => integer_operation(opcode - 0x80, Width::Byte),
        0xA0..=0xB7 => integer_operation(opcode - 0xA0, Width::Word),
        0xC0..=0xD7 => integer_operation(opcode - 0xC0, Width::Long),
        _ => control_operation(opcode)
            .or(mixed_operation(opcode))
            .or(move_operation(opcode))
            .or(bit_operation(opcode)),
    }
}
