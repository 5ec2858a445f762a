// The operands of each operation, and its class.
ghost use Rattle.std.specs.Prelude.{◌≡◌, ◌↔◌, [], ◌∷◌, IsNone};
ghost use Rattle.vax_form.specs.Row.{row_with, operands_of_long, row_of_operation, row_at, class_of_operation, class_at, is_long_operation, is_long_at};

use crate::instr::{Access, Size};
use crate::operation::{BinaryOperation, LongOperation, Operation, operation_of};

/// What becomes of an opcode: it is translated, always interpreted by TIE, or reserved.
#[derive(Clone, Copy, Debug, PartialEq, Eq)]
pub enum Class {
    Translated,
    Tie,
    Reserved,
}

/// The operands of an opcode: how each is used, and its length. Places behind the last hold Read and Byte.
#[derive(Clone, Copy, Debug, PartialEq, Eq)]
pub struct Row {
    pub count: u8,
    pub access: [Access; 6],
    pub size: [Size; 6],
}

/// One operand: how it is used, and its length.
type Entry = (Access, Size);

fn none() -> Row
    ensures { result ≡ row_with [] }
{
    Row {
        count: 0,
        access: [Access::Read; 6],
        size: [Size::Byte; 6],
    }
}

fn one(a: Entry) -> Row
    ensures { result ≡ row_with (a ∷ []) }
{
    let (read, byte) = (Access::Read, Size::Byte);
    Row {
        count: 1,
        access: [a.0, read, read, read, read, read],
        size: [a.1, byte, byte, byte, byte, byte],
    }
}

fn two(a: Entry, b: Entry) -> Row
    ensures { result ≡ row_with (a ∷ b ∷ []) }
{
    let (read, byte) = (Access::Read, Size::Byte);
    Row {
        count: 2,
        access: [a.0, b.0, read, read, read, read],
        size: [a.1, b.1, byte, byte, byte, byte],
    }
}

fn three(a: Entry, b: Entry, c: Entry) -> Row
    ensures { result ≡ row_with (a ∷ b ∷ c ∷ []) }
{
    let (read, byte) = (Access::Read, Size::Byte);
    Row {
        count: 3,
        access: [a.0, b.0, c.0, read, read, read],
        size: [a.1, b.1, c.1, byte, byte, byte],
    }
}

fn four(a: Entry, b: Entry, c: Entry, d: Entry) -> Row
    ensures { result ≡ row_with (a ∷ b ∷ c ∷ d ∷ []) }
{
    let (read, byte) = (Access::Read, Size::Byte);
    Row {
        count: 4,
        access: [a.0, b.0, c.0, d.0, read, read],
        size: [a.1, b.1, c.1, d.1, byte, byte],
    }
}

impl LongOperation {
    /// The operands.
    #[tactic(auto, unfolding(crate::specs::Row::operands_of_long))]
    pub fn row(self) -> Row
        ensures { result ≡ row_with (operands_of_long self) }
    {
        use Access::{Address, Read, Write};
        use Size::{Byte, Long, Word};
        match self {
            LongOperation::Index => Row {
                count: 6,
                access: [Read, Read, Read, Read, Read, Write],
                size: [Long; 6],
            },
            LongOperation::CallGeneral => two((Address, Byte), (Address, Byte)),
            LongOperation::CallStack => two((Read, Long), (Address, Byte)),
            LongOperation::Return => none(),
            LongOperation::PushRegisters | LongOperation::PopRegisters => one((Read, Word)),
            LongOperation::MoveCharacters | LongOperation::CompareCharacters => {
                three((Read, Word), (Address, Byte), (Address, Byte))
            }
            LongOperation::MoveCharactersFilled => Row {
                count: 5,
                access: [Read, Address, Read, Read, Address, Read],
                size: [Word, Byte, Byte, Word, Byte, Byte],
            },
            LongOperation::LocateCharacter | LongOperation::SkipCharacter => {
                three((Read, Byte), (Read, Word), (Address, Byte))
            }
        }
    }
}

impl Operation {
    /// The operands.
    #[tactic(auto, unfolding(crate::specs::Row::operands_of))]
    pub fn row(self) -> Row
        ensures { result ≡ row_of_operation self }
    {
        use Access::{Address, Branch, Field, Modify, Read, Write};
        use Size::{Byte, Long, Quad, Word};
        match self {
            Operation::NoOperation | Operation::Breakpoint | Operation::ReturnFromSubroutine =>
                none(),
            Operation::ChangeMode | Operation::BitSetPsw | Operation::BitClearPsw => one((
                Read, Word,
            )),
            Operation::Move(size) => two((Read, size), (Write, size)),
            Operation::Clear(size) => one((Write, size)),
            Operation::MoveAddress(size) => two((Address, size), (Write, Long)),
            Operation::PushAddress(size) => one((Address, size)),
            Operation::PushLong => one((Read, Long)),
            Operation::MoveZeroExtended { from, to } => two(
                (Read, from.size()),
                (Write, to.size()),
            ),
            Operation::Convert { from, to } => two((Read, from.size()), (Write, to.size())),
            Operation::MoveComplemented(width) => two((Read, width.size()), (Write, width.size())),
            Operation::MoveNegated(width) => two((Read, width.size()), (Write, width.size())),
            Operation::MovePsl => one((Write, Long)),
            Operation::Compare(width) => two((Read, width.size()), (Read, width.size())),
            Operation::Test(width) => one((Read, width.size())),
            Operation::BitTest(width) => two((Read, width.size()), (Read, width.size())),
            Operation::TwoOperands(_, width) => two((Read, width.size()), (Modify, width.size())),
            Operation::ThreeOperands(_, width) => {
                let size = width.size();
                three((Read, size), (Read, size), (Write, size))
            }
            Operation::Increment(width) => one((Modify, width.size())),
            Operation::Decrement(width) => one((Modify, width.size())),
            Operation::AddWithCarry => two((Read, Long), (Modify, Long)),
            Operation::SubtractWithCarry => two((Read, Long), (Modify, Long)),
            Operation::AddAlignedWord => two((Read, Word), (Modify, Word)),
            Operation::ExtendedMultiply => four(
                (Read, Long),
                (Read, Long),
                (Read, Long),
                (Write, Quad),
            ),
            Operation::ArithmeticShift => three((Read, Byte), (Read, Long), (Write, Long)),
            Operation::Rotate => three((Read, Byte), (Read, Long), (Write, Long)),
            Operation::ExtractField { .. } => four(
                (Read, Long),
                (Read, Byte),
                (Field, Byte),
                (Write, Long),
            ),
            Operation::InsertField => four((Read, Long), (Read, Long), (Read, Byte), (Field, Byte)),
            Operation::Branch(width) => one((Branch, width.size())),
            Operation::BranchIf(_) => one((Branch, Byte)),
            Operation::BranchOnLowBit(_) => two((Read, Long), (Branch, Byte)),
            Operation::BranchOnBit(_) => three((Read, Long), (Field, Byte), (Branch, Byte)),
            Operation::AddOneBranch { .. } => three((Read, Long), (Modify, Long), (Branch, Byte)),
            Operation::SubtractOneBranch { .. } => two((Modify, Long), (Branch, Byte)),
            Operation::AddCompareBranch(width) => {
                let size = width.size();
                four((Read, size), (Read, size), (Modify, size), (Branch, Word))
            }
            Operation::BranchToSubroutine(width) => one((Branch, width.size())),
            Operation::Jump => one((Address, Byte)),
            Operation::JumpToSubroutine => one((Address, Byte)),
            Operation::Case(width) => {
                let size = width.size();
                three((Read, size), (Read, size), (Read, size))
            }
            Operation::Long(operation) => operation.row(),
        }
    }

    /// Whether it is a long instruction.
    #[tactic(auto, unfolding(crate::specs::Row::is_long_operation))]
    pub fn is_long(self) -> bool
        ensures { result ≡ is_long_operation self }
    {
        match self {
            Operation::Long(_) => true,
            _ => false,
        }
    }

    /// Division, CASE, the fields of EXTV, EXTZV and INSV and the long instructions are always interpreted.
    #[tactic(auto, unfolding(crate::specs::Row::class_of_operation))]
    pub fn class(self) -> Class
        ensures { result ≡ class_of_operation self }
    {
        match self {
            Operation::TwoOperands(BinaryOperation::Divide, _)
            | Operation::ThreeOperands(BinaryOperation::Divide, _)
            | Operation::ExtractField { .. }
            | Operation::InsertField
            | Operation::Case(_)
            | Operation::Long(_) => Class::Tie,
            _ => Class::Translated,
        }
    }
}

/// The operands of an opcode; None for a reserved one.
pub fn row_of(opcode: u8) -> Option<Row>
    ensures value { result ≡ row_at opcode }
    ensures reserved { IsNone result ↔ (class_at opcode ≡ Class.Reserved) }
{
    let operation = operation_of(opcode)?;
    Some(operation.row())
}

/// What becomes of an opcode.
pub fn class_of(opcode: u8) -> Class
    ensures { result ≡ class_at opcode }
{
    match operation_of(opcode) {
        Some(operation) => operation.class(),
        None => Class::Reserved,
    }
}

/// Whether an opcode is that of a long instruction.
pub fn is_long(opcode: u8) -> bool
    ensures { result ≡ is_long_at opcode }
{
    match operation_of(opcode) {
        Some(operation) => operation.is_long(),
        None => false,
    }
}
