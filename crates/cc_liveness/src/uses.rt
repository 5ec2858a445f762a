// What each operation does to the condition codes.
ghost use Rattle.std.specs.Prelude.{◌≡◌};
ghost use Rattle.vax_form.specs.Codes.{all_but_carry};
ghost use Rattle.cc_liveness.specs.Uses.{tested_by, written_by_binary, written_by_long, code_use_of};

use vax_form::{BinaryOperation, Condition, Flags, LongOperation, Operation};

/// What an instruction does to the condition codes: those that it reads, those that it writes, and whether it ends: the
/// next PC may be another than that of the instruction behind it.
#[derive(Clone, Copy, Debug, PartialEq, Eq)]
pub struct CodeUse {
    pub reads: Flags,
    pub writes: Flags,
    pub ends: bool,
}

/// A set of codes.
fn codes(n: bool, z: bool, v: bool, c: bool) -> Flags
    ensures { result ≡ record { n = n; z = z; v = v; c = c } }
{
    Flags { n, z, v, c }
}

fn all_codes_but_carry() -> Flags
    ensures { result ≡ all_but_carry }
{
    codes(true, true, true, false)
}

/// The codes that a conditional branch tests.
#[tactic(auto, unfolding(crate::specs::Uses::tested_by))]
fn tested(condition: Condition) -> Flags
    ensures { result ≡ tested_by condition }
{
    match condition {
        Condition::NotEqual | Condition::Equal => codes(false, true, false, false),
        Condition::Greater | Condition::LessOrEqual => codes(true, true, false, false),
        Condition::GreaterOrEqual | Condition::Less => codes(true, false, false, false),
        Condition::GreaterUnsigned | Condition::LessOrEqualUnsigned => {
            codes(false, true, false, true)
        }
        Condition::OverflowClear | Condition::OverflowSet => codes(false, false, true, false),
        Condition::CarryClear | Condition::CarrySet => codes(false, false, false, true),
    }
}

#[tactic(auto, unfolding(crate::specs::Uses::code_use_of))]
fn codes_read(operation: Operation) -> Flags
    ensures { result ≡ (code_use_of operation).reads }
{
    match operation {
        Operation::AddWithCarry | Operation::SubtractWithCarry => codes(false, false, false, true),
        Operation::MovePsl | Operation::BitSetPsw | Operation::BitClearPsw => Flags::ALL,
        Operation::BranchIf(condition) => tested(condition),
        _ => Flags::NONE,
    }
}

#[tactic(auto, unfolding(crate::specs::Uses::written_by_binary))]
fn written_by_binary(operation: BinaryOperation) -> Flags
    ensures { result ≡ written_by_binary operation }
{
    match operation {
        BinaryOperation::Add
        | BinaryOperation::Subtract
        | BinaryOperation::Multiply
        | BinaryOperation::Divide => Flags::ALL,
        BinaryOperation::BitSet | BinaryOperation::BitClear | BinaryOperation::ExclusiveOr => {
            all_codes_but_carry()
        }
    }
}

#[tactic(auto, unfolding(crate::specs::Uses::written_by_long))]
fn written_by_long(operation: LongOperation) -> Flags
    ensures { result ≡ written_by_long operation }
{
    match operation {
        LongOperation::PushRegisters | LongOperation::PopRegisters => Flags::NONE,
        _ => Flags::ALL,
    }
}

#[tactic(auto, unfolding(crate::specs::Uses::code_use_of))]
fn codes_written(operation: Operation) -> Flags
    ensures { result ≡ (code_use_of operation).writes }
{
    match operation {
        Operation::NoOperation
        | Operation::Breakpoint
        | Operation::ChangeMode
        | Operation::MovePsl
        | Operation::InsertField
        | Operation::Branch(_)
        | Operation::BranchIf(_)
        | Operation::BranchOnLowBit(_)
        | Operation::BranchOnBit(_)
        | Operation::BranchToSubroutine(_)
        | Operation::Jump
        | Operation::JumpToSubroutine
        | Operation::ReturnFromSubroutine => Flags::NONE,
        Operation::Move(_)
        | Operation::Clear(_)
        | Operation::MoveAddress(_)
        | Operation::PushAddress(_)
        | Operation::PushLong
        | Operation::MoveZeroExtended { .. }
        | Operation::MoveComplemented(_)
        | Operation::BitTest(_)
        | Operation::Rotate
        | Operation::ExtractField { .. } => all_codes_but_carry(),
        Operation::AddOneBranch { .. }
        | Operation::SubtractOneBranch { .. }
        | Operation::AddCompareBranch(_) => all_codes_but_carry(),
        Operation::BitClearPsw | Operation::BitSetPsw => Flags::ALL,
        Operation::TwoOperands(binary, _) | Operation::ThreeOperands(binary, _) => {
            written_by_binary(binary)
        }
        Operation::Long(long) => written_by_long(long),
        Operation::Convert { .. }
        | Operation::MoveNegated(_)
        | Operation::Compare(_)
        | Operation::Test(_)
        | Operation::Increment(_)
        | Operation::Decrement(_)
        | Operation::AddWithCarry
        | Operation::SubtractWithCarry
        | Operation::AddAlignedWord
        | Operation::ExtendedMultiply
        | Operation::ArithmeticShift
        | Operation::Case(_) => Flags::ALL,
    }
}

#[tactic(auto, unfolding(crate::specs::Uses::code_use_of))]
fn may_go_elsewhere(operation: Operation) -> bool
    ensures { result ≡ (code_use_of operation).ends }
{
    match operation {
        Operation::Branch(_)
        | Operation::BranchIf(_)
        | Operation::BranchOnLowBit(_)
        | Operation::BranchOnBit(_)
        | Operation::AddOneBranch { .. }
        | Operation::SubtractOneBranch { .. }
        | Operation::AddCompareBranch(_)
        | Operation::BranchToSubroutine(_)
        | Operation::Jump
        | Operation::JumpToSubroutine
        | Operation::ReturnFromSubroutine
        | Operation::Case(_) => true,
        Operation::Long(long) => matches!(
            long,
            LongOperation::CallGeneral | LongOperation::CallStack | LongOperation::Return
        ),
        _ => false,
    }
}

/// What an operation does to the condition codes.
pub fn code_use(operation: Operation) -> CodeUse
    ensures { result ≡ code_use_of operation }
{
    CodeUse {
        reads: codes_read(operation),
        writes: codes_written(operation),
        ends: may_go_elsewhere(operation),
    }
}
