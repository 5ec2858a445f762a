// The table of where each operation's condition codes come from.
ghost use Rattle.std.specs.Prelude.{◌≡◌};
ghost use Rattle.micro_ops.specs.Sources.{from, sources_of_binary, sources_of_long, sources_of};

use crate::codes::{CodeSource, CodeSources};
use vax_form::{BinaryOperation, LongOperation, Operation, Size};

fn from(nzv: CodeSource, c: CodeSource) -> CodeSources
    ensures { result ≡ from nzv c }
{
    CodeSources { nzv, c }
}

fn of_binary(operation: BinaryOperation, size: Size) -> CodeSources
    ensures { result ≡ sources_of_binary operation size }
{
    match operation {
        BinaryOperation::Add => from(CodeSource::Add(size), CodeSource::Add(size)),
        BinaryOperation::Subtract => from(CodeSource::Sub(size), CodeSource::Sub(size)),
        BinaryOperation::Multiply | BinaryOperation::Divide => from(
            CodeSource::Computed(size),
            CodeSource::Zero,
        ),
        _ => from(CodeSource::Result(size), CodeSource::Kept),
    }
}

fn of_long(operation: LongOperation) -> CodeSources
    ensures { result ≡ sources_of_long operation }
{
    match operation {
        LongOperation::CallGeneral | LongOperation::CallStack | LongOperation::MoveCharacters =>
            from(
                CodeSource::Computed(Size::Long),
                CodeSource::Computed(Size::Long),
            ),
        _ => from(CodeSource::Kept, CodeSource::Kept),
    }
}

/// Where an operation's condition codes come from when its program leaves.
#[tactic(auto, unfolding(crate::specs::Sources::sources_of))]
pub fn sources_of(operation: Operation) -> CodeSources
    ensures { result ≡ sources_of operation }
{
    use CodeSource::{Add, Compare, Computed, Kept, Psw, Result, Sub, Zero};
    let long = Size::Long;
    match operation {
        Operation::Move(size) | Operation::Clear(size) => from(Result(size), Kept),
        Operation::MoveAddress(_) | Operation::PushAddress(_) => from(Result(long), Kept),
        Operation::PushLong | Operation::Rotate => from(Result(long), Kept),
        Operation::MoveZeroExtended { to, .. } => from(Result(to.size()), Kept),
        Operation::Convert { to, .. } => from(Computed(to.size()), Zero),
        Operation::MoveComplemented(width) => from(Result(width.size()), Kept),
        Operation::MoveNegated(width) => from(Sub(width.size()), Sub(width.size())),
        Operation::BitSetPsw | Operation::BitClearPsw => from(Psw, Psw),
        Operation::Compare(width) => from(Compare(width.size()), Compare(width.size())),
        Operation::Test(width) => from(Result(width.size()), Zero),
        Operation::BitTest(width) => from(Result(width.size()), Kept),
        Operation::TwoOperands(operation, width) => of_binary(operation, width.size()),
        Operation::ThreeOperands(operation, width) => of_binary(operation, width.size()),
        Operation::Increment(width) => from(Add(width.size()), Add(width.size())),
        Operation::Decrement(width) => from(Sub(width.size()), Sub(width.size())),
        Operation::AddWithCarry | Operation::SubtractWithCarry => from(
            Computed(long),
            Computed(long),
        ),
        Operation::AddAlignedWord => from(Add(Size::Word), Add(Size::Word)),
        Operation::ExtendedMultiply => from(Result(Size::Quad), Zero),
        Operation::ArithmeticShift => from(Computed(long), Zero),
        Operation::AddOneBranch { .. } | Operation::SubtractOneBranch { .. } => from(
            Computed(long),
            Kept,
        ),
        Operation::AddCompareBranch(width) => from(Computed(width.size()), Kept),
        Operation::Long(operation) => of_long(operation),
        _ => from(Kept, Kept),
    }
}
