// The table of instructions that evaluate operands.
ghost use Rattle.std.specs.Prelude.{◌≡◌, IfOk, MatchOption};
ghost use Rattle.micro_ops.specs.Sources.{sources_of};
ghost use Rattle.micro_lower.specs.Rows.{program_where, move_row, arithmetic_row, control_row, row_of, own_program_of, row_program_of};

use crate::arithmetic::{
    add_aligned_word, add_with_carry, bit_test, by_one, compare, subtract_with_carry, test_value,
    three_operands, two_operands,
};
use crate::bits::branch_on_bit;
use crate::jumps::{
    add_compare_branch, add_one_branch, branch_on_low_bit, change_mode, jump, jump_to_subroutine,
    subtract_one_branch,
};
use crate::moves::{
    clear, convert, move_address, move_complemented, move_negated, move_value, move_zero_extended,
    push,
};
use crate::products::extended_multiply;
use crate::rows::{addressed, read};
use crate::shifts::{arithmetic_shift, literal_shift, rotate};
use crate::status::{clear_psw, move_psl, set_psw};
use micro_ops::{CodeSources, Micro, MicroOp, sources_of};
use std::alloc::Global;
use vax_form::{BinaryOperation, Instr, Operation, Size, WantOfMemory};

/// Moves and pushes.
#[tactic(auto, unfolding(crate::specs::Rows::move_row))]
fn lower_move(
    alloc: Global,
    codes: CodeSources,
    operation: Operation,
    instr: &Instr,
) -> Option<Result<Vec<Micro>, WantOfMemory>>
    ensures { MatchOption result (program_where codes instr.now (move_row operation instr.now) ≡ None) (λ made. IfOk made (λ p. program_where codes instr.now (move_row operation instr.now) ≡ Some p.items)) }
{
    match operation {
        Operation::Move(size) => Some(move_value(alloc, codes, instr, size)),
        Operation::MoveZeroExtended { from, to } => Some(move_zero_extended(
            alloc, codes, instr, from, to,
        )),
        Operation::Clear(size) => Some(clear(alloc, codes, instr, size)),
        Operation::MoveComplemented(width) => Some(move_complemented(alloc, codes, instr, width)),
        Operation::MoveNegated(width) => Some(move_negated(alloc, codes, instr, width)),
        Operation::Convert { from, to } => Some(convert(alloc, codes, instr, from, to)),
        Operation::MoveAddress(size) => Some(move_address(alloc, codes, instr, size)),
        Operation::PushAddress(size) => Some(push(alloc, codes, instr, addressed(size, 2))),
        Operation::PushLong => Some(push(alloc, codes, instr, read(Size::Long, 2, 1))),
        Operation::MovePsl => Some(move_psl(alloc, codes, instr)),
        Operation::BitSetPsw => Some(set_psw(alloc, codes, instr)),
        Operation::BitClearPsw => Some(clear_psw(alloc, codes, instr)),
        _ => None,
    }
}

/// Arithmetic, logical operations and tests; a division has no program.
#[tactic(auto, unfolding(crate::specs::Rows::arithmetic_row))]
fn lower_arithmetic(
    alloc: Global,
    codes: CodeSources,
    operation: Operation,
    instr: &Instr,
) -> Option<Result<Vec<Micro>, WantOfMemory>>
    ensures { MatchOption result (program_where codes instr.now (arithmetic_row operation instr.now) ≡ None) (λ made. IfOk made (λ p. program_where codes instr.now (arithmetic_row operation instr.now) ≡ Some p.items)) }
{
    match operation {
        Operation::Compare(width) => Some(compare(alloc, codes, instr, width)),
        Operation::Test(width) => Some(test_value(alloc, codes, instr, width)),
        Operation::BitTest(width) => Some(bit_test(alloc, codes, instr, width)),
        Operation::TwoOperands(BinaryOperation::Divide, _)
        | Operation::ThreeOperands(BinaryOperation::Divide, _) => None,
        Operation::TwoOperands(operation, width) => Some(two_operands(
            alloc, codes, instr, operation, width,
        )),
        Operation::ThreeOperands(operation, width) => Some(three_operands(
            alloc, codes, instr, operation, width,
        )),
        Operation::Increment(width) => Some(by_one(alloc, codes, instr, MicroOp::Add, width)),
        Operation::Decrement(width) => Some(by_one(alloc, codes, instr, MicroOp::Sub, width)),
        Operation::AddWithCarry => Some(add_with_carry(alloc, codes, instr)),
        Operation::SubtractWithCarry => Some(subtract_with_carry(alloc, codes, instr)),
        Operation::AddAlignedWord => Some(add_aligned_word(alloc, codes, instr)),
        Operation::ArithmeticShift => Some(arithmetic_shift(alloc, codes, instr)),
        Operation::Rotate => Some(rotate(alloc, codes, instr)),
        _ => None,
    }
}

/// Branches, loops, jumps and services.
#[tactic(auto, unfolding(crate::specs::Rows::control_row))]
fn lower_control(
    alloc: Global,
    codes: CodeSources,
    operation: Operation,
    instr: &Instr,
) -> Option<Result<Vec<Micro>, WantOfMemory>>
    ensures { MatchOption result (program_where codes instr.now (control_row operation instr.now) ≡ None) (λ made. IfOk made (λ p. program_where codes instr.now (control_row operation instr.now) ≡ Some p.items)) }
{
    match operation {
        Operation::BranchOnLowBit(state) => Some(branch_on_low_bit(alloc, codes, instr, state)),
        Operation::BranchOnBit(branch) => Some(branch_on_bit(alloc, codes, instr, branch)),
        Operation::SubtractOneBranch { or_equal } => Some(subtract_one_branch(
            alloc, codes, instr, or_equal,
        )),
        Operation::AddOneBranch { or_equal } => Some(add_one_branch(alloc, codes, instr, or_equal)),
        Operation::AddCompareBranch(width) => Some(add_compare_branch(alloc, codes, instr, width)),
        Operation::Jump => Some(jump(alloc, codes, instr)),
        Operation::JumpToSubroutine => Some(jump_to_subroutine(alloc, codes, instr)),
        Operation::ChangeMode => Some(change_mode(alloc, codes, instr)),
        _ => None,
    }
}

/// EMUL, which has no row, and ASHL by a literal count.
#[tactic(auto, unfolding(crate::specs::Rows::own_program_of))]
fn lower_own(
    alloc: Global,
    operation: Operation,
    instr: &Instr,
) -> Option<Result<Vec<Micro>, WantOfMemory>>
    ensures { MatchOption result (own_program_of operation instr.now ≡ None) (λ made. IfOk made (λ p. own_program_of operation instr.now ≡ Some p.items)) }
{
    match operation {
        Operation::ExtendedMultiply => Some(extended_multiply(alloc, instr)),
        Operation::ArithmeticShift => literal_shift(alloc, instr),
        _ => None,
    }
}

/// The program of an operation that evaluates operands; None where the operation has none.
pub(crate) fn lower_row(
    alloc: Global,
    operation: Operation,
    instr: &Instr,
) -> Option<Result<Vec<Micro>, WantOfMemory>>
    ensures { MatchOption result (row_program_of operation instr.now ≡ None) (λ made. IfOk made (λ p. row_program_of operation instr.now ≡ Some p.items)) }
{
    let codes = sources_of(operation);
    if let Some(made) = lower_own(alloc, operation, instr) {
        return Some(made);
    }
    if let Some(made) = lower_move(alloc, codes, operation, instr) {
        return Some(made);
    }
    if let Some(made) = lower_arithmetic(alloc, codes, operation, instr) {
        return Some(made);
    }
    lower_control(alloc, codes, operation, instr)
}
