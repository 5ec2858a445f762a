// The table of what each operation does.
ghost use Rattle.std.specs.Prelude.{◌≡◌};
ghost use Rattle.vax_meaning.specs.Fed.{Fed};
ghost use Rattle.vax_meaning.specs.Play.{Plays, Uses};
ghost use Rattle.vax_meaning.specs.Instructions.{body, operation_script};

use crate::arithmetic::{
    add_aligned_word, add_with_carry, arithmetic_shift, convert, decrement, extended_multiply,
    increment, move_negated, rotate, subtract_with_carry, three_operands, two_operands,
};
use crate::branches::{
    add_compare_branch, add_one_branch, branch, branch_if, branch_on_low_bit, branch_to_subroutine,
    case_of, jump, jump_to_subroutine, return_from_subroutine, subtract_one_branch,
};
use crate::codes::go_to;
use crate::control::change_mode;
use crate::cursor::Cursor;
use crate::evaluation::{Evaluated, evaluated_row, operands_from};
use crate::fields::{branch_on_bit, extract_field, insert_field};
use crate::moves::{
    bit_test, change_psw, clear, compare, move_address, move_complemented, move_psl, move_value,
    move_zero_extended, push_value, test_value,
};
use vax_form::{End, Exception, Instr, Operation, Stop};

/// Does what an operation does once its operands are evaluated. The long instructions have scripts of their own.
#[tactic(auto, using(crate::proofs::Feeding::fed_of_plays), unfolding(crate::specs::Instructions::body))]
pub fn body(
    cursor: &mut Cursor,
    operation: Operation,
    instr: &Instr,
    thread: u8,
    values: &[Evaluated; 6],
) -> Result<End, Stop>
    ensures plays { Plays (body operation instr.now thread values.now) cursor.old result cursor.new }
    ensures fed { Fed (body operation instr.now thread values.now) cursor.old result cursor.new }
    ensures few { Uses 4 cursor.old result cursor.new }
{
    match operation {
        Operation::NoOperation => go_to(cursor, instr.after),
        Operation::Breakpoint => Err(Stop::Fails(Exception::Breakpoint)),
        Operation::ChangeMode => change_mode(cursor, instr, thread, values),
        Operation::Move(size) => move_value(cursor, instr, size, values),
        Operation::Clear(size) => clear(cursor, instr, size, values),
        Operation::MoveAddress(_) => move_address(cursor, instr, values),
        Operation::PushAddress(_) | Operation::PushLong => push_value(cursor, instr, values),
        Operation::MoveZeroExtended { from, to } => move_zero_extended(
            cursor, instr, from, to, values,
        ),
        Operation::Convert { from, to } => convert(cursor, instr, from, to, values),
        Operation::MoveComplemented(width) => move_complemented(cursor, instr, width, values),
        Operation::MoveNegated(width) => move_negated(cursor, instr, width, values),
        Operation::MovePsl => move_psl(cursor, instr, values),
        Operation::BitSetPsw => change_psw(cursor, instr, true, values),
        Operation::BitClearPsw => change_psw(cursor, instr, false, values),
        Operation::Compare(width) => compare(cursor, instr, width, values),
        Operation::Test(width) => test_value(cursor, instr, width, values),
        Operation::BitTest(width) => bit_test(cursor, instr, width, values),
        Operation::TwoOperands(binary, width) => two_operands(cursor, instr, binary, width, values),
        Operation::ThreeOperands(binary, width) => {
            three_operands(cursor, instr, binary, width, values)
        }
        Operation::Increment(width) => increment(cursor, instr, width, values),
        Operation::Decrement(width) => decrement(cursor, instr, width, values),
        Operation::AddWithCarry => add_with_carry(cursor, instr, values),
        Operation::SubtractWithCarry => subtract_with_carry(cursor, instr, values),
        Operation::AddAlignedWord => add_aligned_word(cursor, instr, values),
        Operation::ExtendedMultiply => extended_multiply(cursor, instr, values),
        Operation::ArithmeticShift => arithmetic_shift(cursor, instr, values),
        Operation::Rotate => rotate(cursor, instr, values),
        Operation::ExtractField { signed } => extract_field(cursor, instr, signed, values),
        Operation::InsertField => insert_field(cursor, instr, values),
        Operation::Branch(_) => branch(cursor, instr),
        Operation::BranchIf(condition) => branch_if(cursor, instr, condition),
        Operation::BranchOnLowBit(state) => branch_on_low_bit(cursor, instr, state, values),
        Operation::BranchOnBit(branch) => branch_on_bit(cursor, instr, branch, values),
        Operation::AddOneBranch { or_equal } => add_one_branch(cursor, instr, or_equal, values),
        Operation::SubtractOneBranch { or_equal } => subtract_one_branch(
            cursor, instr, or_equal, values,
        ),
        Operation::AddCompareBranch(width) => add_compare_branch(cursor, instr, width, values),
        Operation::BranchToSubroutine(_) => branch_to_subroutine(cursor, instr),
        Operation::Jump => jump(cursor, values),
        Operation::JumpToSubroutine => jump_to_subroutine(cursor, instr, values),
        Operation::ReturnFromSubroutine => return_from_subroutine(cursor),
        Operation::Case(width) => case_of(cursor, instr, width, values),
        Operation::Long(_) => Err(Stop::Fails(Exception::ReservedInstruction)),
    }
}

/// Goes through the script of an operation.
#[tactic(auto, unfolding(crate::specs::Instructions::operation_script))]
pub fn operation_run(
    cursor: &mut Cursor,
    operation: Operation,
    instr: &Instr,
    thread: u8,
) -> Result<End, Stop>
    ensures plays { Plays (operation_script operation instr.now thread) cursor.old result cursor.new }
    ensures few { Uses 28 cursor.old result cursor.new }
{
    let row = evaluated_row(operation);
    let values = operands_from(cursor, &row, instr)?;
    body(cursor, operation, instr, thread, &values)
}
