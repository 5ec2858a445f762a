// Integer arithmetic and logical instructions.
ghost use Rattle.std.specs.Prelude.{◌≡◌, ◌<◌, ◌*◌, ◌^◌, IfOk};
ghost use Rattle.vt_words.specs.Values.{IsSize, modulus};
ghost use Rattle.vax_meaning.specs.Play.{Plays, Uses};
ghost use Rattle.vax_meaning.specs.Arithmetic.{replace, give_coded, binary_of, divides_by_zero, finish_binary, two_operands, three_operands, increment, decrement, move_negated, convert, add_with_carry, subtract_with_carry, add_aligned, leave_aligned, add_aligned_word, extended_multiply, shift_of, arithmetic_shift, rotate};

use crate::codes::{carry_of, finish, go_to, set_all, set_codes, set_pc, sign_of};
use crate::cursor::Cursor;
use crate::evaluation::{Evaluated, location_of_place, value_of_place};
use crate::memory::{check, lock, low_bytes};
use crate::moves::give;
use crate::operands::{Location, put, register_of, store};
use vax_form::{BinaryOperation, End, Exception, Instr, RefKind, Size, Stop, Width};
use vt_words::{
    Coded, add, and_not, divide, extended_product, mul, negate, or, shift_left, shift_right, sub,
    with_signs, xor,
};

/// Puts a result back where the operand of that place was read, and sets its codes.
#[tactic(auto, unfolding(crate::specs::Arithmetic::replace))]
pub fn replace(
    cursor: &mut Cursor,
    instr: &Instr,
    place: usize,
    size: Size,
    answer: Coded,
    values: &[Evaluated; 6],
) -> Result<End, Stop>
    requires { place < 6 }
    ensures plays { Plays (replace instr.now place size answer values.now) cursor.old result cursor.new }
    ensures few { Uses 2 cursor.old result cursor.new }
{
    put(cursor, location_of_place(values, place), size, answer.value)?;
    set_all(cursor, answer);
    finish(cursor, instr.after)
}

/// Writes a result to the operand of that place, and sets its codes.
#[tactic(auto, unfolding(crate::specs::Arithmetic::give_coded))]
pub fn give_coded(
    cursor: &mut Cursor,
    instr: &Instr,
    place: usize,
    size: Size,
    answer: Coded,
    values: &[Evaluated; 6],
) -> Result<End, Stop>
    requires { place < 6 }
    ensures plays { Plays (give_coded instr.now place size answer values.now) cursor.old result cursor.new }
    ensures few { Uses 2 cursor.old result cursor.new }
{
    store(cursor, location_of_place(values, place), size, answer.value)?;
    set_all(cursor, answer);
    finish(cursor, instr.after)
}

/// What the operation makes of the second operand by the first.
#[tactic(auto, unfolding(crate::specs::Arithmetic::binary_of))]
fn binary_of(operation: BinaryOperation, bytes: u32, first: u64, second: u64, carry: bool) -> Coded
    requires size { IsSize bytes }
    requires first_fits { first < modulus bytes }
    requires second_fits { second < modulus bytes }
    ensures { result ≡ binary_of operation bytes first second carry }
{
    match operation {
        BinaryOperation::Add => add(bytes, second, first, false),
        BinaryOperation::Subtract => sub(bytes, second, first, false),
        BinaryOperation::Multiply => mul(bytes, second, first),
        BinaryOperation::Divide => divide(bytes, second, first),
        BinaryOperation::BitSet => with_signs(bytes, or(bytes, second, first), false, carry),
        BinaryOperation::BitClear => with_signs(bytes, and_not(bytes, second, first), false, carry),
        BinaryOperation::ExclusiveOr => with_signs(bytes, xor(bytes, second, first), false, carry),
    }
}

/// Goes on behind the instruction, or traps where it divided by zero or overflowed.
#[tactic(auto, unfolding(crate::specs::Arithmetic::finish_binary))]
fn finish_binary(
    cursor: &mut Cursor,
    operation: BinaryOperation,
    first: u64,
    pc: u32,
) -> Result<End, Stop>
    ensures plays { Plays (finish_binary operation first pc) cursor.old result cursor.new }
    ensures few { Uses 0 cursor.old result cursor.new }
{
    if operation == BinaryOperation::Divide && first == 0 {
        set_pc(cursor, pc);
        Ok(End::Traps(2))
    } else {
        finish(cursor, pc)
    }
}

/// ADD2, SUB2, MUL2, DIV2, BIS2, BIC2 and XOR2.
#[tactic(auto, unfolding(crate::specs::Arithmetic::two_operands))]
pub fn two_operands(
    cursor: &mut Cursor,
    instr: &Instr,
    operation: BinaryOperation,
    width: Width,
    values: &[Evaluated; 6],
) -> Result<End, Stop>
    ensures plays { Plays (two_operands instr.now operation width values.now) cursor.old result cursor.new }
    ensures few { Uses 2 cursor.old result cursor.new }
{
    let size = width.size();
    let first = value_of_place(values, 0, size);
    let second = value_of_place(values, 1, size);
    let answer = binary_of(operation, width.bytes(), first, second, carry_of(cursor));
    put(cursor, location_of_place(values, 1), size, answer.value)?;
    set_all(cursor, answer);
    finish_binary(cursor, operation, first, instr.after)
}

/// ADD3, SUB3, MUL3, DIV3, BIS3, BIC3 and XOR3.
#[tactic(auto, unfolding(crate::specs::Arithmetic::three_operands))]
pub fn three_operands(
    cursor: &mut Cursor,
    instr: &Instr,
    operation: BinaryOperation,
    width: Width,
    values: &[Evaluated; 6],
) -> Result<End, Stop>
    ensures plays { Plays (three_operands instr.now operation width values.now) cursor.old result cursor.new }
    ensures few { Uses 2 cursor.old result cursor.new }
{
    let size = width.size();
    let first = value_of_place(values, 0, size);
    let second = value_of_place(values, 1, size);
    let answer = binary_of(operation, width.bytes(), first, second, carry_of(cursor));
    store(cursor, location_of_place(values, 2), size, answer.value)?;
    set_all(cursor, answer);
    finish_binary(cursor, operation, first, instr.after)
}

/// INC.
pub fn increment(
    cursor: &mut Cursor,
    instr: &Instr,
    width: Width,
    values: &[Evaluated; 6],
) -> Result<End, Stop>
    ensures plays { Plays (increment instr.now width values.now) cursor.old result cursor.new }
    ensures few { Uses 2 cursor.old result cursor.new }
{
    let size = width.size();
    let sum = add(width.bytes(), value_of_place(values, 0, size), 1, false);
    replace(cursor, instr, 0, size, sum, values)
}

/// DEC.
pub fn decrement(
    cursor: &mut Cursor,
    instr: &Instr,
    width: Width,
    values: &[Evaluated; 6],
) -> Result<End, Stop>
    ensures plays { Plays (decrement instr.now width values.now) cursor.old result cursor.new }
    ensures few { Uses 2 cursor.old result cursor.new }
{
    let size = width.size();
    let difference = sub(width.bytes(), value_of_place(values, 0, size), 1, false);
    replace(cursor, instr, 0, size, difference, values)
}

/// MNEG.
pub fn move_negated(
    cursor: &mut Cursor,
    instr: &Instr,
    width: Width,
    values: &[Evaluated; 6],
) -> Result<End, Stop>
    ensures plays { Plays (move_negated instr.now width values.now) cursor.old result cursor.new }
    ensures few { Uses 2 cursor.old result cursor.new }
{
    let size = width.size();
    let negation = negate(width.bytes(), value_of_place(values, 0, size));
    give_coded(cursor, instr, 1, size, negation, values)
}

/// CVT.
pub fn convert(
    cursor: &mut Cursor,
    instr: &Instr,
    from: Width,
    to: Width,
    values: &[Evaluated; 6],
) -> Result<End, Stop>
    ensures plays { Plays (convert instr.now from to values.now) cursor.old result cursor.new }
    ensures few { Uses 2 cursor.old result cursor.new }
{
    let value = value_of_place(values, 0, from.size());
    let answer = vt_words::convert(from.bytes(), to.bytes(), value);
    give_coded(cursor, instr, 1, to.size(), answer, values)
}

/// ADWC.
#[tactic(auto, unfolding(crate::specs::Arithmetic::add_with_carry))]
pub fn add_with_carry(
    cursor: &mut Cursor,
    instr: &Instr,
    values: &[Evaluated; 6],
) -> Result<End, Stop>
    ensures plays { Plays (add_with_carry instr.now values.now) cursor.old result cursor.new }
    ensures few { Uses 2 cursor.old result cursor.new }
{
    let first = value_of_place(values, 0, Size::Long);
    let second = value_of_place(values, 1, Size::Long);
    let sum = add(4, second, first, carry_of(cursor));
    replace(cursor, instr, 1, Size::Long, sum, values)
}

/// SBWC.
#[tactic(auto, unfolding(crate::specs::Arithmetic::subtract_with_carry))]
pub fn subtract_with_carry(
    cursor: &mut Cursor,
    instr: &Instr,
    values: &[Evaluated; 6],
) -> Result<End, Stop>
    ensures plays { Plays (subtract_with_carry instr.now values.now) cursor.old result cursor.new }
    ensures few { Uses 2 cursor.old result cursor.new }
{
    let first = value_of_place(values, 0, Size::Long);
    let second = value_of_place(values, 1, Size::Long);
    let difference = sub(4, second, first, carry_of(cursor));
    replace(cursor, instr, 1, Size::Long, difference, values)
}

/// What ADAWI finds at its second operand; in memory it makes its one reference.
#[tactic(auto, unfolding(crate::specs::Arithmetic::add_aligned))]
fn add_aligned(cursor: &mut Cursor, location: Location, addend: u16) -> Result<u64, Stop>
    ensures plays { Plays (add_aligned location addend) cursor.old result cursor.new }
    ensures few { Uses 1 cursor.old result cursor.new }
    ensures bound { IfOk result (λ value. value < 2 ^ 16) }
{
    match location {
        Location::InRegister(number) => Ok(low_bytes(2, register_of(cursor, number) as u64)),
        Location::InMemory(address) => {
            if address % 2 == 1 {
                return Err(Stop::Fails(Exception::ReservedOperand));
            }
            check(cursor, address, 2, true)?;
            lock(cursor, address, 2, RefKind::Add(addend))
        }
    }
}

/// Leaves the sum of ADAWI in a register.
#[tactic(auto, unfolding(crate::specs::Arithmetic::leave_aligned))]
fn leave_aligned(cursor: &mut Cursor, location: Location, value: u64) -> Result<(), Stop>
    ensures plays { Plays (leave_aligned location value) cursor.old result cursor.new }
    ensures few { Uses 2 cursor.old result cursor.new }
{
    match location {
        Location::InRegister(_) => put(cursor, location, Size::Word, value),
        Location::InMemory(_) => Ok(()),
    }
}

/// ADAWI.
#[tactic(auto, unfolding(crate::specs::Arithmetic::add_aligned_word))]
pub fn add_aligned_word(
    cursor: &mut Cursor,
    instr: &Instr,
    values: &[Evaluated; 6],
) -> Result<End, Stop>
    ensures plays { Plays (add_aligned_word instr.now values.now) cursor.old result cursor.new }
    ensures few { Uses 3 cursor.old result cursor.new }
{
    let addend = value_of_place(values, 0, Size::Word);
    let found = add_aligned(cursor, location_of_place(values, 1), addend as u16)?;
    let sum = add(2, found, addend, false);
    leave_aligned(cursor, location_of_place(values, 1), sum.value)?;
    set_all(cursor, sum);
    finish(cursor, instr.after)
}

/// EMUL.
#[tactic(auto, unfolding(crate::specs::Arithmetic::extended_multiply))]
pub fn extended_multiply(
    cursor: &mut Cursor,
    instr: &Instr,
    values: &[Evaluated; 6],
) -> Result<End, Stop>
    ensures plays { Plays (extended_multiply instr.now values.now) cursor.old result cursor.new }
    ensures few { Uses 2 cursor.old result cursor.new }
{
    let first = value_of_place(values, 0, Size::Long);
    let second = value_of_place(values, 1, Size::Long);
    let addend = value_of_place(values, 2, Size::Long);
    let product = extended_product(first, second, addend);
    store(cursor, location_of_place(values, 3), Size::Quad, product)?;
    set_codes(
        cursor,
        sign_of(Size::Quad, product),
        product == 0,
        false,
        false,
    );
    go_to(cursor, instr.after)
}

/// A longword shifted by a signed byte.
fn shift_of(source: u64, count: u64) -> Coded
    requires source { source < 2 ^ 32 }
    requires count { count < 256 }
    ensures { result ≡ shift_of source count }
{
    if count < 128 {
        shift_left(source, count as u32)
    } else {
        with_signs(4, shift_right(source, 256 - count as u32), false, false)
    }
}

/// ASHL.
pub fn arithmetic_shift(
    cursor: &mut Cursor,
    instr: &Instr,
    values: &[Evaluated; 6],
) -> Result<End, Stop>
    ensures plays { Plays (arithmetic_shift instr.now values.now) cursor.old result cursor.new }
    ensures few { Uses 2 cursor.old result cursor.new }
{
    let count = value_of_place(values, 0, Size::Byte);
    let source = value_of_place(values, 1, Size::Long);
    give_coded(
        cursor,
        instr,
        2,
        Size::Long,
        shift_of(source, count),
        values,
    )
}

/// ROTL.
pub fn rotate(cursor: &mut Cursor, instr: &Instr, values: &[Evaluated; 6]) -> Result<End, Stop>
    ensures plays { Plays (rotate instr.now values.now) cursor.old result cursor.new }
    ensures few { Uses 2 cursor.old result cursor.new }
{
    let count = value_of_place(values, 0, Size::Byte) % 32;
    let source = value_of_place(values, 1, Size::Long);
    let value = vt_words::rotate(source as u32, count as u32) as u64;
    give(cursor, instr, 2, Size::Long, value, values)
}
