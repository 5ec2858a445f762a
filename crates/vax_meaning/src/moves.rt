// Moves, comparisons and the processor status.
ghost use Rattle.std.specs.Prelude.{◌≡◌, ◌<◌, ◌*◌, ◌^◌};
ghost use Rattle.vax_form.specs.Size.{bytes_of, size_of};
ghost use Rattle.vax_form.specs.Script.{changed};
ghost use Rattle.vax_meaning.specs.Play.{Plays, Uses, view};
ghost use Rattle.vax_meaning.specs.Moves.{give, move_value, clear, move_address, move_complemented, move_zero_extended, push, push_value, with_comparison, compare, test_value, bit_test, move_psl, change_psw};

use crate::codes::{carry_of, go_to, set_by_result, set_codes, sign_of};
use crate::cursor::Cursor;
use crate::evaluation::{Evaluated, location_of_place, value_of_place};
use crate::memory::{check, write};
use crate::operands::{register_of, set_register_of, store};
use vax_form::{End, Exception, Instr, SP, Size, Stop, Width};
use vt_words::{and, complement, signed};

/// Writes a result to the operand of that place, and sets the codes by it.
#[tactic(auto, unfolding(crate::specs::Moves::give))]
pub fn give(
    cursor: &mut Cursor,
    instr: &Instr,
    place: usize,
    size: Size,
    value: u64,
    values: &[Evaluated; 6],
) -> Result<End, Stop>
    requires { place < 6 }
    ensures plays { Plays (give instr.now place size value values.now) cursor.old result cursor.new }
    ensures few { Uses 2 cursor.old result cursor.new }
{
    store(cursor, location_of_place(values, place), size, value)?;
    set_by_result(cursor, size, value);
    go_to(cursor, instr.after)
}

/// MOV.
pub fn move_value(
    cursor: &mut Cursor,
    instr: &Instr,
    size: Size,
    values: &[Evaluated; 6],
) -> Result<End, Stop>
    ensures plays { Plays (move_value instr.now size values.now) cursor.old result cursor.new }
    ensures few { Uses 2 cursor.old result cursor.new }
{
    give(
        cursor,
        instr,
        1,
        size,
        value_of_place(values, 0, size),
        values,
    )
}

/// CLR.
pub fn clear(
    cursor: &mut Cursor,
    instr: &Instr,
    size: Size,
    values: &[Evaluated; 6],
) -> Result<End, Stop>
    ensures plays { Plays (clear instr.now size values.now) cursor.old result cursor.new }
    ensures few { Uses 2 cursor.old result cursor.new }
{
    give(cursor, instr, 0, size, 0, values)
}

/// MOVA.
pub fn move_address(
    cursor: &mut Cursor,
    instr: &Instr,
    values: &[Evaluated; 6],
) -> Result<End, Stop>
    ensures plays { Plays (move_address instr.now values.now) cursor.old result cursor.new }
    ensures few { Uses 2 cursor.old result cursor.new }
{
    let address = value_of_place(values, 0, Size::Long);
    give(cursor, instr, 1, Size::Long, address, values)
}

/// MCOM.
pub fn move_complemented(
    cursor: &mut Cursor,
    instr: &Instr,
    width: Width,
    values: &[Evaluated; 6],
) -> Result<End, Stop>
    ensures plays { Plays (move_complemented instr.now width values.now) cursor.old result cursor.new }
    ensures few { Uses 2 cursor.old result cursor.new }
{
    let size = width.size();
    let value = complement(width.bytes(), value_of_place(values, 0, size));
    give(cursor, instr, 1, size, value, values)
}

/// MOVZ.
#[tactic(auto, unfolding(crate::specs::Moves::move_zero_extended))]
pub fn move_zero_extended(
    cursor: &mut Cursor,
    instr: &Instr,
    from: Width,
    to: Width,
    values: &[Evaluated; 6],
) -> Result<End, Stop>
    ensures plays { Plays (move_zero_extended instr.now from to values.now) cursor.old result cursor.new }
    ensures few { Uses 2 cursor.old result cursor.new }
{
    let value = value_of_place(values, 0, from.size());
    store(cursor, location_of_place(values, 1), to.size(), value)?;
    let c = carry_of(cursor);
    set_codes(cursor, false, value == 0, false, c);
    go_to(cursor, instr.after)
}

/// Pushes a longword.
#[tactic(auto, unfolding(crate::specs::Moves::push))]
pub fn push(cursor: &mut Cursor, value: u64) -> Result<(), Stop>
    ensures plays { Plays (push value) cursor.old result cursor.new }
    ensures few { Uses 2 cursor.old result cursor.new }
{
    let top = register_of(cursor, SP).wrapping_sub(4);
    check(cursor, top, 4, true)?;
    write(cursor, top, 4, value)?;
    set_register_of(cursor, SP, top);
    Ok(())
}

/// PUSHL and PUSHA.
#[tactic(auto, unfolding(crate::specs::Moves::push_value))]
pub fn push_value(cursor: &mut Cursor, instr: &Instr, values: &[Evaluated; 6]) -> Result<End, Stop>
    ensures plays { Plays (push_value instr.now values.now) cursor.old result cursor.new }
    ensures few { Uses 2 cursor.old result cursor.new }
{
    let value = value_of_place(values, 0, Size::Long);
    push(cursor, value)?;
    set_by_result(cursor, Size::Long, value);
    go_to(cursor, instr.after)
}

/// Sets the codes as a comparison of two values does.
pub fn set_compared(cursor: &mut Cursor, width: Width, first: u64, second: u64)
    requires first { first < 2 ^ (8 * bytes_of (size_of width)) }
    requires second { second < 2 ^ (8 * bytes_of (size_of width)) }
    ensures { view cursor.new ≡ changed (with_comparison width first second) (view cursor.old) }
{
    let n = signed(width.bytes(), first) < signed(width.bytes(), second);
    set_codes(cursor, n, first == second, false, first < second);
}

/// CMP.
#[tactic(auto, unfolding(crate::specs::Moves::compare))]
pub fn compare(
    cursor: &mut Cursor,
    instr: &Instr,
    width: Width,
    values: &[Evaluated; 6],
) -> Result<End, Stop>
    ensures plays { Plays (compare instr.now width values.now) cursor.old result cursor.new }
    ensures few { Uses 0 cursor.old result cursor.new }
{
    let first = value_of_place(values, 0, width.size());
    let second = value_of_place(values, 1, width.size());
    set_compared(cursor, width, first, second);
    go_to(cursor, instr.after)
}

/// TST.
#[tactic(auto, unfolding(crate::specs::Moves::test_value))]
pub fn test_value(
    cursor: &mut Cursor,
    instr: &Instr,
    width: Width,
    values: &[Evaluated; 6],
) -> Result<End, Stop>
    ensures plays { Plays (test_value instr.now width values.now) cursor.old result cursor.new }
    ensures few { Uses 0 cursor.old result cursor.new }
{
    let value = value_of_place(values, 0, width.size());
    set_codes(
        cursor,
        sign_of(width.size(), value),
        value == 0,
        false,
        false,
    );
    go_to(cursor, instr.after)
}

/// BIT.
#[tactic(auto, unfolding(crate::specs::Moves::bit_test))]
pub fn bit_test(
    cursor: &mut Cursor,
    instr: &Instr,
    width: Width,
    values: &[Evaluated; 6],
) -> Result<End, Stop>
    ensures plays { Plays (bit_test instr.now width values.now) cursor.old result cursor.new }
    ensures few { Uses 0 cursor.old result cursor.new }
{
    let first = value_of_place(values, 0, width.size());
    let second = value_of_place(values, 1, width.size());
    set_by_result(cursor, width.size(), and(width.bytes(), first, second));
    go_to(cursor, instr.after)
}

/// MOVPSL.
#[tactic(auto, unfolding(crate::specs::Moves::move_psl))]
pub fn move_psl(cursor: &mut Cursor, instr: &Instr, values: &[Evaluated; 6]) -> Result<End, Stop>
    ensures plays { Plays (move_psl instr.now values.now) cursor.old result cursor.new }
    ensures few { Uses 2 cursor.old result cursor.new }
{
    let value = cursor.state.psl() as u64;
    store(cursor, location_of_place(values, 0), Size::Long, value)?;
    go_to(cursor, instr.after)
}

/// BISPSW, and BICPSW where the bits are not set but cleared.
#[tactic(auto, unfolding(crate::specs::Moves::change_psw))]
pub fn change_psw(
    cursor: &mut Cursor,
    instr: &Instr,
    set: bool,
    values: &[Evaluated; 6],
) -> Result<End, Stop>
    ensures plays { Plays (change_psw instr.now set values.now) cursor.old result cursor.new }
    ensures few { Uses 0 cursor.old result cursor.new }
{
    let mask = value_of_place(values, 0, Size::Word);
    if mask > 255 {
        return Err(Stop::Fails(Exception::ReservedOperand));
    }
    let mask = mask as u16;
    if set {
        cursor.state.psw |= mask;
    } else {
        cursor.state.psw &= 65535 - mask;
    }
    go_to(cursor, instr.after)
}
