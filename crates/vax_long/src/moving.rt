// Strings that are moved: MOVC3 and MOVC5.
ghost use Rattle.std.specs.Prelude.{◌≡◌, ◌*◌};
ghost use Rattle.vax_form.specs.Script.{changed};
ghost use Rattle.vax_meaning.specs.Play.{Plays, Uses, view};
ghost use Rattle.vax_long.specs.Strings.{beginning, move_bytes, move_string, fill_bytes, with_moved, move_characters, move_characters_filled};

use crate::bytes::{beside, beyond, check_string, read_byte, write_byte};
use vax_form::{End, Instr, Size, Stop, Width};
use vax_meaning::{
    Cursor, Evaluated, go_to, set_codes, set_compared, set_register_of, value_of_place,
};

/// The byte at which a string is begun: its first, or its last.
pub fn beginning(down: bool, address: u32, count: u16) -> u32
    ensures { result ≡ beginning down address count }
{
    if down {
        beside(true, beyond(address, count))
    } else {
        address
    }
}

/// Moves bytes upward or downward.
#[tactic(auto, unfolding(crate::specs::Strings::move_bytes))]
pub fn move_bytes(
    cursor: &mut Cursor,
    down: bool,
    count: u16,
    from: u32,
    to: u32,
) -> Result<(), Stop>
    ensures plays { Plays (move_bytes down count from to) cursor.old result cursor.new }
    ensures few { Uses (2 * count) cursor.old result cursor.new }
{
    let mut source = from;
    let mut target = to;
    for _ in 0..count {
        let byte = read_byte(cursor, source)?;
        write_byte(cursor, target, byte)?;
        source = beside(down, source);
        target = beside(down, target);
    }
    Ok(())
}

/// Moves a string.
#[tactic(auto, unfolding(crate::specs::Strings::move_string))]
pub fn move_string(
    cursor: &mut Cursor,
    count: u16,
    source: u32,
    destination: u32,
) -> Result<(), Stop>
    ensures plays { Plays (move_string count source destination) cursor.old result cursor.new }
    ensures few { Uses (2 * count) cursor.old result cursor.new }
{
    let down = destination > source;
    let from = beginning(down, source, count);
    let to = beginning(down, destination, count);
    move_bytes(cursor, down, count, from, to)
}

/// Writes a byte so many times, upward.
#[tactic(auto, unfolding(crate::specs::Strings::fill_bytes))]
pub fn fill_bytes(cursor: &mut Cursor, count: u16, to: u32, byte: u8) -> Result<(), Stop>
    ensures plays { Plays (fill_bytes count to byte) cursor.old result cursor.new }
    ensures few { Uses count cursor.old result cursor.new }
{
    let mut target = to;
    for _ in 0..count {
        write_byte(cursor, target, byte)?;
        target = beside(false, target);
    }
    Ok(())
}

/// Sets the registers as they are behind a move.
pub fn set_moved(cursor: &mut Cursor, left: u16, source: u32, destination: u32)
    ensures { view cursor.new ≡ changed (with_moved left source destination) (view cursor.old) }
{
    let registers = [left as u32, source, 0, destination, 0, 0];
    set_register_of(cursor, 0, registers[0]);
    set_register_of(cursor, 1, registers[1]);
    set_register_of(cursor, 2, registers[2]);
    set_register_of(cursor, 3, registers[3]);
    set_register_of(cursor, 4, registers[4]);
    set_register_of(cursor, 5, registers[5]);
}

/// MOVC3.
#[tactic(auto, unfolding(crate::specs::Strings::move_characters))]
pub fn move_characters(
    cursor: &mut Cursor,
    instr: &Instr,
    values: &[Evaluated; 6],
) -> Result<End, Stop>
    ensures plays { Plays (move_characters instr.now values.now) cursor.old result cursor.new }
    ensures few { Uses 131070 cursor.old result cursor.new }
{
    let count = value_of_place(values, 0, Size::Word) as u16;
    let source = value_of_place(values, 1, Size::Long) as u32;
    let destination = value_of_place(values, 2, Size::Long) as u32;
    check_string(cursor, source, count, false)?;
    check_string(cursor, destination, count, true)?;
    move_string(cursor, count, source, destination)?;
    set_moved(cursor, 0, beyond(source, count), beyond(destination, count));
    set_codes(cursor, false, true, false, false);
    go_to(cursor, instr.after)
}

/// MOVC5.
#[tactic(auto, unfolding(crate::specs::Strings::move_characters_filled))]
pub fn move_characters_filled(
    cursor: &mut Cursor,
    instr: &Instr,
    values: &[Evaluated; 6],
) -> Result<End, Stop>
    ensures plays { Plays (move_characters_filled instr.now values.now) cursor.old result cursor.new }
    ensures few { Uses 131070 cursor.old result cursor.new }
{
    let length = value_of_place(values, 0, Size::Word) as u16;
    let source = value_of_place(values, 1, Size::Long) as u32;
    let fill = value_of_place(values, 2, Size::Byte) as u8;
    let room = value_of_place(values, 3, Size::Word) as u16;
    let destination = value_of_place(values, 4, Size::Long) as u32;
    let count = length.min(room);
    check_string(cursor, source, count, false)?;
    check_string(cursor, destination, room, true)?;
    move_string(cursor, count, source, destination)?;
    fill_bytes(cursor, room - count, beyond(destination, count), fill)?;
    set_moved(
        cursor,
        length - count,
        beyond(source, count),
        beyond(destination, room),
    );
    set_compared(cursor, Width::Word, length as u64, room as u64);
    go_to(cursor, instr.after)
}
