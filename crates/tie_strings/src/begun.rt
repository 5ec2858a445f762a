// What an instruction begins with behind its operands: a body, or strings.
ghost use Rattle.std.specs.Prelude.{◌≡◌, not, nat_le};
ghost use Rattle.vax_form.specs.declared.operation.LongOperation.TheVariants.{MoveCharacters, MoveCharactersFilled};
ghost use Rattle.vax_meaning.specs.Play.{Plays, Uses};
ghost use Rattle.tie_strings.specs.Begins.{check_strings, move_of, filled_move_of, compare_of, scan_of, BeginsMove};

use crate::comparing::{Compared, Comparing, Pair};
use crate::moving::{Fill, Moved, Moving};
use crate::scanning::{Scanned, Scanning};
use vax_form::{Instr, Size, Stop};
use vax_long::{beginning, beyond, check_string};
use vax_meaning::{Cursor, Evaluated, value_of_place};

/// Checks both strings of a move.
#[tactic(auto, unfolding(crate::specs::Begins::check_strings))]
fn strings_checked(
    cursor: &mut Cursor,
    source: u32,
    count: u16,
    destination: u32,
    room: u16,
) -> Result<(), Stop>
    ensures plays { Plays (check_strings source count destination room) cursor.old result cursor.new }
    ensures few { Uses 0 cursor.old result cursor.new }
{
    check_string(cursor, source, count, false)?;
    check_string(cursor, destination, room, true)
}

/// Whether a move goes downward.
fn goes_down(source: u32, destination: u32) -> bool
    ensures { result ≡ not (nat_le destination source) }
{
    destination > source
}

/// A move of `count` bytes, before the first.
fn move_of(count: u16, source: u32, destination: u32, after: u32) -> Moving
    ensures { result ≡ move_of count source destination after }
{
    let down = goes_down(source, destination);
    Moving {
        down,
        left: count,
        from: beginning(down, source, count),
        to: beginning(down, destination, count),
        byte: None,
        fill: Fill {
            left: 0,
            to: 0,
            byte: 0,
        },
        moved: Moved {
            left: 0,
            source: beyond(source, count),
            destination: beyond(destination, count),
            length: 0,
            room: 0,
            after,
        },
    }
}

/// A move of `length` bytes into `room` of them, which is filled behind it, before the first.
fn filled_move_of(
    length: u16,
    source: u32,
    byte: u8,
    room: u16,
    destination: u32,
    after: u32,
) -> Moving
    ensures { result ≡ filled_move_of length source byte room destination after }
{
    let count = length.min(room);
    let down = goes_down(source, destination);
    Moving {
        down,
        left: count,
        from: beginning(down, source, count),
        to: beginning(down, destination, count),
        byte: None,
        fill: Fill {
            left: room - count,
            to: beyond(destination, count),
            byte,
        },
        moved: Moved {
            left: length - count,
            source: beyond(source, count),
            destination: beyond(destination, room),
            length,
            room,
            after,
        },
    }
}

/// MOVC3, once its strings are checked.
pub(crate) fn move_begun(
    cursor: &mut Cursor,
    instr: &Instr,
    values: &[Evaluated; 6],
) -> Result<Moving, Stop>
    ensures { BeginsMove MoveCharacters instr.now values.now cursor.old result cursor.new }
{
    let count = value_of_place(values, 0, Size::Word) as u16;
    let source = value_of_place(values, 1, Size::Long) as u32;
    let destination = value_of_place(values, 2, Size::Long) as u32;
    match strings_checked(cursor, source, count, destination, count) {
        Ok(()) => Ok(move_of(count, source, destination, instr.after)),
        Err(stop) => Err(stop),
    }
}

/// MOVC5, once its strings are checked.
pub(crate) fn filled_move_begun(
    cursor: &mut Cursor,
    instr: &Instr,
    values: &[Evaluated; 6],
) -> Result<Moving, Stop>
    ensures { BeginsMove MoveCharactersFilled instr.now values.now cursor.old result cursor.new }
{
    let length = value_of_place(values, 0, Size::Word) as u16;
    let source = value_of_place(values, 1, Size::Long) as u32;
    let fill = value_of_place(values, 2, Size::Byte) as u8;
    let room = value_of_place(values, 3, Size::Word) as u16;
    let destination = value_of_place(values, 4, Size::Long) as u32;
    match strings_checked(cursor, source, length.min(room), destination, room) {
        Ok(()) => Ok(filled_move_of(length, source, fill, room, destination, instr.after)),
        Err(stop) => Err(stop),
    }
}

/// CMPC3, before the first byte.
pub(crate) fn comparison_begun(instr: &Instr, values: &[Evaluated; 6]) -> Comparing
    ensures { result ≡ compare_of instr.now values.now }
{
    let count = value_of_place(values, 0, Size::Word) as u16;
    let first = value_of_place(values, 1, Size::Long) as u32;
    let second = value_of_place(values, 2, Size::Long) as u32;
    Comparing {
        left: count,
        first,
        second,
        pair: Pair::First,
        checked: false,
        compared: Compared {
            count,
            first,
            second,
            after: instr.after,
        },
    }
}

/// LOCC, and SKPC where it does not locate, before the first byte.
pub(crate) fn search_begun(instr: &Instr, locates: bool, values: &[Evaluated; 6]) -> Scanning
    ensures { result ≡ scan_of instr.now locates values.now }
{
    let character = value_of_place(values, 0, Size::Byte) as u8;
    let count = value_of_place(values, 1, Size::Word) as u16;
    let address = value_of_place(values, 2, Size::Long) as u32;
    Scanning {
        left: count,
        address,
        stopped: false,
        checked: false,
        scanned: Scanned {
            locates,
            character,
            count,
            address,
            after: instr.after,
        },
    }
}
