// Strings that are compared and searched: CMPC3, LOCC and SKPC.
ghost use Rattle.std.specs.Prelude.{◌≡◌, ◌≤◌, IfOk, ◌*◌};
ghost use Rattle.vax_meaning.specs.Play.{Plays, Uses};
ghost use Rattle.vax_long.specs.Strings.{compare_bytes, compare_characters, stops_at, scan_bytes, scan_characters};

use crate::bytes::{beside, beyond, fetch_byte};
use vax_form::{End, Instr, Size, Stop, Width};
use vax_meaning::{
    Cursor, Evaluated, go_to, set_codes, set_compared, set_register_of, value_of_place,
};

/// Compares bytes until two differ or none is left, sets the codes, and gives the number of bytes left.
#[tactic(auto, unfolding(crate::specs::Strings::compare_bytes))]
pub fn compare_bytes(cursor: &mut Cursor, count: u16, first: u32, second: u32) -> Result<u16, Stop>
    ensures plays { Plays (compare_bytes count first second) cursor.old result cursor.new }
    ensures few { Uses (2 * count) cursor.old result cursor.new }
    ensures most { IfOk result (λ left. left ≤ count) }
{
    let mut place = first;
    let mut against = second;
    for done in 0..count {
        let one = fetch_byte(cursor, place)?;
        let other = fetch_byte(cursor, against)?;
        if one != other {
            set_compared(cursor, Width::Byte, one as u64, other as u64);
            return Ok(count - done);
        }
        place = beside(false, place);
        against = beside(false, against);
    }
    set_codes(cursor, false, true, false, false);
    Ok(0)
}

/// CMPC3.
#[tactic(auto, unfolding(crate::specs::Strings::compare_characters))]
pub fn compare_characters(
    cursor: &mut Cursor,
    instr: &Instr,
    values: &[Evaluated; 6],
) -> Result<End, Stop>
    ensures plays { Plays (compare_characters instr.now values.now) cursor.old result cursor.new }
    ensures few { Uses 131070 cursor.old result cursor.new }
{
    let count = value_of_place(values, 0, Size::Word) as u16;
    let first = value_of_place(values, 1, Size::Long) as u32;
    let second = value_of_place(values, 2, Size::Long) as u32;
    let left = compare_bytes(cursor, count, first, second)?;
    set_register_of(cursor, 0, left as u32);
    set_register_of(cursor, 1, beyond(first, count - left));
    set_register_of(cursor, 2, left as u32);
    set_register_of(cursor, 3, beyond(second, count - left));
    go_to(cursor, instr.after)
}

/// Whether LOCC, or else SKPC, stops at a byte.
pub fn stops_at(locates: bool, character: u8, byte: u8) -> bool
    ensures { result ≡ stops_at locates character byte }
{
    if locates {
        byte == character
    } else {
        byte != character
    }
}

/// Reads bytes until one stops it or none is left, and gives the number of bytes left.
#[tactic(auto, unfolding(crate::specs::Strings::scan_bytes))]
pub fn scan_bytes(
    cursor: &mut Cursor,
    locates: bool,
    character: u8,
    count: u16,
    address: u32,
) -> Result<u16, Stop>
    ensures plays { Plays (scan_bytes locates character count address) cursor.old result cursor.new }
    ensures few { Uses count cursor.old result cursor.new }
    ensures most { IfOk result (λ left. left ≤ count) }
{
    let mut place = address;
    for done in 0..count {
        let byte = fetch_byte(cursor, place)?;
        if stops_at(locates, character, byte) {
            return Ok(count - done);
        }
        place = beside(false, place);
    }
    Ok(0)
}

/// LOCC, and SKPC where it does not locate.
#[tactic(auto, unfolding(crate::specs::Strings::scan_characters))]
pub fn scan_characters(
    cursor: &mut Cursor,
    instr: &Instr,
    locates: bool,
    values: &[Evaluated; 6],
) -> Result<End, Stop>
    ensures plays { Plays (scan_characters instr.now locates values.now) cursor.old result cursor.new }
    ensures few { Uses 65535 cursor.old result cursor.new }
{
    let character = value_of_place(values, 0, Size::Byte) as u8;
    let count = value_of_place(values, 1, Size::Word) as u16;
    let address = value_of_place(values, 2, Size::Long) as u32;
    let left = scan_bytes(cursor, locates, character, count, address)?;
    set_register_of(cursor, 0, left as u32);
    set_register_of(cursor, 1, beyond(address, count - left));
    set_codes(cursor, false, left == 0, false, false);
    go_to(cursor, instr.after)
}
