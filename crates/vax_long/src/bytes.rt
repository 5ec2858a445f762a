// The bytes of strings.
ghost use Rattle.std.specs.Prelude.{◌≡◌, ◌<◌, ◌-◌, ◌%◌, min};
ghost use Rattle.vax_form.specs.PageTable.{page_size};
ghost use Rattle.vax_form.specs.Pages.{first_bad};
ghost use Rattle.vax_meaning.specs.Play.{Plays, Uses};
ghost use Rattle.vax_meaning.specs.Memory.{check, read_part, write_part};
ghost use Rattle.vax_long.specs.Strings.{beyond, beside, fetch_byte};

use vax_form::{Exception, PAGE_SIZE, Pages, RefKind, Reference, Stop};
use vax_meaning::{Cursor, check};

/// So many bytes beyond an address.
pub fn beyond(address: u32, count: u16) -> u32
    ensures { result ≡ beyond address count }
{
    address.wrapping_add(count as u32)
}

/// The address before or behind another.
pub fn beside(down: bool, address: u32) -> u32
    ensures { result ≡ beside down address }
{
    if down {
        address.wrapping_sub(1)
    } else {
        address.wrapping_add(1)
    }
}

/// How many of so many bytes from the address on stand in its page.
fn count_in_page(address: u32, count: u16) -> u16
    ensures { result ≡ min count (page_size - address % page_size) }
{
    let room = PAGE_SIZE - address % PAGE_SIZE;
    count.min(room as u16)
}

/// The first of so many bytes from the address on, which goes on at 0 behind the last, that may not be read or, where
/// `write` is, written; none where all may. The bytes of a page may be used alike.
pub fn first_bad(pages: &Pages, address: u32, count: u16, write: bool) -> Option<u32>
    ensures { result ≡ first_bad pages.now write address count }
{
    let mut place = address;
    let mut left = count;
    while left > 0 {
        if !pages.allowed(place, write) {
            return Some(place);
        }
        let here = count_in_page(place, left);
        place = beyond(place, here);
        left -= here;
    }
    None
}

/// Checks a string.
pub fn check_string(cursor: &mut Cursor, address: u32, count: u16, write: bool) -> Result<(), Stop>
    ensures plays { Plays (check address count write) cursor.old result cursor.new }
    ensures few { Uses 0 cursor.old result cursor.new }
{
    match first_bad(cursor.pages, address, count, write) {
        None => Ok(()),
        Some(address) => Err(Stop::Fails(Exception::AccessViolation { address, write })),
    }
}

/// Reads a byte.
pub fn read_byte(cursor: &mut Cursor, address: u32) -> Result<u8, Stop>
    ensures plays { Plays (read_part address 1) cursor.old result cursor.new }
    ensures few { Uses 1 cursor.old result cursor.new }
{
    let reply = cursor.ask(Reference {
        address,
        count: 1,
        kind: RefKind::Read,
    })?;
    Ok((reply % 256) as u8)
}

/// Writes a byte.
pub fn write_byte(cursor: &mut Cursor, address: u32, byte: u8) -> Result<(), Stop>
    ensures plays { Plays (write_part address 1 byte) cursor.old result cursor.new }
    ensures few { Uses 1 cursor.old result cursor.new }
{
    cursor.ask(Reference {
        address,
        count: 1,
        kind: RefKind::Write(byte as u64),
    })?;
    Ok(())
}

/// Checks a byte, and reads it.
#[tactic(auto, unfolding(crate::specs::Strings::fetch_byte))]
pub fn fetch_byte(cursor: &mut Cursor, address: u32) -> Result<u8, Stop>
    ensures plays { Plays (fetch_byte address) cursor.old result cursor.new }
    ensures few { Uses 1 cursor.old result cursor.new }
{
    check(cursor, address, 1, false)?;
    read_byte(cursor, address)
}
