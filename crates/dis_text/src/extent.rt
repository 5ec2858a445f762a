// Where sections begin and end.
ghost use Rattle.std.specs.Prelude.{◌≡◌, ◌<◌, ◌^◌, ◌+◌, ◌*◌, ◌/◌, length};
ghost use Rattle.dis_text.specs.Listing.{begins_in, end_of, stored_end};

use image_file::Section;
use vax_form::{Instr, PAGE_SIZE};

/// The bytes of a page.
pub const PAGE: u64 = PAGE_SIZE as u64;

/// The address at which a section begins.
pub fn start_of(section: &Section) -> u64
    ensures value { result ≡ section.now.start }
    ensures low { result < 2 ^ 32 }
{
    u64::from(section.start)
}

/// How many bytes a section has.
fn size_of(section: &Section) -> u64
    ensures value { result ≡ section.now.size }
    ensures low { result < 2 ^ 32 }
{
    u64::from(section.size)
}

/// The address behind a section.
pub fn end_of(section: &Section) -> u64
    ensures value { result ≡ end_of section.now }
    ensures low { result < 2 ^ 33 }
{
    start_of(section) + size_of(section)
}

// The bytes of the pages of a section that are stored.
fn stored_bytes(section: &Section) -> u64
    ensures { result ≡ (length section.now.stored + 511) / 512 * 512 }
{
    let stored = section.stored.len() as u64;
    (stored + (PAGE - 1)) / PAGE * PAGE
}

/// The address behind the last page of a section that is stored.
pub fn stored_end(section: &Section) -> u64
    ensures value { result ≡ stored_end section.now }
    ensures low { result < 2 ^ 33 }
{
    let size = size_of(section);
    let pages = stored_bytes(section);
    let kept = if pages < size { pages } else { size };
    start_of(section) + kept
}

/// Whether an instruction begins in a section.
pub fn begins_in(section: &Section, instr: &Instr) -> bool
    ensures { result ≡ begins_in section.now instr.now }
{
    section.start <= instr.at && u64::from(instr.at) < end_of(section)
}
