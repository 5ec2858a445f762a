// Images made of their parts.
ghost use Rattle.std.specs.Prelude.{◌≡◌, ◌≤◌, ◌<◌, false, All, IfOk, IfSome, Ok, OnOk, length, map, max, position};
ghost use Rattle.std.specs.List.{list_all};
ghost use Rattle.image_file.specs.Reading.{image_of};
ghost use Rattle.image_file.specs.Rows.{total_bytes};
ghost use Rattle.image_file.specs.Spelling.{row_of, spelling};
ghost use Rattle.image_parts.specs.Refusal.{Gives};
ghost use Rattle.image_parts.specs.Parts.{Fits, MOST_COUNTED, is_cleared, sized, stores_too_much, fits_version_1, version_for, most_counted, parts_image, parts_bytes, parts_value};

use crate::refusal::MakeRefusal;
use crate::spelled::{put_header, put_rows, put_stored, put_threads, size_of};
use image_file::{Section, Start, most_threads, put_words, read_image};
use std::alloc::Global;
use vax_form::{PAGE_SIZE, WantOfMemory};

const VERSION_1: u16 = 1;

const VERSION_2: u16 = 2;
/// The most bytes of the pages of an image of version 1.
const MOST_BYTES_1: u64 = 1_048_576;

/// The parts of an image: its threads, its sections, of which one of size 0 is as long as what it stores, and addresses
/// of code beside the threads' starts.
#[derive(Clone, Copy)]
pub struct Parts<'a> {
    pub threads: &'a [Start],
    pub sections: &'a [Section],
    pub entries: &'a [u32],
}

fn is_cleared(start: &Start) -> bool
    ensures { result ≡ is_cleared start.now }
{
    start.first.iter().all(|value| *value == 0)
}

fn stores_too_much(section: &Section) -> bool
    ensures { result ≡ stores_too_much section.now }
{
    let most = if section.size == 0 {
        u32::MAX
    } else {
        section.size
    };
    section.stored.len() > most as usize
}

fn first_too_long(sections: &[Section]) -> Option<usize>
    ensures value { result ≡ position stores_too_much sections.now }
    ensures within { IfSome result (λ place. place < length sections.now) }
{
    sections.iter().position(stores_too_much)
}

/// The bytes of the sections' pages.
fn total_bytes(sections: &[Section]) -> u64
    requires few { length sections.now ≤ MOST_COUNTED }
    requires fit { All (λ s. stores_too_much s ≡ false) sections.now }
    ensures { result ≡ total_bytes (map row_of (map sized sections.now)) }
{
    let mut total = 0;
    for section in sections {
        let pages = size_of(section).div_ceil(PAGE_SIZE);
        total += PAGE_SIZE as u64 * u64::from(pages);
    }
    total
}

fn are_cleared(threads: &[Start]) -> bool
    ensures { result ≡ list_all is_cleared threads.now }
{
    threads.iter().all(is_cleared)
}

fn fits_version_1(threads: &[Start], sections: &[Section]) -> bool
    requires few { length sections.now ≤ MOST_COUNTED }
    requires fit { All (λ s. stores_too_much s ≡ false) sections.now }
    ensures { result ≡ fits_version_1 threads.now (map sized sections.now) }
{
    threads.len() <= most_threads(VERSION_1) as usize
        && are_cleared(threads)
        && total_bytes(sections) <= MOST_BYTES_1
}

fn version_for(threads: &[Start], sections: &[Section]) -> u16
    requires few { length sections.now ≤ MOST_COUNTED }
    requires fit { All (λ s. stores_too_much s ≡ false) sections.now }
    ensures { result ≡ version_for threads.now (map sized sections.now) }
{
    if fits_version_1(threads, sections) {
        VERSION_1
    } else {
        VERSION_2
    }
}

/// The bytes that the file would have.
#[tactic(auto, using(crate::proofs::Sizes::same_stored, crate::proofs::Sizes::same_count), unfolding(crate::specs::Parts::parts_image, image_file::specs::Spelling::spelling))]
fn spelled(alloc: Global, parts: Parts<'_>) -> Result<Vec<u8>, WantOfMemory>
    requires few { most_counted (parts_value parts) ≤ MOST_COUNTED }
    requires fit { All (λ s. stores_too_much s ≡ false) parts.sections.now }
    ensures bytes { IfOk result (λ v. v.items ≡ spelling (parts_image (parts_value parts.entry))) }
    ensures fit { OnOk result (Fits (parts_image (parts_value parts.entry))) }
{
    let version = version_for(parts.threads, parts.sections);
    let mut out = Vec::new(alloc);
    put_header(
        &mut out,
        version,
        parts.threads.len() as u16,
        parts.sections.len() as u16,
        parts.entries.len() as u16,
    )?;
    put_threads(&mut out, version, parts.threads)?;
    put_rows(&mut out, parts.sections)?;
    put_words(&mut out, parts.entries)?;
    put_stored(&mut out, parts.sections)?;
    Ok(out)
}

/// The bytes of the file of the image that has these parts, in their order, in the lowest version that has room for
/// them; or the first reason for which there is none. What the format refuses is refused as reading it would be.
#[tactic(auto, unfolding(crate::specs::Parts::parts_bytes))]
pub fn from_parts(alloc: Global, parts: Parts<'_>) -> Result<Vec<u8>, MakeRefusal>
    // The file is spelled so, or refused so.
    ensures exact { Gives (λ v. v.items) result (parts_bytes (parts_value parts.entry)) }
    // It reads back as the image of the parts.
    ensures reads_back { IfOk result (λ v. image_of v.items ≡ Ok (parts_image (parts_value parts.entry))) }
{
    let counted = parts.sections.len().max(parts.entries.len());
    let count = parts.threads.len().max(counted);
    if count > u16::MAX as usize {
        return Err(MakeRefusal::TooMany {
            count: count as u64,
        });
    }
    if let Some(place) = first_too_long(parts.sections) {
        return Err(MakeRefusal::StoredTooLong {
            place: place as u16,
        });
    }
    let bytes = spelled(alloc, parts)?;
    read_image(alloc, &bytes)?;
    Ok(bytes)
}
