// The quadwords of an image's pages: what they are at first, and how they are stored.
ghost use Rattle.std.specs.Prelude.{◌≡◌, ◌≤◌, ◌<◌, ◌*◌, ◌%◌, ◌+◌, ◌++◌, length, slice_index, find, IfSome, IfOk, OnOk};
ghost use Rattle.std.specs.Option.{option_copied};
ghost use Rattle.vax_form.specs.PageTable.{page_size};
ghost use Rattle.image_file.specs.Memory.{has_address};
ghost use Rattle.image_file.specs.Whole.{IsWhole};
ghost use Rattle.memory_core.specs.Fields.{stored_at};
ghost use Rattle.memory_core.specs.Bytes.{quad_of};
ghost use Rattle.memory_core.specs.Opening.{opening};
ghost use Rattle.memory_core.specs.Places.{page_quads, quad_place, quads_from, quads_of};

use crate::index::{PageIndex, QUAD, QUADS};
use image_file::{Image, Section};
use std::alloc::{AllocError, Global};
use vax_form::{PAGE_SIZE, PageRange};

/// Stores a quadword at the place of its address.
pub(crate) fn store(index: &PageIndex, quads: &mut [u64], address: u32, value: u64)
    requires { IfSome (quad_place index.now address) (λ i. i < length quads.old) }
    ensures { quads.new ≡ stored_at (quad_place index.now address) value quads.old }
{
    if let Some(place) = index.quad_place(address) {
        quads[place] = value;
    }
}

/// The quadword at an address, as the image's sections have it.
fn opening_quad(image: &Image, address: u32) -> u64
    requires whole { IsWhole image.now }
    requires aligned { address % 8 ≡ 0 }
    ensures { result ≡ opening image.now address }
{
    match section_of(image, address) {
        Some(section) => stored_quad(section, address - section.start),
        None => 0,
    }
}

fn section_of(image: &Image, address: u32) -> Option<&Section>
    ensures { option_copied result ≡ find (has_address address) image.now.sections }
{
    image.sections.iter().find(|section| section.has(address))
}

// Eight bytes of a section, 0 behind those that are stored.
fn stored_quad(section: &Section, offset: u32) -> u64
    ensures { result ≡ quad_of (λ at. slice_index section.now.stored (offset + at)) }
{
    let mut bytes = [0; 8];
    for at in 0..8 {
        bytes[at] = byte_or_zero(&section.stored, offset as usize + at);
    }
    u64::from_le_bytes(bytes)
}

fn byte_or_zero(bytes: &[u8], at: usize) -> u8
    ensures { result ≡ slice_index bytes.now at }
{
    bytes.get(at).copied().unwrap_or(0)
}

/// Appends the quadwords of a range.
fn push_range(quads: &mut Vec<u64>, image: &Image, range: &PageRange) -> Result<(), AllocError>
    requires whole { IsWhole image.now }
    requires low { range.now.first + range.now.count ≤ 4194304 }
    ensures { OnOk result (quads.new.items ≡ quads.old.items ++ quads_from image.now (page_size * range.now.first) (page_quads * range.now.count)) }
{
    for n in 0..QUADS * range.count {
        quads.push(opening_quad(image, PAGE_SIZE * range.first + QUAD * n))?;
    }
    Ok(())
}

/// The quadwords of an image's pages, range after range.
pub(crate) fn opening_quads(alloc: Global, image: &Image) -> Result<Vec<u64>, AllocError>
    requires { IsWhole image.now }
    ensures { IfOk result (λ quads. quads.items ≡ quads_of image.now image.now.pages.ranges) }
{
    let pages = &image.pages;
    let mut quads = Vec::new(alloc);
    for range in &pages.ranges {
        push_range(&mut quads, image, range)?;
    }
    Ok(quads)
}
