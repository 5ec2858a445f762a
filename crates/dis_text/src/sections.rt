//! The listing of an image.
ghost use Rattle.std.specs.Prelude.{◌≡◌, ◌∷◌, ◌++◌, All, IfOk, OnOk, Some, decimal, map};
ghost use Rattle.std.specs.List.{flat_map};
ghost use Rattle.flow_discovery.specs.Reach.{instruction_at};
ghost use Rattle.report_text.specs.Digits.{eight_digits};
ghost use Rattle.dis_text.specs.Listing.{begins_at, is_section_told, listing_text, range_text, section_head, section_text, text_at};
ghost use Rattle.dis_text.specs.Made.{asked, listed, name_value};

use crate::code::Code;
use crate::covered::covered_before;
use crate::extent::{PAGE, end_of, start_of, stored_end};
use crate::labels::{Name, labels};
use crate::pieces::{Listing, Range, put_pieces};
use crate::put::put_longword;
use image_file::{Image, Section};
use report_text::Line;
use std::alloc::{AllocError, Global};
use vax_form::{Instr, PageRange, Pages, WantOfMemory};

fn put_spaced(out: &mut Vec<u8>, number: u64) -> Result<(), AllocError>
    ensures { OnOk result (out.new.items ≡ out.old.items ++ 32 ∷ decimal number) }
{
    let mut line = Line::new();
    line.push_spaced(number);
    out.extend_from_slice(line.as_slice())
}

fn put_address(out: &mut Vec<u8>, text: &[u8], address: u64) -> Result<(), AllocError>
    ensures { OnOk result (out.new.items ≡ out.old.items ++ (text.now ++ eight_digits address)) }
{
    out.extend_from_slice(text)?;
    put_longword(out, address)?;
    Ok(())
}

fn put_head(out: &mut Vec<u8>, number: u64, section: &Section) -> Result<(), AllocError>
    ensures { OnOk result (out.new.items ≡ out.old.items ++ section_head number section.now) }
{
    let last = end_of(section).saturating_sub(1);
    out.extend_from_slice(b"; section")?;
    put_spaced(out, number)?;
    put_address(out, b" ", start_of(section))?;
    put_address(out, b" to ", last)?;
    out.extend_from_slice(b" read-only\n")?;
    Ok(())
}

fn is_section_told(listing: &Listing<'_>, section: &Section) -> bool
    ensures { result ≡ is_section_told (listed listing.now) section.now }
{
    u64::from(listing.range.first) < end_of(section) && section.start <= listing.range.last
}

fn put_section(
    out: &mut Vec<u8>,
    listing: &Listing<'_>,
    instrs: &[Instr],
    number: u64,
    section: &Section,
) -> Result<(), AllocError>
    requires { All (λ instr. instruction_at listing.now.pages.now instr.at ≡ Some instr) instrs.now }
    ensures { OnOk result (out.new.items ≡ out.old.items ++ section_text (listed listing.now) instrs.now number section.now) }
{
    if is_section_told(listing, section) {
        let before = covered_before(section.start, instrs);
        put_head(out, number, section)?;
        put_pieces(out, listing, instrs, section, before, stored_end(section))?;
    }
    Ok(())
}

fn begins_at(range: &PageRange, section: &Section) -> bool
    ensures { result ≡ begins_at range.now section.now }
{
    u64::from(section.start) == PAGE * u64::from(range.first) && !section.writable
}

fn put_at(
    out: &mut Vec<u8>,
    listing: &Listing<'_>,
    instrs: &[Instr],
    range: &PageRange,
    number: u64,
    section: &Section,
) -> Result<(), AllocError>
    requires { All (λ instr. instruction_at listing.now.pages.now instr.at ≡ Some instr) instrs.now }
    ensures { OnOk result (out.new.items ≡ out.old.items ++ text_at (listed listing.now) instrs.now range.now (number, section.now)) }
{
    if begins_at(range, section) {
        put_section(out, listing, instrs, number, section)?;
    }
    Ok(())
}

// The section at the first page of a range.
fn put_range(
    out: &mut Vec<u8>,
    listing: &Listing<'_>,
    instrs: &[Instr],
    sections: &[Section],
    range: &PageRange,
) -> Result<(), AllocError>
    requires { All (λ instr. instruction_at listing.now.pages.now instr.at ≡ Some instr) instrs.now }
    ensures { OnOk result (out.new.items ≡ out.old.items ++ range_text (listed listing.now) instrs.now sections.now range.now) }
{
    for (number, section) in sections.iter().enumerate() {
        put_at(out, listing, instrs, range, number as u64, section)?;
    }
    Ok(())
}

fn put_ranges(
    out: &mut Vec<u8>,
    listing: &Listing<'_>,
    instrs: &[Instr],
    sections: &[Section],
    ranges: &[PageRange],
) -> Result<(), AllocError>
    requires { All (λ instr. instruction_at listing.now.pages.now instr.at ≡ Some instr) instrs.now }
    ensures { OnOk result (out.new.items ≡ out.old.items ++ flat_map (range_text (listed listing.now) instrs.now sections.now) ranges.now) }
{
    for range in ranges {
        put_range(out, listing, instrs, sections, range)?;
    }
    Ok(())
}

fn put_pages(
    out: &mut Vec<u8>,
    listing: &Listing<'_>,
    instrs: &[Instr],
    sections: &[Section],
    pages: &Pages,
) -> Result<(), AllocError>
    requires { All (λ instr. instruction_at listing.now.pages.now instr.at ≡ Some instr) instrs.now }
    ensures { OnOk result (out.new.items ≡ out.old.items ++ flat_map (range_text (listed listing.now) instrs.now sections.now) pages.now.ranges) }
{
    put_ranges(out, listing, instrs, sections, &pages.ranges)?;
    Ok(())
}

fn put_image(
    out: &mut Vec<u8>,
    listing: &Listing<'_>,
    instrs: &[Instr],
    image: &Image,
) -> Result<(), AllocError>
    requires { All (λ instr. instruction_at listing.now.pages.now instr.at ≡ Some instr) instrs.now }
    ensures { OnOk result (out.new.items ≡ out.old.items ++ flat_map (range_text (listed listing.now) instrs.now image.now.sections) image.now.pages.ranges) }
{
    put_pages(out, listing, instrs, &image.sections, &image.pages)?;
    Ok(())
}

/// The listing of the read-only sections of an image, with the hints of its translation, names, the instructions that can be
/// reached, in rising order, and the words of the translation; of the lines those of a range of addresses. Want of memory is
/// the only refusal.
pub fn listing_text(
    alloc: Global,
    image: &Image,
    hints: &[u32],
    names: &[Name],
    instrs: &[Instr],
    code: &Code<'_>,
    range: Range,
) -> Result<Vec<u8>, WantOfMemory>
    requires { All (λ instr. instruction_at image.now.pages instr.at ≡ Some instr) instrs.now }
    ensures { IfOk result (λ text. text.items ≡ listing_text (asked image.now hints.now (map name_value names.now) code.now.words.now code.now.map.now code.now.is_told range) instrs.now image.now.sections) }
{
    let before = labels(alloc, &image.threads, &image.entries, hints, names)?;
    let listing = Listing {
        alloc,
        pages: &image.pages,
        before: &before,
        code: *code,
        range,
    };
    let mut out = Vec::new(alloc);
    put_image(&mut out, &listing, instrs, image)?;
    Ok(out)
}
