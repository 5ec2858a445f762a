// Section headers.
ghost use Rattle.std.specs.Prelude.{◌≡◌, ◌≤◌, ◌<◌, ◌+◌, ◌*◌, length, drop, position, slice_get, IfOk, IfSome};
ghost use Rattle.elf_file.specs.Symbols.{section_header_in, section_headers_in, lacks_sections, is_symbol_table, is_section_cut, is_read_only};

use crate::fields::{has_flag, is_cut};
use crate::figures::*;
use crate::header::Header;
use image_file::word_at;
use std::alloc::{AllocError, Global};

/// A section header: of which type the section is, and where it stands in the file.
#[derive(Clone, Copy)]
pub struct SectionHeader {
    pub kind: u32,
    pub flags: u32,
    pub offset: u32,
    pub size: u32,
    pub link: u32,
}

fn is_symbol_table(section: &SectionHeader) -> bool
    ensures { result ≡ is_symbol_table section.now }
{
    section.kind == SYMBOL_TABLE
}

/// Whether the section headers have another size, or are not all in the file.
pub fn lacks_sections(header: &Header, bytes: &[u8]) -> bool
    ensures { result ≡ lacks_sections header.now bytes.now }
{
    let size = SECTION_HEADER * header.sections as usize;
    header.sections > 0
        && (header.section_size as usize != SECTION_HEADER
            || is_cut(bytes, header.sections_at as usize, size))
}

pub fn section_header_at(bytes: &[u8], at: usize) -> SectionHeader
    requires { at + SECTION_HEADER ≤ length bytes.now }
    ensures { result ≡ section_header_in (drop at bytes.now) }
{
    SectionHeader {
        kind: word_at(bytes, at + 4),
        flags: word_at(bytes, at + 8),
        offset: word_at(bytes, at + 16),
        size: word_at(bytes, at + 20),
        link: word_at(bytes, at + 24),
    }
}

/// The section headers, which are all there.
#[tactic(auto, unfolding(crate::specs::Symbols::section_headers_in))]
pub fn section_headers(
    alloc: Global,
    header: &Header,
    bytes: &[u8],
) -> Result<Vec<SectionHeader>, AllocError>
    requires { SECTION_HEADER * header.now.sections ≤ length (drop header.now.sections_at bytes.now) }
    ensures items { IfOk result (λ v. v.items ≡ section_headers_in header.now bytes.now) }
    ensures count { IfOk result (λ v. length v.items ≡ header.now.sections) }
{
    let mut sections = Vec::new(alloc);
    for place in 0..header.sections {
        let at = header.sections_at as usize + SECTION_HEADER * place as usize;
        sections.push(section_header_at(bytes, at))?;
    }
    Ok(sections)
}

/// The place of the first symbol table.
pub fn symbol_table(sections: &[SectionHeader]) -> Option<usize>
    ensures value { result ≡ position is_symbol_table sections.now }
    ensures within { IfSome result (λ place. place < length sections.now) }
{
    sections.iter().position(is_symbol_table)
}

/// Whether the section of that number isn't all in the file.
pub fn is_section_cut(bytes: &[u8], sections: &[SectionHeader], number: u32) -> bool
    ensures { result ≡ is_section_cut bytes.now (slice_get sections.now number) }
{
    match sections.get(number as usize) {
        None => true,
        Some(s) => is_cut(bytes, s.offset as usize, s.size as usize),
    }
}

/// Whether the section of that number is loaded and not writable.
pub fn is_read_only(sections: &[SectionHeader], number: u16) -> bool
    ensures { result ≡ is_read_only (slice_get sections.now number) }
{
    match sections.get(number as usize) {
        None => false,
        Some(s) => has_flag(s.flags, SECTION_LOADED) && !has_flag(s.flags, SECTION_WRITABLE),
    }
}
