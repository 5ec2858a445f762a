// Program headers, and what is checked of them.
ghost use Rattle.std.specs.Prelude.{◌≡◌, ◌≤◌, ◌+◌, ◌*◌, length, drop, position, IfOk};
ghost use Rattle.elf_file.specs.Program.{segment_header_in, segment_headers_in, asks_linker, lacks_bytes, is_misplaced, has_writable_code, segments_allowed};

use crate::fields::{has_flag, is_cut};
use crate::figures::*;
use crate::header::Header;
use crate::refusal::ElfRefusal;
use image_file::word_at;
use std::alloc::{AllocError, Global};

/// A program header: where its bytes stand in the file and in memory, and how many there are in each.
#[derive(Clone, Copy)]
pub struct SegmentHeader {
    pub kind: u32,
    pub offset: u32,
    pub address: u32,
    pub stored: u32,
    pub size: u32,
    pub flags: u32,
}

impl SegmentHeader {
    ghost use Rattle.elf_file.specs.Figures.{SEGMENT_WRITABLE};
    ghost use Rattle.elf_file.specs.Fields.{has_flag};
    ghost use Rattle.elf_file.specs.Program.{is_loaded};

    fn asks_linker(&self) -> bool
        ensures { result ≡ asks_linker self.now }
    {
        self.kind == DYNAMIC || self.kind == INTERPRETER
    }

    fn lacks_bytes(&self, bytes: &[u8]) -> bool
        ensures { result ≡ lacks_bytes bytes.now self.now }
    {
        self.kind == LOAD && is_cut(bytes, self.offset as usize, self.stored as usize)
    }

    fn is_misplaced(&self) -> bool
        ensures { result ≡ is_misplaced self.now }
    {
        let end = u64::from(self.address) + u64::from(self.size);
        self.kind == LOAD && (self.stored > self.size || end > ADDRESS_END)
    }

    pub fn is_writable(&self) -> bool
        ensures { result ≡ has_flag SEGMENT_WRITABLE self.now.flags }
    {
        has_flag(self.flags, SEGMENT_WRITABLE)
    }

    fn has_writable_code(&self) -> bool
        ensures { result ≡ has_writable_code self.now }
    {
        self.kind == LOAD && self.is_writable() && has_flag(self.flags, SEGMENT_EXECUTABLE)
    }

    /// Whether it is a loaded segment.
    pub fn is_loaded(&self) -> bool
        ensures { result ≡ is_loaded self.now }
    {
        self.kind == LOAD && self.size > 0
    }
}

fn segment_header_at(bytes: &[u8], at: usize) -> SegmentHeader
    requires { at + PROGRAM_HEADER ≤ length bytes.now }
    ensures { result ≡ segment_header_in (drop at bytes.now) }
{
    SegmentHeader {
        kind: word_at(bytes, at),
        offset: word_at(bytes, at + 4),
        address: word_at(bytes, at + 8),
        stored: word_at(bytes, at + 16),
        size: word_at(bytes, at + 20),
        flags: word_at(bytes, at + 24),
    }
}

/// The program headers, which are all there.
#[tactic(auto, unfolding(crate::specs::Program::segment_headers_in))]
pub fn segment_headers(
    alloc: Global,
    header: &Header,
    bytes: &[u8],
) -> Result<Vec<SegmentHeader>, AllocError>
    requires { PROGRAM_HEADER * header.now.programs ≤ length (drop header.now.programs_at bytes.now) }
    ensures items { IfOk result (λ v. v.items ≡ segment_headers_in header.now bytes.now) }
    ensures count { IfOk result (λ v. length v.items ≡ header.now.programs) }
{
    let mut headers = Vec::new(alloc);
    for place in 0..header.programs {
        let at = header.programs_at as usize + PROGRAM_HEADER * place as usize;
        headers.push(segment_header_at(bytes, at))?;
    }
    Ok(headers)
}

fn first_linked(headers: &[SegmentHeader]) -> Option<usize>
    ensures { result ≡ position asks_linker headers.now }
{
    headers.iter().position(SegmentHeader::asks_linker)
}

fn first_cut(bytes: &[u8], headers: &[SegmentHeader]) -> Option<usize>
    ensures { result ≡ position (lacks_bytes bytes.now) headers.now }
{
    headers.iter().position(|h| h.lacks_bytes(bytes))
}

fn first_misplaced(headers: &[SegmentHeader]) -> Option<usize>
    ensures { result ≡ position is_misplaced headers.now }
{
    headers.iter().position(SegmentHeader::is_misplaced)
}

fn first_writable_code(headers: &[SegmentHeader]) -> Option<usize>
    ensures { result ≡ position has_writable_code headers.now }
{
    headers.iter().position(SegmentHeader::has_writable_code)
}

/// Whether the program headers give segments that can be loaded.
#[tactic(auto, unfolding(crate::specs::Program::segments_allowed))]
pub fn check_segments(bytes: &[u8], headers: &[SegmentHeader]) -> Result<(), ElfRefusal>
    requires { length headers.now ≤ 65535 }
    ensures { result ≡ segments_allowed bytes.now headers.now }
{
    if let Some(place) = first_linked(headers) {
        return Err(ElfRefusal::NotStatic {
            place: place as u16,
        });
    }
    if let Some(place) = first_cut(bytes, headers) {
        return Err(ElfRefusal::SegmentCut {
            place: place as u16,
        });
    }
    if let Some(place) = first_misplaced(headers) {
        return Err(ElfRefusal::BadSegment {
            place: place as u16,
        });
    }
    if let Some(place) = first_writable_code(headers) {
        return Err(ElfRefusal::WritableCode {
            place: place as u16,
        });
    }
    Ok(())
}
