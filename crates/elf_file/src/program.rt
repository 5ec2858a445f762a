// The program that an ELF file has.
ghost use Rattle.std.specs.Prelude.{◌≡◌, IfOk};
ghost use Rattle.elf_file.specs.Refusal.{Gives};
ghost use Rattle.elf_file.specs.Program.{segment_in, segments_in, program_of};

use crate::fields::part_at;
use crate::header::header_of;
use crate::refusal::ElfRefusal;
use crate::segments::{SegmentHeader, check_segments, segment_headers};
use std::alloc::{AllocError, Global};
use std::marker::Model;

/// A loaded segment: `size` bytes of memory from `address` on, of which the first are stored and the others are 0.
#[derive(Drop)]
pub struct Segment {
    pub address: u32,
    pub size: u32,
    pub writable: bool,
    pub stored: Vec<u8>,
}

impl Model for Segment {
    ghost use Rattle.elf_file.specs.Values.{SegmentValue};

    ghost Value = { SegmentValue };

    ghost view = { λ s. record { address = s.address; size = s.size; writable = s.writable; stored = s.stored.items } };
}

/// Where a program begins, and its loaded segments in the order of their headers.
#[derive(Drop)]
pub struct Program {
    pub entry: u32,
    pub segments: Vec<Segment>,
}

impl Model for Program {
    ghost use Rattle.elf_file.specs.Values.{ProgramValue};

    ghost Value = { ProgramValue };

    ghost view = { λ p. record { entry = p.entry; segments = p.segments.items } };
}

fn segment_of(alloc: Global, bytes: &[u8], header: &SegmentHeader) -> Result<Segment, AllocError>
    ensures { IfOk result (λ s. s ≡ segment_in bytes.now header.now) }
{
    let stored = part_at(bytes, header.offset as usize, header.stored as usize);
    Ok(Segment {
        address: header.address,
        size: header.size,
        writable: header.is_writable(),
        stored: Vec::from_slice(alloc, stored)?,
    })
}

/// The loaded segments of the headers.
fn segments_of(
    alloc: Global,
    bytes: &[u8],
    headers: &[SegmentHeader],
) -> Result<Vec<Segment>, AllocError>
    ensures { IfOk result (λ v. v.items ≡ segments_in bytes.now headers.now) }
{
    let mut segments = Vec::new(alloc);
    for header in headers {
        if header.is_loaded() {
            segments.push(segment_of(alloc, bytes, header)?)?;
        }
    }
    Ok(segments)
}

/// The program that the file has, or the first reason for which it has none.
#[tactic(auto, unfolding(crate::specs::Program::program_of))]
pub fn read_program(alloc: Global, bytes: &[u8]) -> Result<Program, ElfRefusal>
    ensures { Gives (λ p. p) result (program_of bytes.now) }
{
    let header = header_of(bytes)?;
    let headers = segment_headers(alloc, &header, bytes)?;
    check_segments(bytes, &headers)?;
    let segments = segments_of(alloc, bytes, &headers)?;
    Ok(Program {
        entry: header.entry,
        segments,
    })
}
