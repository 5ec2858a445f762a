// The sections that a program's segments become.
ghost use Rattle.std.specs.Prelude.{◌≡◌, ◌<◌, ◌+◌, ◌^◌, All, IfOk, length};
ghost use Rattle.image_parts.specs.Segments.{IsPlaced};
ghost use Rattle.image_parts.specs.Sections.{stored_end, bytes_from, section_of, sections_of};

use crate::segments::program_byte;
use crate::spans::{Span, all_joined, span_of, spans_of};
use elf_file::Segment;
use image_file::Section;
use std::alloc::{AllocError, Global};

/// Where the last byte ends that a segment stores in pages of the span.
fn stored_end(span: &Span, segments: &[Segment]) -> u32
    requires { All IsPlaced segments.now }
    ensures { result ≡ stored_end span.now segments.now span.now.start }
{
    let mut end = span.start;
    for segment in segments {
        if span.meets(&span_of(segment)) {
            end = end.max(segment.address + segment.stored.len() as u32);
        }
    }
    end
}

fn bytes_from(
    alloc: Global,
    segments: &[Segment],
    start: u32,
    count: u32,
) -> Result<Vec<u8>, AllocError>
    requires { start + count < 2 ^ 32 }
    ensures { IfOk result (λ v. v.items ≡ bytes_from segments.now start count) }
{
    let mut bytes = Vec::with_capacity(alloc, count as usize)?;
    for place in 0..count {
        bytes.push(program_byte(segments, start + place))?;
    }
    Ok(bytes)
}

fn section_of(alloc: Global, segments: &[Segment], span: &Span) -> Result<Section, AllocError>
    requires { All IsPlaced segments.now }
    ensures { IfOk result (λ s. s ≡ section_of segments.now span.now) }
{
    let count = stored_end(span, segments).saturating_sub(span.start);
    Ok(Section {
        start: span.start,
        size: span.end.saturating_sub(span.start),
        writable: span.writable,
        stored: bytes_from(alloc, segments, span.start, count)?,
    })
}

/// The sections of segments, each where the first of its segments stands.
#[tactic(auto, unfolding(crate::specs::Sections::sections_of))]
pub fn sections_of(alloc: Global, segments: &[Segment]) -> Result<Vec<Section>, AllocError>
    requires { All IsPlaced segments.now }
    ensures { IfOk result (λ v. v.items ≡ sections_of segments.now) }
{
    let spans = all_joined(alloc, &spans_of(alloc, segments)?)?;
    let mut sections = Vec::new(alloc);
    for span in &spans {
        sections.push(section_of(alloc, segments, span)?)?;
    }
    Ok(sections)
}
