// The parts of memory that segments need, page by page.
ghost use Rattle.std.specs.Prelude.{◌≡◌, ◌<◌, All, IfOk, IfSome, filter, fold, length, map, position};
ghost use Rattle.image_parts.specs.Segments.{IsPlaced, span_of, meets, has_rights_of, clashes, first_clash};
ghost use Rattle.image_parts.specs.Sections.{joins, hull, joined, all_joined};

use elf_file::Segment;
use std::alloc::{AllocError, Global};
use vax_form::PAGE_SIZE;

/// A part of memory, from the start of a page to `end`, which is behind it.
#[derive(Clone, Copy)]
pub struct Span {
    pub start: u32,
    pub end: u32,
    pub writable: bool,
}

/// What a segment needs.
pub fn span_of(segment: &Segment) -> Span
    requires { IsPlaced segment.now }
    ensures { result ≡ span_of segment.now }
{
    Span {
        start: PAGE_SIZE * (segment.address / PAGE_SIZE),
        end: segment.address + segment.size,
        writable: segment.writable,
    }
}

impl Span {
    /// Whether the two share a page.
    pub fn meets(&self, other: &Span) -> bool
        ensures { result ≡ meets self.now other.now }
    {
        self.start < other.end && other.start < self.end
    }

    /// Whether both may be written, or none.
    fn has_rights_of(&self, other: &Span) -> bool
        ensures { result ≡ has_rights_of self.now other.now }
    {
        self.writable == other.writable
    }

    fn clashes(&self, other: &Span) -> bool
        ensures { result ≡ clashes self.now other.now }
    {
        self.meets(other) && !self.has_rights_of(other)
    }

    fn joins(&self, other: &Span) -> bool
        ensures { result ≡ joins self.now other.now }
    {
        self.meets(other) && self.has_rights_of(other)
    }

    fn hull(&self, other: &Span) -> Span
        ensures { result ≡ hull self.now other.now }
    {
        Span {
            start: self.start.min(other.start),
            end: self.end.max(other.end),
            writable: self.writable,
        }
    }
}

/// The spans of segments.
pub fn spans_of(alloc: Global, segments: &[Segment]) -> Result<Vec<Span>, AllocError>
    requires { All IsPlaced segments.now }
    ensures { IfOk result (λ v. v.items ≡ map span_of segments.now) }
{
    let mut spans = Vec::new(alloc);
    for segment in segments {
        spans.push(span_of(segment))?;
    }
    Ok(spans)
}

/// The first of the others that clashes with a span.
fn first_clashing(span: &Span, others: &[Span]) -> Option<usize>
    ensures value { result ≡ position (clashes span.now) others.now }
    ensures within { IfSome result (λ place. place < length others.now) }
{
    others.iter().position(|other| span.clashes(other))
}

/// The first two spans of different rights that share a page.
pub fn first_clash(spans: &[Span]) -> Option<(usize, usize)>
    ensures value { result ≡ first_clash 0 spans.now }
    ensures within { IfSome result (λ pair. (pair.0 < length spans.now) × (pair.1 < length spans.now)) }
{
    for (low, span) in spans.iter().enumerate() {
        if let Some(next) = first_clashing(span, &spans[low + 1..]) {
            return Some((low, low + 1 + next));
        }
    }
    None
}

/// The span that has become one with those of the others that it joins.
fn hull_of(span: &Span, others: &[Span]) -> Span
    ensures { result ≡ fold hull span.now (filter (joins span.now) others.now) }
{
    let mut whole = *span;
    for other in others {
        if span.joins(other) {
            whole = whole.hull(other);
        }
    }
    whole
}

/// The span before others, which has become one with those that it joins.
fn joined(alloc: Global, span: &Span, others: &[Span]) -> Result<Vec<Span>, AllocError>
    ensures { IfOk result (λ v. v.items ≡ joined span.now others.now) }
{
    let mut spans = Vec::new(alloc);
    spans.push(hull_of(span, others))?;
    for other in others {
        if !span.joins(other) {
            spans.push(*other)?;
        }
    }
    Ok(spans)
}

/// The spans, of which those that share pages and have the same rights have become one.
pub fn all_joined(alloc: Global, spans: &[Span]) -> Result<Vec<Span>, AllocError>
    ensures { IfOk result (λ v. v.items ≡ all_joined spans.now) }
{
    let mut whole = Vec::new(alloc);
    for done in 0..spans.len() {
        whole = joined(alloc, &spans[spans.len() - 1 - done], &whole)?;
    }
    Ok(whole)
}
