// Marks of the addresses at which threads retired instructions.
ghost use Rattle.std.specs.Prelude.{◌≡◌, ◌≤◌, position, IfOk};
ghost use Rattle.stored_runs.specs.Marks.{AreUnmarked, IsUnmarked};

use std::alloc::{AllocError, Global};
use vax_form::{PAGE_SIZE, PageRange, Pages};

/// Marks of addresses that follow one another.
#[derive(Drop)]
pub(crate) struct MarkedRange {
    start: u32,
    marks: Vec<bool>,
}

impl MarkedRange {
    ghost use Rattle.stored_runs.specs.Marks.{has_place};

    fn has(&self, address: u32) -> bool
        ensures { result ≡ has_place address self.now }
    {
        self.start <= address && ((address - self.start) as usize) < self.marks.len()
    }
}

/// A mark for each byte of the code of an image, a range for each of its sections.
#[derive(Drop)]
pub(crate) struct Marks {
    pub(crate) ranges: Vec<MarkedRange>,
}

impl Marks {
    ghost use Rattle.stored_runs.specs.Marks.{has_place, is_marked, mark_of, with_mark};

    /// A mark for each byte of the code, none of them set.
    pub(crate) fn of_code(alloc: Global, pages: &Pages) -> Result<Marks, AllocError>
        ensures { IfOk result (AreUnmarked pages.now) }
    {
        let mut ranges = Vec::new(alloc);
        for range in &pages.ranges {
            ranges.push(unmarked(alloc, range)?)?;
        }
        Ok(Marks { ranges })
    }

    /// The place of the range that has a mark for an address.
    fn place(&self, address: u32) -> Option<usize>
        ensures { result ≡ position (has_place address) self.now.ranges.items }
    {
        self.ranges.iter().position(|range| range.has(address))
    }

    /// Whether an address is marked.
    pub(crate) fn is_marked(&self, address: u32) -> bool
        ensures { result ≡ is_marked (mark_of self.now address) }
    {
        match self.place(address) {
            Some(place) => {
                let range = &self.ranges[place];
                range.marks[(address - range.start) as usize]
            }
            None => false,
        }
    }

    /// Sets the mark of an address, where it has one.
    pub(crate) fn mark(&mut self, address: u32)
        ensures { mark_of self.new ≡ with_mark (mark_of self.old) address }
    {
        match self.place(address) {
            Some(place) => {
                let range = &mut self.ranges[place];
                range.marks[(address - range.start) as usize] = true;
            }
            None => {}
        }
    }
}

/// The marks of the code of a range of pages, none of them set.
fn unmarked(alloc: Global, range: &PageRange) -> Result<MarkedRange, AllocError>
    requires { range.now.first ≤ 4194304 }
    ensures { IfOk result (IsUnmarked range.now) }
{
    let count = if range.writable { 0 } else { range.count };
    let mut marks = Vec::new(alloc);
    marks.resize(PAGE_SIZE as usize * count as usize, false)?;
    Ok(MarkedRange {
        start: PAGE_SIZE * range.first,
        marks,
    })
}
