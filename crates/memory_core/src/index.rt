// Where the quadwords of an image's pages stand, by an index of the pages.
ghost use Rattle.std.specs.Prelude.{◌≡◌, ◌≤◌, ◌<◌, ◌-◌, ◌+◌, ℕ, suc, if◌then◌else◌, length, slice_index, IfOk, IfSome, OnOk};
ghost use Rattle.vax_form.specs.PageTable.{has_page};
ghost use Rattle.memory_core.specs.Places.{index_word, page_number, page_place, quad_place};

use std::alloc::{AllocError, Global};
use std::marker::Model;
use std::snapshot::Snapshot;
use vax_form::{PAGE_SIZE, PageRange, Pages};

/// The bytes of a quadword.
pub(crate) const QUAD: u32 = 8;

/// The quadwords of a page.
pub(crate) const QUADS: u32 = PAGE_SIZE / QUAD;

/// A word for each page up to the last of an image: 0 where the image doesn't have the page, else one more than the
/// page's number among the image's pages. Contracts see it as the ranges of the image's pages.
#[derive(Drop)]
pub(crate) struct PageIndex {
    pages: Snapshot<Pages>,
    words: Vec<u32>,
}

impl Model for PageIndex {
    ghost use Rattle.std.specs.Prelude.{◌≤◌, List};
    ghost use Rattle.vax_form.specs.declared.pages.PageRange.{PageRange};
    ghost use Rattle.memory_core.specs.Places.{page_count, IsIndexOf};

    ghost Value = { List PageRange };

    ghost view = { λ i. i.pages.value.ranges };

    ghost invariant = { λ i. (page_count i.pages.value.ranges ≤ 4194304) × IsIndexOf i.words.items i.pages.value.ranges };
}

impl PageIndex {
    pub(crate) fn new(alloc: Global, pages: &Pages) -> Result<PageIndex, AllocError>
        ensures { IfOk result (λ index. index ≡ pages.now.ranges) }
    {
        let mut words = Vec::new(alloc);
        let mut before = 0;
        for range in &pages.ranges {
            push_range(&mut words, before, range)?;
            before += range.count;
        }
        Ok(PageIndex {
            pages: Snapshot::of(pages),
            words,
        })
    }

    // A page behind the last word isn't in the image.
    fn word(&self, page: u32) -> u32
        ensures value { result ≡ index_word self.now page }
        ensures low { result ≤ 4194304 }
    {
        self.words.get(page as usize).copied().unwrap_or(0)
    }

    fn page_number(&self, page: u32) -> Option<u32>
        ensures value { result ≡ page_number self.now page }
        ensures low { IfSome result (λ number. number < 4194304) }
    {
        self.word(page).checked_sub(1)
    }

    /// The number of a page's first quadword among the quadwords of the image's pages.
    pub(crate) fn page_place(&self, page: u32) -> Option<u32>
        ensures value { result ≡ page_place self.now page }
        ensures low { IfSome result (λ place. place < 268435456) }
    {
        Some(QUADS * self.page_number(page)?)
    }

    /// The number of the quadword at an address among the quadwords of the image's pages.
    pub(crate) fn quad_place(&self, address: u32) -> Option<usize>
        ensures { result ≡ quad_place self.now address }
    {
        let page = self.page_place(address / PAGE_SIZE)?;
        Some((page + address % PAGE_SIZE / QUAD) as usize)
    }
}

// Appends the words of the pages up to the last of a range, where `before` pages of the image have lower numbers.
fn push_range(words: &mut Vec<u32>, before: u32, range: &PageRange) -> Result<(), AllocError>
    requires rising { length words.old.items ≤ range.now.first }
    requires low { range.now.first + range.now.count ≤ 4194304 }
    requires few { before + range.now.count ≤ 4194304 }
    ensures end { OnOk result (length words.new.items ≡ range.now.first + range.now.count) }
    ensures words { OnOk result ((page : ℕ) → slice_index words.new.items page ≡ (if has_page page range.now then suc (before + (page - range.now.first)) else slice_index words.old.items page)) }
{
    words.resize(range.first as usize, 0)?;
    for n in 0..range.count {
        words.push(before + n + 1)?;
    }
    Ok(())
}
