// The rows of the table of sections.
ghost use Rattle.std.specs.Prelude.{◌≡◌};

use crate::limits::ADDRESS_END;
use vax_form::PAGE_SIZE;

/// A row of the section table. `stored` is how many bytes of the section are stored.
#[derive(Clone, Copy, Debug, PartialEq, Eq)]
pub struct Row {
    pub start: u32,
    pub size: u32,
    pub stored: u32,
    pub flags: u32,
}

impl Row {
    ghost use Rattle.image_file.specs.Rows.{is_sound, page_count, has_page, has_code, shares_page};

    pub fn is_sound(&self) -> bool
        ensures { result ≡ is_sound self.now }
    {
        self.start % PAGE_SIZE == 0
            && self.size > 0
            && self.stored <= self.size
            && u64::from(self.start) + u64::from(self.size) <= ADDRESS_END
            && self.flags <= 1
    }

    /// The number of pages.
    pub fn pages(&self) -> u32
        ensures { result ≡ page_count self.now.size }
    {
        self.size.div_ceil(PAGE_SIZE)
    }

    pub fn has_page(&self, page: u32) -> bool
        ensures { result ≡ has_page page self.now }
    {
        let first = self.start / PAGE_SIZE;
        first <= page && page - first < self.pages()
    }

    /// Whether the address is in a page of a read-only section.
    pub fn has_code(&self, address: u32) -> bool
        ensures { result ≡ has_code address self.now }
    {
        self.flags == 0 && self.has_page(address / PAGE_SIZE)
    }

    pub fn shares_page(&self, other: &Row) -> bool
        ensures { result ≡ shares_page self.now other.now }
    {
        self.has_page(other.start / PAGE_SIZE) || other.has_page(self.start / PAGE_SIZE)
    }
}
