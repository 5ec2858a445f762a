// The page table: which pages there are, and what may be done to them.
ghost use Rattle.std.specs.Prelude.{◌≡◌, ◌≤◌, IfSome, is_some, find, option_map};

use std::marker::Model;

/// The bytes of a page.
pub const PAGE_SIZE: u32 = 512;

/// Pages that follow one another: `count` of them from the page number `first` on, which is an address divided by 512.
/// `place` is where a read-only range's first byte stands in the code of its `Pages`, and 0 for a writable range.
#[derive(Clone, Copy, Debug, PartialEq, Eq)]
pub struct PageRange {
    pub first: u32,
    pub count: u32,
    pub writable: bool,
    pub place: u32,
}

impl PageRange {
    ghost use Rattle.vax_form.specs.PageTable.{has_page};

    /// Whether the page is one of the range.
    fn has(&self, page: u32) -> bool
        ensures { result ≡ has_page page self.now }
    {
        self.first <= page && page - self.first < self.count
    }
}

/// The page table of an image: its ranges in rising order, without overlap, below page 4,194,304, and the bytes of the
/// read-only ranges, one range after the other.
#[derive(Debug, Drop)]
pub struct Pages {
    pub ranges: Vec<PageRange>,
    pub code: Vec<u8>,
}

impl Model for Pages {
    ghost use Rattle.vax_form.specs.PageTable.{PageTable, IsPageTable};

    ghost Value = { PageTable };

    ghost view = { λ p. record { ranges = p.ranges.items; code = p.code.items } };

    ghost invariant = { λ p. IsPageTable (record { ranges = p.ranges.items; code = p.code.items }) };
}

impl Pages {
    ghost use Rattle.vax_form.specs.Pages.{is_allowed, has_code, is_code, code_byte_at, code_from, AreCode, first_bad};
    ghost use Rattle.vax_form.specs.Parts.{parts, first_bad_part};

    /// Whether the byte at the address may be used: its page is in a range, and the range is writable where `write`
    /// holds.
    pub fn allowed(&self, address: u32, write: bool) -> bool
        ensures { result ≡ is_allowed self.now address write }
    {
        let page = address / PAGE_SIZE;
        self.ranges
            .iter()
            .any(|r| r.has(page) && (!write || r.writable))
    }

    /// The byte at an address in a read-only page.
    pub fn code_byte(&self, address: u32) -> Option<u8>
        ensures byte { result ≡ code_byte_at self.now address }
        ensures variant { is_some result ≡ is_code self.now address }
    {
        let code = &self.code;
        let range = self.code_range(address)?;
        let place = range.place + (address - PAGE_SIZE * range.first);
        Some(code[place as usize])
    }

    /// The bytes from an address in a read-only page on, up to the end of its range.
    pub fn code_from(&self, address: u32) -> Option<&[u8]>
        ensures bytes { option_map (λ bytes. bytes.now) result ≡ code_from self.now address }
        ensures stand { IfSome result (λ bytes. AreCode self.now address bytes.now) }
    {
        let code = &self.code;
        let range = self.code_range(address)?;
        let start = range.place + (address - PAGE_SIZE * range.first);
        let end = range.place + PAGE_SIZE * range.count;
        Some(&code[start as usize..end as usize])
    }

    fn code_range(&self, address: u32) -> Option<PageRange>
        ensures { result ≡ find (has_code address) self.now.ranges }
    {
        let page = address / PAGE_SIZE;
        self.ranges
            .iter()
            .find(|r| r.has(page) && !r.writable)
            .copied()
    }

    /// The first of up to eight bytes from the address on that may not be used. Those in one aligned quadword stand in
    /// one page, so two tests decide.
    pub fn first_bad(&self, address: u32, count: u32, write: bool) -> Option<u32>
        requires { count ≤ 8 }
        ensures bytes { result ≡ first_bad self.now write address count }
        ensures parts { result ≡ first_bad_part self.now write (parts address count) }
    {
        if count == 0 {
            return None;
        }
        if !self.allowed(address, write) {
            return Some(address);
        }
        let front = 8 - address % 8;
        if count <= front {
            return None;
        }
        let next = address.wrapping_add(front);
        if !self.allowed(next, write) {
            return Some(next);
        }
        None
    }
}
