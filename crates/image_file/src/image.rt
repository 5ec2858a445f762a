// Images: their threads, sections and entries.
ghost use Rattle.std.specs.Prelude.{◌≡◌, false, is_some};

use crate::limits::FIRST_REGISTERS;
use std::marker::Model;
use vax_form::{PAGE_SIZE, Pages, Pending, VaxState};

/// Where a thread starts: its PC, its stack pointer, and R0 to R13, which are 0 in images of version 1.
#[derive(Clone, Copy, Debug, PartialEq, Eq)]
pub struct Start {
    pub pc: u32,
    pub sp: u32,
    pub first: [u32; FIRST_REGISTERS],
}

impl Start {
    ghost use Rattle.image_file.specs.Start.{start_state};

    /// The thread's state before its first instruction.
    pub fn state(&self) -> VaxState
        ensures { result ≡ start_state self.now }
    {
        let mut r = [self.sp; FIRST_REGISTERS + 1];
        r[..FIRST_REGISTERS].copy_from_slice(&self.first);
        VaxState {
            r,
            pc: self.pc,
            psw: 0,
            handler: 0,
            pending: Pending::Nothing,
        }
    }
}

/// A section of memory: `size` bytes from the page at `start` on, of which the first are stored and the others are 0.
#[derive(Debug, Drop)]
pub struct Section {
    pub start: u32,
    pub size: u32,
    pub writable: bool,
    pub stored: Vec<u8>,
}

impl Model for Section {
    ghost use Rattle.image_file.specs.Values.{SectionValue};

    ghost Value = { SectionValue };

    ghost view = { λ s. record { start = s.start; size = s.size; writable = s.writable; stored = s.stored.items } };
}

impl Section {
    ghost use Rattle.image_file.specs.Memory.{has_address, byte_at};

    /// Whether the address is in a page of the section.
    pub fn has(&self, address: u32) -> bool
        ensures { result ≡ has_address address self.now }
    {
        let page = address / PAGE_SIZE;
        let first = self.start / PAGE_SIZE;
        first <= page && page - first < self.size.div_ceil(PAGE_SIZE)
    }

    fn byte(&self, address: u32) -> u8
        ensures { result ≡ byte_at address self.now }
    {
        let place = address.saturating_sub(self.start) as usize;
        self.stored.get(place).copied().unwrap_or(0)
    }
}

/// A VAX image, of version 1 or 2 of the format. `entries` are addresses of code beside those at which threads start, and `pages` is the page table of
/// the sections.
#[derive(Debug, Drop)]
pub struct Image {
    pub version: u16,
    pub threads: Vec<Start>,
    pub sections: Vec<Section>,
    pub entries: Vec<u32>,
    pub pages: Pages,
}

impl Model for Image {
    ghost use Rattle.image_file.specs.Values.{ImageValue};

    ghost Value = { ImageValue };

    ghost view = { λ i. record { version = i.version; threads = i.threads.items; sections = i.sections.items; entries = i.entries.items; pages = i.pages } };
}

impl Image {
    ghost use Rattle.vax_form.specs.Pages.{is_allowed};
    ghost use Rattle.image_file.specs.Memory.{byte_of_image};
    ghost use Rattle.image_file.specs.Whole.{IsWhole};

    /// The byte at an address before any thread has run, where a section has its page.
    pub fn byte(&self, address: u32) -> Option<u8>
        ensures value { result ≡ byte_of_image self.now address }
        ensures in_pages { IsWhole self.now → is_some result ≡ is_allowed self.now.pages address false }
    {
        for section in &self.sections {
            if section.has(address) {
                return Some(section.byte(address));
            }
        }
        None
    }
}
