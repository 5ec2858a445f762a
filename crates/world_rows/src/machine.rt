// Two processors that load and store one quadword.
ghost use Rattle.std.specs.Prelude.{◌≡◌, ◌<◌, true, false};
ghost use Rattle.vax_form.specs.Pages.{is_allowed};
ghost use Rattle.memory_core.specs.declared.entry.Limit.TheVariants.{Entries};
ghost use Rattle.memory_core.specs.Kinds.{writes};
ghost use Rattle.memory_core.specs.Changes.{is_change_of};
ghost use Rattle.image_file.specs.Whole.{IsWhole};

use anyhow::{Result, bail};
use image_file::Image;
use memory_core::{Change, Entry, Kind, Limit, MemState, Reply, Request};
use std::alloc::Global;
use system_model::order_of;
use vax_form::Pick;

/// The most entries of a history.
const LIMIT: Limit = Limit::Entries(64);

/// The quadword of the byte.
const QUADWORD: u32 = 0x1000;

/// The memory of an image with a writable page at 1000, and two processors.
#[derive(Drop)]
pub struct Machine {
    memory: MemState,
    ghost readable: { is_allowed memory.set_up.image.pages 0x1000 false ≡ true },
    ghost writable: { is_allowed memory.set_up.image.pages 0x1000 true ≡ true },
    ghost two: { memory.processors ≡ 2 },
    ghost limit: { memory.set_up.limit ≡ Entries 64 },
}

impl Machine {
    /// The memory before any access.
    pub fn new(alloc: Global, image: &Image) -> Result<Machine>
        requires { IsWhole image.now }
    {
        if !image.pages.allowed(0x1000, false) || !image.pages.allowed(0x1000, true) {
            bail!("no writable page");
        }
        match MemState::new(alloc, image, Vec::new(alloc), 2, LIMIT, 0) {
            Ok(memory) => Ok(Machine { memory }),
            Err(_) => bail!("want of memory"),
        }
    }

    /// What a load finds.
    pub fn load(&mut self, processor: u8) -> Option<u64>
        requires { processor < 2 }
    {
        self.read(processor, Kind::Load)
    }

    /// What a load-locked access finds.
    pub fn lock(&mut self, processor: u8) -> Option<u64>
        requires { processor < 2 }
    {
        self.read(processor, Kind::LoadLocked)
    }

    fn read(&mut self, processor: u8, kind: Kind) -> Option<u64>
        requires processor { processor < 2 }
        requires change { is_change_of kind Change.Nothing ≡ true }
        requires reads { writes kind true ≡ false }
    {
        let request = Request {
            processor,
            retired: 0,
            kind,
            quad: QUADWORD,
            change: Change::Nothing,
        };
        match self.memory.access(&request) {
            Reply::Made { before, .. } => Some(before),
            Reply::Full => None,
        }
    }

    /// A store conditional of the whole quadword; whether it succeeds.
    pub fn store(&mut self, processor: u8, value: u64) -> bool
        requires { processor < 2 }
    {
        let request = Request {
            processor,
            retired: 0,
            kind: Kind::StoreConditional,
            quad: QUADWORD,
            change: Change::Bytes { mask: 0xFF, value },
        };
        matches!(
            self.memory.access(&request),
            Reply::Made { success: true, .. }
        )
    }

    /// The accesses so far.
    pub fn history(&self) -> &[Entry] {
        self.memory.history().unwrap()
    }

    /// The order of references that the history keeps.
    pub fn order(&self, alloc: Global) -> Result<Vec<Pick>> {
        match order_of(alloc, self.history()) {
            Ok(order) => Ok(order),
            Err(_) => bail!("want of memory"),
        }
    }
}

/// A quadword with another first byte.
pub fn with_byte(quadword: u64, byte: u8) -> u64 {
    let mut bytes = quadword.to_le_bytes();
    bytes[0] = byte;
    u64::from_le_bytes(bytes)
}
