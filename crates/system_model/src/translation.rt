// Translations, and ranges of interpreted addresses.
ghost use Rattle.std.specs.Prelude.{◌≡◌, IfOk};
ghost use Rattle.std.specs.List.{list_any};
ghost use Rattle.system_model.specs.Ranges.{covers, word_for};

use address_map::AddressMap;
use exception_records::Points;
use std::alloc::Global;
use std::marker::Model;
use vax_form::WantOfMemory;

/// The Alpha words of an image, the first word of each mapped VAX address, and what is known of words.
#[derive(Debug, Drop)]
pub struct Translation {
    pub words: Vec<u32>,
    pub map: AddressMap,
    pub points: Points,
}

impl Model for Translation {
    ghost use Rattle.block_law.specs.Translations.{Code};

    ghost Value = { Code };

    ghost view = { λ t. record { words = t.words.items; map = t.map; points = t.points } };
}

impl Translation {
    ghost use Rattle.block_law.specs.Empty.{IsEmpty};

    /// The translation of no instruction.
    pub fn empty(alloc: Global) -> Result<Translation, WantOfMemory>
        ensures { IfOk result IsEmpty }
    {
        let map = address_map::build(alloc, &[]).map_err(|_| WantOfMemory)?;
        let points = exception_records::build(Vec::new(alloc)).map_err(|_| WantOfMemory)?;
        Ok(Translation {
            words: Vec::new(alloc),
            map,
            points,
        })
    }
}

/// VAX addresses that a thread interprets, the first and the last included.
#[derive(Clone, Copy, Debug, PartialEq, Eq)]
pub struct Range {
    pub thread: u8,
    pub first: u32,
    pub last: u32,
}

impl Range {
    ghost use Rattle.system_model.specs.Ranges.{covers};

    fn covers(&self, thread: u8, address: u32) -> bool
        ensures { result ≡ covers thread address self.now }
    {
        self.thread == thread && self.first <= address && address <= self.last
    }
}

fn is_interpreted(ranges: &[Range], thread: u8, address: u32) -> bool
    ensures { result ≡ list_any (covers thread address) ranges.now }
{
    ranges.iter().any(|range| range.covers(thread, address))
}

/// The word at which a thread goes on in Alpha code. None: its address isn't mapped, or it is in a range of the thread.
pub fn word_for(map: &AddressMap, ranges: &[Range], thread: u8, address: u32) -> Option<u32>
    ensures { result ≡ word_for map.now ranges.now thread address }
{
    if is_interpreted(ranges, thread, address) {
        None
    } else {
        map.look_up(address)
    }
}
