//! The map from VAX addresses to Alpha word numbers, and back.
//!
//! It is made from a list of pairs that rise in both numbers. Contracts see it as that list.
#![tactic(auto)]

mod beginnings;
mod tables;

ghost use Rattle.std.specs.Prelude.{◌≡◌, IfErr, IfOk, OnOk, map};

use crate::beginnings::beginnings;
use crate::tables::Tables;
use std::alloc::{AllocError, Global};
use std::marker::Model;
use vax_form::WantOfMemory;

/// Why a list of pairs is refused.
#[derive(Clone, Copy, Debug, PartialEq, Eq)]
pub enum MapRefusal {
    /// The pair at this place, counted from 0, is the first that isn't above its predecessor in both numbers, and has
    /// one of its numbers.
    Repeated { place: usize },
    /// The pair at this place is the first that isn't above its predecessor in both numbers, and has neither of them.
    OutOfOrder { place: usize },
    /// There wasn't enough memory.
    WantOfMemory,
}

impl MapRefusal {
    ghost use Rattle.address_map.specs.Refusal.{number_of};

    /// The number of the refusal. Want of memory has none.
    pub fn number(&self) -> Option<u8>
        ensures { result ≡ number_of self.now }
    {
        match *self {
            MapRefusal::Repeated { .. } => Some(1),
            MapRefusal::OutOfOrder { .. } => Some(2),
            MapRefusal::WantOfMemory => None,
        }
    }
}

/// Pairs of a VAX address and an Alpha word number, rising in both.
#[derive(Debug, Drop)]
pub struct AddressMap {
    pairs: Vec<(u32, u32)>,
    by_address: Tables,
    by_word: Tables,
    begins: Vec<bool>,
}

impl Model for AddressMap {
    ghost use Rattle.std.specs.Prelude.{List, ℕ};
    ghost use Rattle.address_map.specs.Sound.{IsSound};

    ghost Value = { List (ℕ × ℕ) };

    ghost view = { λ m. m.pairs.items };

    ghost invariant = { λ m. IsSound m };
}

impl AddressMap {
    ghost use Rattle.std.specs.Prelude.{◌+◌, ◌/◌, ◌<◌, ◌*◌, ℕ, true, Some, length, slice_get, slice_index};
    ghost use Rattle.address_map.specs.Pairs.{AllRise, address_at, word_at};
    ghost use Rattle.address_map.specs.Tables.{has_page, first_page, end_page, page_size, page_span, table_number, upper_word, lower_place};

    /// The Alpha word number of a VAX address; None where no pair has the address.
    pub fn look_up(&self, vax_pc: u32) -> Option<u32>
        ensures { result ≡ word_at self.now vax_pc }
    {
        self.by_address.find(vax_pc)
    }

    /// The VAX address of an Alpha word number; None where no pair has the word number, as behind a block's first word.
    pub fn vax_of(&self, alpha: u32) -> Option<u32>
        ensures { result ≡ address_at self.now alpha }
    {
        match self.begins.get(alpha as usize) {
            Some(false) => None,
            _ => self.by_word.find(alpha),
        }
    }

    /// The page of 512 addresses that has the lowest mapped address; 0 for an empty map.
    pub fn first_page(&self) -> u32
        ensures { result ≡ first_page self.now }
    {
        self.by_address.first_page()
    }

    /// A word for each page from the lowest mapped address's to the highest's: 0 where the page has no mapped address,
    /// else one more than the number of its lower table.
    pub fn upper(&self) -> &[u32]
        ensures pages { length result.now ≡ page_span self.now }
        ensures words { (page : ℕ) → page < page_span self.now → slice_index result.now page ≡ upper_word self.now (first_page self.now + page) }
    {
        self.by_address.upper()
    }

    /// The lower tables, of 512 places each: place `512 * number + address % 512` is `look_up(address)`.
    pub fn lower(&self) -> &[Option<u32>]
        ensures tables { length result.now ≡ page_size * table_number self.now (end_page self.now) }
        ensures places { (address : ℕ) → has_page self.now (address / page_size) ≡ true → slice_get result.now (lower_place self.now address) ≡ Some (word_at self.now address) }
    {
        self.by_address.lower()
    }

    /// The pairs, VAX address first, in rising order.
    pub fn pairs(&self) -> &[(u32, u32)]
        ensures pairs { result.now ≡ self.now }
        ensures rising { AllRise self.now }
    {
        self.pairs.as_slice()
    }
}

ghost use Rattle.address_map.specs.Pairs.{AllRise, swap};
ghost use Rattle.address_map.specs.Refusal.{HasFlaw};

// Looks at each pair beside its predecessor.
fn check_order(pairs: &[(u32, u32)]) -> Result<(), MapRefusal>
    ensures rising { OnOk result (AllRise pairs.now) }
    ensures refused { IfErr result (HasFlaw pairs.now) }
{
    for place in 1..pairs.len() {
        let before = pairs[place - 1];
        let pair = pairs[place];
        if before.0 < pair.0 && before.1 < pair.1 {
            continue;
        }
        return Err(if before.0 == pair.0 || before.1 == pair.1 {
            MapRefusal::Repeated { place }
        } else {
            MapRefusal::OutOfOrder { place }
        });
    }
    Ok(())
}

/// The map of these pairs of VAX address and Alpha word number.
///
/// At the first place where a pair isn't above its predecessor in both numbers, the pairs are refused: as repeated
/// where one of the numbers is its predecessor's, else as out of order.
pub fn build(alloc: Global, pairs: &[(u32, u32)]) -> Result<AddressMap, MapRefusal>
    ensures map { IfOk result (λ m. m ≡ pairs.now) }
    ensures rising { OnOk result (AllRise pairs.now) }
    ensures refused { IfErr result (HasFlaw pairs.now) }
{
    check_order(pairs)?;
    map_of(alloc, pairs).map_err(|_| MapRefusal::WantOfMemory)
}

fn map_of(alloc: Global, pairs: &[(u32, u32)]) -> Result<AddressMap, WantOfMemory>
    requires { AllRise pairs.now }
    ensures { IfOk result (λ m. m ≡ pairs.now) }
{
    let by_word = swapped(alloc, pairs)?;
    Ok(AddressMap {
        pairs: pairs.to_vec(alloc)?,
        by_address: Tables::new(alloc, pairs)?,
        by_word: Tables::new(alloc, &by_word)?,
        begins: beginnings(alloc, pairs)?,
    })
}

// The pairs, with the word in front.
fn swapped(alloc: Global, pairs: &[(u32, u32)]) -> Result<Vec<(u32, u32)>, AllocError>
    ensures { IfOk result (λ v. v.items ≡ map swap pairs.now) }
{
    let mut by_word = Vec::with_capacity(alloc, pairs.len())?;
    for &(address, word) in pairs {
        by_word.push((word, address))?;
    }
    Ok(by_word)
}
