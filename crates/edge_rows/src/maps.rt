// Questions about maps of addresses.
use crate::texts::{parted, refusal_text};
use address_map::{AddressMap, MapRefusal, build};
use anyhow::{Result, bail};
use row_tally::{Given, four_fields, longword, pairs};
use std::alloc::{AllocError, Global};

fn refused_text(alloc: Global, refusal: MapRefusal) -> Result<String> {
    refusal_text(alloc, refusal.number(), &refusal)
}

/// The pairs of a map as they are written.
fn pairs_text(alloc: Global, map: &AddressMap) -> Result<String> {
    let mut text = String::new(alloc);
    for (place, (address, word)) in map.pairs().iter().enumerate() {
        let comma = if place == 0 { "" } else { "," };
        write!(text, "{comma}{address:X}={word:X}")?;
    }
    Ok(text)
}

/// Answers `all PAIRS`, `large START ADDRESSES WORDS COUNT` and `want of memory`.
pub fn answer(alloc: Global, _given: &Given<'_>, question: &str) -> Result<String> {
    if question == "want of memory" {
        return refused_text(alloc, MapRefusal::WantOfMemory);
    }
    let (kind, rest) = parted(question, ' ')?;
    match kind {
        "all" => all_text(alloc, rest),
        "large" => large_text(alloc, rest),
        _ => bail!("no question: {kind}"),
    }
}

/// The pairs of the map that they make, or the refusal.
fn all_text(alloc: Global, list: &str) -> Result<String> {
    match build(alloc, pairs(alloc, list)?.as_slice()) {
        Ok(map) => pairs_text(alloc, &map),
        Err(refusal) => refused_text(alloc, refusal),
    }
}

/// The first page, and how many upper words and lower places there are.
fn pages_text(alloc: Global, map: &AddressMap) -> Result<String, AllocError> {
    let (first, pages, places) = (map.first_page(), map.upper().len(), map.lower().len());
    format!(in alloc; "{first:X} {pages:X} {places:X}")
}

/// A list of pairs that begin at an address and word 0 and are so far apart in both.
#[derive(Clone, Copy)]
struct Spread {
    start: u32,
    addresses: u32,
    words: u32,
    count: u32,
}

impl Spread {
    /// Reads START ADDRESSES WORDS COUNT.
    fn read(text: &str) -> Result<Spread> {
        let (start, addresses, words, count) = four_fields(text)?;
        Ok(Spread {
            start: longword(start)?,
            addresses: longword(addresses)?,
            words: longword(words)?,
            count: longword(count)?,
        })
    }

    fn pair(&self, place: u32) -> (u32, u32) {
        (
            self.start.wrapping_add(self.addresses.wrapping_mul(place)),
            self.words.wrapping_mul(place),
        )
    }

    fn map(&self, alloc: Global) -> Result<AddressMap> {
        let mut pairs = Vec::new(alloc);
        for place in 0..self.count {
            pairs.push(self.pair(place))?;
        }
        match build(alloc, pairs.as_slice()) {
            Ok(map) => Ok(map),
            Err(_) => bail!("no large map"),
        }
    }

    /// Whether a pair is found by its address and by its word, and nothing between it and the next.
    fn is_found(&self, map: &AddressMap, place: u32) -> bool {
        let (address, word) = self.pair(place);
        map.look_up(address) == Some(word)
            && map.vax_of(word) == Some(address)
            && (self.addresses == 1 || map.look_up(address.wrapping_add(1)).is_none())
            && (self.words == 1 || map.vax_of(word.wrapping_add(1)).is_none())
    }

    fn found(&self, map: &AddressMap) -> u32 {
        let mut found = 0u32;
        for place in 0..self.count {
            found = found.saturating_add(u32::from(self.is_found(map, place)));
        }
        found
    }
}

/// The pages of a large map, and how many of its pairs are found.
fn large_text(alloc: Global, rest: &str) -> Result<String> {
    let spread = Spread::read(rest)?;
    let map = spread.map(alloc)?;
    let found = spread.found(&map);
    Ok(format!(in alloc; "{} {found:X}", pages_text(alloc, &map)?)?)
}
