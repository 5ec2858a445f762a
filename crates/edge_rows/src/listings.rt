// Questions about listings.
use crate::texts::text_of;
use address_map::{AddressMap, build};
use anyhow::{Result, bail};
use report_text::{are_within, listing};
use row_tally::{Given, longwords, pairs, two_fields};
use std::alloc::Global;

fn map_of(alloc: Global, text: &str) -> Result<AddressMap> {
    match build(alloc, &pairs(alloc, text)?) {
        Ok(map) => Ok(map),
        Err(_) => bail!("no map"),
    }
}

fn listing_text(alloc: Global, words: &[u32], map: &AddressMap) -> Result<String> {
    if !are_within(words, map) {
        return Ok(String::from_str(alloc, "none")?);
    }
    match listing(alloc, words, map) {
        Ok(lines) => text_of(alloc, &lines),
        Err(_) => bail!("no memory"),
    }
}

/// Answers WORDS PAIRS: the listing of these words with a map of these pairs, or `none` where a block begins at no word.
pub fn answer(alloc: Global, _given: &Given<'_>, question: &str) -> Result<String> {
    let (words, pairs) = two_fields(question)?;
    let words = longwords(alloc, words)?;
    listing_text(alloc, &words, &map_of(alloc, pairs)?)
}
