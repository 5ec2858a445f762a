//! The tail of a file beside a translation.
ghost use Rattle.std.specs.Prelude.{◌≡◌, ◌≤◌, ◌<◌, ◌+◌, ◌*◌, ◌^◌, length, drop};
ghost use Rattle.std.specs.List.{flat_map};
ghost use Rattle.image_file.specs.Steps.{refuse_at};
ghost use Rattle.translated_file.specs.Spelling.{pair_words, tail_words};
ghost use Rattle.translated_file.specs.Comparing.{whole_words, first_difference, refusal_at, length_compared, tail_place, compared};
ghost use Rattle.translated_file.specs.Whole.{AreWhole};

use crate::limits::*;
use crate::parts::Parts;
use crate::refusal::TranslatedRefusal;
use address_map::AddressMap;
use image_file::{image_length, word_at};

/// Whether the tail has these words from a place on, as far as its words go.
fn check_words(tail: &[u8], place: usize, wanted: &[u32]) -> Result<(), TranslatedRefusal>
    requires { place + length wanted.now < 2 ^ 32 }
    ensures { result ≡ refuse_at (first_difference place wanted.now (drop place (whole_words tail.now))) refusal_at }
{
    for (number, wanted) in wanted.iter().enumerate() {
        let at = WORD_BYTES * (place + number);
        if tail.len() < at + WORD_BYTES {
            return Ok(());
        }
        let found = word_at(tail, at);
        if found != *wanted {
            return Err(TranslatedRefusal::NotTheTranslation {
                place: (place + number) as u64,
                found,
                wanted: *wanted,
            });
        }
    }
    Ok(())
}

/// Whether the tail has the words of these pairs from a place on, as far as its words go.
fn check_pairs(tail: &[u8], place: usize, pairs: &[(u32, u32)]) -> Result<(), TranslatedRefusal>
    requires place { place < 2 ^ 31 }
    requires few { length pairs.now ≤ MOST_PAIRS }
    ensures { result ≡ refuse_at (first_difference place (flat_map pair_words pairs.now) (drop place (whole_words tail.now))) refusal_at }
{
    for (number, pair) in pairs.iter().enumerate() {
        check_words(tail, place + PAIR_WORDS * number, &[pair.0, pair.1])?;
    }
    Ok(())
}

/// Whether the tail has the words of this translation's, as far as its words go.
fn check_tail(tail: &[u8], words: &[u32], pairs: &[(u32, u32)]) -> Result<(), TranslatedRefusal>
    requires words { length words.now ≤ MOST_WORDS }
    requires pairs { length pairs.now ≤ MOST_PAIRS }
    ensures { result ≡ refuse_at (first_difference 0 (tail_words words.now pairs.now) (whole_words tail.now)) refusal_at }
{
    let pairs_at = 1 + words.len();
    check_words(tail, 0, &[words.len() as u32])?;
    check_words(tail, 1, words)?;
    check_words(tail, pairs_at, &[pairs.len() as u32])?;
    check_pairs(tail, pairs_at + 1, pairs)
}

/// Where the tail stands in the file.
fn tail_place(parts: &Parts) -> usize
    requires { AreWhole parts.now }
    ensures value { result ≡ tail_place parts.now }
    ensures bound { result < 2 ^ 40 }
{
    HEADER + image_length(&parts.image) + WORD_BYTES * parts.hints.len()
}

/// Refuses a tail that has fewer or more bytes than so many words.
fn check_length(parts: &Parts, words: usize) -> Result<(), TranslatedRefusal>
    requires whole { AreWhole parts.now }
    requires few { words < 2 ^ 32 }
    ensures { result ≡ length_compared (tail_place parts.now) (length parts.now.tail) (WORD_BYTES * words) }
{
    let tail_at = tail_place(parts);
    let found = parts.tail.as_slice().len();
    let wanted = WORD_BYTES * words;
    if found < wanted {
        let at = (tail_at + found) as u64;
        return Err(TranslatedRefusal::Truncated { at });
    }
    if found > wanted {
        let at = (tail_at + wanted) as u64;
        return Err(TranslatedRefusal::Trailing { at });
    }
    Ok(())
}

/// Compares the tail with that of a translation, whose words and map these are. The places in the refusals are those of
/// the whole file.
pub fn compare(parts: &Parts, words: &[u32], map: &AddressMap) -> Result<(), TranslatedRefusal>
    requires parts { AreWhole parts.now }
    requires words { length words.now ≤ MOST_WORDS }
    requires pairs { length map.now ≤ MOST_PAIRS }
    ensures { result ≡ compared parts.now words.now map.now }
{
    let pairs = map.pairs();
    let count = 2 + words.len() + PAIR_WORDS * pairs.len();
    check_tail(&parts.tail, words, pairs).and(check_length(parts, count))
}
