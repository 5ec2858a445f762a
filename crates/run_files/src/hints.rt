//! Hint files, read and written.
ghost use Rattle.std.specs.Prelude.{◌≡◌, ◌≤◌, ◌+◌, ◌*◌, length, IfOk, Ok, List, ℕ, drop};
ghost use Rattle.image_file.specs.Steps.{refuse_at, refuse_if};
ghost use Rattle.translated_file.specs.Limits.{MOST_HINTS};
ghost use Rattle.translated_file.specs.Reading.{first_fall};
ghost use Rattle.translated_file.specs.Whole.{AreHints};
ghost use Rattle.run_files.specs.Hints.{GivesHints, count_of, hints_bytes, hints_length, hints_of};

use crate::hint_refusal::HintRefusal;
use crate::limits::*;
use image_file::{put_words, word_at};
use std::alloc::Global;
use translated_file::{MOST_HINTS, first_fall};
use vax_form::WantOfMemory;

/// How long the file of so many addresses should be.
fn hints_length(count: u32) -> usize
    ensures { result ≡ hints_length count }
{
    HINT_HEADER + HINT_BYTES * count as usize
}

/// How many addresses a file has.
#[tactic(auto, unfolding(crate::specs::Hints::count_of))]
fn count_of(bytes: &[u8]) -> Result<u32, HintRefusal>
    ensures value { result ≡ count_of bytes.now }
    ensures few { IfOk result (λ count. count ≤ MOST_HINTS) }
    ensures whole { IfOk result (λ count. hints_length count ≤ length bytes.now) }
{
    let at = bytes.len() as u64;
    if bytes.len() < HINT_HEADER {
        return Err(HintRefusal::Truncated { at });
    }
    if word_at(bytes, 0) != HINT_MAGIC {
        return Err(HintRefusal::BadMagic);
    }
    let found = word_at(bytes, 4);
    if found != VERSION {
        return Err(HintRefusal::BadVersion { found });
    }
    let count = word_at(bytes, 8);
    if count > MOST_HINTS {
        return Err(HintRefusal::TooMany { count });
    }
    if bytes.len() < hints_length(count) {
        return Err(HintRefusal::Truncated { at });
    }
    Ok(count)
}

fn check_rising(hints: &[u32]) -> Result<(), HintRefusal>
    requires { length hints.now ≤ MOST_HINTS }
    ensures { result ≡ refuse_at (first_fall hints.now) (λ place. HintRefusal.BadHint place) }
{
    match first_fall(hints) {
        Some(place) => Err(HintRefusal::BadHint {
            place: place as u32,
        }),
        None => Ok(()),
    }
}

#[tactic(auto, unfolding(crate::specs::Hints::hints_of))]
fn hints_of(alloc: Global, bytes: &[u8]) -> Result<Vec<u32>, HintRefusal>
    ensures { GivesHints (λ v. v.items) result (hints_of bytes.now) }
{
    let count = count_of(bytes)?;
    let hints = translated_file::hints_of(alloc, count, &bytes[HINT_HEADER..])?;
    check_rising(&hints)?;
    if bytes.len() > hints_length(count) {
        let at = hints_length(count) as u64;
        return Err(HintRefusal::Trailing { at });
    }
    Ok(hints)
}

/// The addresses that a hint file has, or the first reason for which its bytes are none.
pub fn read_hints(alloc: Global, bytes: &[u8]) -> Result<Vec<u32>, HintRefusal>
    // What is read is few rising addresses, and is spelled so.
    ensures found { IfOk result (λ v. AreHints v.items × (bytes.now ≡ hints_bytes v.items)) }
    // What is spelled so is read, unless memory runs out.
    ensures only { (hints : List ℕ) → AreHints hints → bytes.now ≡ hints_bytes hints → GivesHints (λ v. v.items) result (Ok hints) }
    // Which refusal it is.
    ensures exact { GivesHints (λ v. v.items) result (hints_of bytes.now) }
{
    hints_of(alloc, bytes)
}

/// The hint file of few rising addresses.
pub fn write_hints(alloc: Global, hints: &[u32]) -> Result<Vec<u8>, WantOfMemory>
    requires { AreHints hints.now }
    ensures { IfOk result (λ v. v.items ≡ hints_bytes hints.now) }
{
    let mut bytes = Vec::new(alloc);
    put_words(&mut bytes, &[HINT_MAGIC, VERSION, hints.len() as u32])?;
    put_words(&mut bytes, hints)?;
    Ok(bytes)
}
