// Translated files that `translate` wrote, cut and changed, and orders cut.
use crate::call::Line;
use crate::trial::Trial;
use anyhow::{Context, Result};
use row_files::{Files, parted};
use std::alloc::Global;
use std::sync::Wait;
use std::thread::Threads;

/// The bytes by which a translated file is known.
const MAGIC: usize = 4;

/// The bytes of its header.
const HEADER: usize = 16;

/// Where the header has the length of the image.
const LENGTH: usize = 8;

/// The bytes of a word.
const WORD: usize = 4;

/// The name of the file that is run or replayed.
const NAME: &str = "cut";

/// Runs it.
const RUN: Line<'static> = Line {
    before: "run",
    name: NAME,
    behind: "",
};

/// Whether a call over a file of these bytes is refused with these words and numbers.
fn refuses<R: Threads + Wait + Sync>(
    rt: &R,
    alloc: Global,
    trial: &mut Trial,
    line: Line<'_>,
    bytes: Vec<u8>,
    words: &str,
    numbers: &[u64],
) -> Result<bool> {
    trial.files.put(alloc, NAME, bytes)?;
    trial.call(rt, alloc, line)?;
    Ok(trial.last.is_refused(alloc, words, numbers)?)
}

/// The first `length` bytes.
fn beginning(alloc: Global, whole: &[u8], length: usize) -> Result<Vec<u8>> {
    let beginning = whole.get(..length).context("a beginning")?;
    Ok(beginning.to_vec(alloc)?)
}

/// Whether each beginning of so many bytes or more is refused with these words and its length.
fn refuses_each<R: Threads + Wait + Sync>(
    rt: &R,
    alloc: Global,
    trial: &mut Trial,
    line: Line<'_>,
    whole: &[u8],
    least: usize,
    words: &str,
) -> Result<bool> {
    for length in least..whole.len() {
        let cut = beginning(alloc, whole, length)?;
        if !refuses(rt, alloc, trial, line, cut, words, &[length as u64])? {
            return Ok(false);
        }
    }
    Ok(least < whole.len())
}

/// Whether `run` refuses each beginning, from four bytes on, as too short, with its length.
pub fn refuses_prefixes<R: Threads + Wait + Sync>(
    rt: &R,
    alloc: Global,
    trial: &mut Trial,
    whole: &[u8],
) -> Result<bool> {
    trial.files = Files::none(alloc);
    refuses_each(rt, alloc, trial, RUN, whole, MAGIC, "refused translated 1")
}

/// IMAGE FILE: whether `replay` of the image refuses each beginning of the order as too short, with its length.
pub fn refuses_beginnings<R: Threads + Wait + Sync>(
    rt: &R,
    alloc: Global,
    trial: &mut Trial,
    files: &Files,
    names: &str,
) -> Result<bool> {
    let (image, file) = parted(names, " ")?;
    let line = Line {
        before: "replay",
        name: image,
        behind: NAME,
    };
    trial.begin(alloc, files)?;
    refuses_each(
        rt,
        alloc,
        trial,
        line,
        files.get(file)?,
        0,
        "refused order 1",
    )
}

/// The bytes and one more.
fn longer(alloc: Global, whole: &[u8]) -> Result<Vec<u8>> {
    let mut longer = whole.to_vec(alloc)?;
    longer.push(0)?;
    Ok(longer)
}

/// Whether the file with one byte more is refused, with the place of that byte.
pub fn refuses_longer<R: Threads + Wait + Sync>(
    rt: &R,
    alloc: Global,
    trial: &mut Trial,
    whole: &[u8],
) -> Result<bool> {
    trial.files = Files::none(alloc);
    let (longer, place) = (longer(alloc, whole)?, whole.len() as u64);
    refuses(
        rt,
        alloc,
        trial,
        RUN,
        longer,
        "refused translated 6",
        &[place],
    )
}

/// The word at a place.
fn word_at(bytes: &[u8], at: usize) -> Result<u32> {
    let rest = bytes.get(at..).context("a place")?;
    let word = rest.first_chunk().context("a word")?;
    Ok(u32::from_le_bytes(*word))
}

/// The bytes with the lowest bit of that at a place changed.
fn changed_at(alloc: Global, whole: &[u8], at: usize) -> Result<Vec<u8>> {
    let mut changed = whole.to_vec(alloc)?;
    if let Some(byte) = changed.get_mut(at) {
        *byte ^= 1;
    }
    Ok(changed)
}

/// Whether the file with another word there, which is that word of its tail, is refused.
fn refuses_change<R: Threads + Wait + Sync>(
    rt: &R,
    alloc: Global,
    trial: &mut Trial,
    whole: &[u8],
    at: usize,
    place: usize,
) -> Result<bool> {
    let word = u64::from(word_at(whole, at)?);
    let numbers = [place as u64, word ^ 1, word];
    let changed = changed_at(alloc, whole, at)?;
    refuses(
        rt,
        alloc,
        trial,
        RUN,
        changed,
        "refused translated 5",
        &numbers,
    )
}

/// Where the tail of a file without hints begins.
fn tail_of(whole: &[u8]) -> Result<usize> {
    Ok((word_at(whole, LENGTH)? as usize).saturating_add(HEADER))
}

/// Whether the file, which has no hints, is refused with any word of its tail changed, with that word's place, the word found
/// and the right one.
pub fn refuses_changes<R: Threads + Wait + Sync>(
    rt: &R,
    alloc: Global,
    trial: &mut Trial,
    whole: &[u8],
) -> Result<bool> {
    trial.files = Files::none(alloc);
    let tail = tail_of(whole)?;
    let words = whole.len().saturating_sub(tail) / WORD;
    for place in 0..words {
        let at = tail.saturating_add(place.saturating_mul(WORD));
        if !refuses_change(rt, alloc, trial, whole, at, place)? {
            return Ok(false);
        }
    }
    Ok(words > 0)
}
