// Bytes that a question spells.
use anyhow::{Context, Result};
use row_tally::{bytes, longword, pieces};
use std::alloc::Global;

/// The numbers beside the sign.
fn bounds_of(part: &str) -> Result<(u32, u32)> {
    let (from, to) = part.split_once('-').context("a pair")?;
    Ok((longword(from)?, longword(to)?))
}

/// The digits of a sample's part FROM-TO, with the byte at FROM and without the one at TO, or of all of it.
fn part_of<'a>(sample: &'a str, part: &str) -> Result<&'a str> {
    if part.is_empty() {
        return Ok(sample);
    }
    let (from, to) = bounds_of(part)?;
    let (from, to) = (from as usize, to as usize);
    sample.get(2 * from..2 * to).context("a part of the sample")
}

/// The digits that a piece spells, and how often.
fn digits_of<'a>(sample: &'a str, piece: &'a str) -> Result<(&'a str, u32)> {
    if let Some(part) = piece.strip_prefix('@') {
        return Ok((part_of(sample, part)?, 1));
    }
    match piece.split_once('*') {
        Some((digits, count)) => Ok((digits, longword(count)?)),
        None => Ok((piece, 1)),
    }
}

fn push_piece(alloc: Global, all: &mut Vec<u8>, sample: &str, piece: &str) -> Result<()> {
    let (digits, count) = digits_of(sample, piece)?;
    let piece = bytes(alloc, digits)?;
    for _ in 0..count {
        all.extend_from_slice(&piece)?;
    }
    Ok(())
}

/// The bytes that pieces spell, with commas between: BYTES in hexadecimal, BYTES*COUNT, or @FROM-TO of the sample.
pub fn bytes_of(alloc: Global, sample: &str, text: &str) -> Result<Vec<u8>> {
    let mut all = Vec::new(alloc);
    for piece in &pieces(alloc, text)? {
        push_piece(alloc, &mut all, sample, piece)?;
    }
    Ok(all)
}
