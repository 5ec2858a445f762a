// Parts of rows, and the bytes that they spell.
use crate::files::Files;
use anyhow::{Context, Result};
use row_tally::{bytes, number};
use std::alloc::Global;

/// The first word, and what is behind its blank, or nothing.
pub fn first_word(text: &str) -> (&str, &str) {
    text.split_once(' ').unwrap_or((text, ""))
}

/// What stands before a mark, and what stands behind it.
pub fn parted<'a>(text: &'a str, mark: &str) -> Result<(&'a str, &'a str)> {
    text.split_once(mark).context("no such mark")
}

/// The words of a line.
pub fn words_of(alloc: Global, line: &str) -> Result<Vec<String>> {
    let mut words = Vec::new(alloc);
    for word in line.split_whitespace() {
        words.push(String::from_str(alloc, word)?)?;
    }
    Ok(words)
}

/// A number of at most `most`.
pub fn place_of(text: &str) -> Result<usize> {
    Ok(usize::try_from(number(text)?)?)
}

/// FROM-TO: the bytes from a place up to another one, or to the end.
fn part_of<'a>(whole: &'a [u8], part: &str) -> Result<&'a [u8]> {
    let (from, to) = parted(part, "-")?;
    let from = place_of(from)?;
    let to = if to.is_empty() {
        whole.len()
    } else {
        place_of(to)?
    };
    whole.get(from..to).context("no such part")
}

/// NAME or NAME:PART.
fn file_part<'a>(files: &'a Files, text: &str) -> Result<&'a [u8]> {
    match text.split_once(':') {
        Some((name, part)) => part_of(files.get(name)?, part),
        None => files.get(text),
    }
}

/// BYTE*COUNT.
fn push_repeated(alloc: Global, into: &mut Vec<u8>, byte: &str, count: &str) -> Result<()> {
    let byte = bytes(alloc, byte)?;
    for _ in 0..place_of(count)? {
        into.extend_from_slice(&byte)?;
    }
    Ok(())
}

/// Bytes, or what stands for them.
fn push_piece(alloc: Global, files: &Files, into: &mut Vec<u8>, piece: &str) -> Result<()> {
    if let Some(text) = piece.strip_prefix('@') {
        into.extend_from_slice(file_part(files, text)?)?;
        return Ok(());
    }
    if let Some((byte, count)) = piece.split_once('*') {
        return push_repeated(alloc, into, byte, count);
    }
    into.extend_from_slice(&bytes(alloc, piece)?)?;
    Ok(())
}

/// The bytes that pieces spell, which have blanks between.
pub fn spelled(alloc: Global, files: &Files, text: &str) -> Result<Vec<u8>> {
    let mut into = Vec::new(alloc);
    for piece in text.split_whitespace() {
        push_piece(alloc, files, &mut into, piece)?;
    }
    Ok(into)
}

/// The bytes of a text in which a line end is written |.
pub fn lines_of(alloc: Global, text: &str) -> Result<Vec<u8>> {
    let mut lines = Vec::new(alloc);
    for byte in text.as_bytes() {
        lines.push(if *byte == b'|' { b'\n' } else { *byte })?;
    }
    Ok(lines)
}
