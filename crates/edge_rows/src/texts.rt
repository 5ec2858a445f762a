// Parts of a question, and the characters of an answer.
use anyhow::{Context, Result};
use std::alloc::{AllocError, Global};
use std::fmt::Debug;

/// What stands before a sign, and what stands behind it.
pub fn parted(text: &str, sign: char) -> Result<(&str, &str)> {
    text.split_once(sign).context("another part")
}

fn character(byte: u8) -> char {
    if byte == b'\n' { '|' } else { char::from(byte) }
}

fn push_characters(text: &mut String, bytes: &[u8]) -> Result<(), AllocError> {
    if bytes.is_empty() {
        text.push('-')?;
    }
    for byte in bytes {
        text.push(character(*byte))?;
    }
    Ok(())
}

/// A text, and behind it the characters of bytes, with `|` for the end of a line, or `-` where there are none.
pub fn text_behind(alloc: Global, before: &str, bytes: &[u8]) -> Result<String> {
    let mut text = String::from_str(alloc, before)?;
    push_characters(&mut text, bytes)?;
    Ok(text)
}

/// A refusal, behind its number if it has one.
pub fn refusal_text<R: Debug>(alloc: Global, number: Option<u8>, refusal: &R) -> Result<String> {
    let text = match number {
        Some(number) => format!(in alloc; "refusal {number}, {refusal:?}"),
        None => format!(in alloc; "no number, {refusal:?}"),
    };
    Ok(text?)
}

/// The characters of bytes.
pub fn text_of(alloc: Global, bytes: &[u8]) -> Result<String> {
    text_behind(alloc, "", bytes)
}
