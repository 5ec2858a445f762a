// Texts and files of hexadecimal lines, as bytes.
use anyhow::Result;
use row_files::lines_of;
use row_tally::bytes;
use std::alloc::Global;

/// Stands for no text.
const NOTHING: &str = "-";

/// The bytes of a file of hexadecimal lines.
pub fn decoded(alloc: Global, text: &str) -> Result<Vec<u8>> {
    let mut into = Vec::new(alloc);
    for line in text.split_whitespace() {
        into.extend_from_slice(&bytes(alloc, line)?)?;
    }
    Ok(into)
}

/// A text, in which a line end is written |, or nothing.
pub fn text_of(alloc: Global, text: &str) -> Result<Vec<u8>> {
    if text == NOTHING {
        Ok(Vec::new(alloc))
    } else {
        lines_of(alloc, text)
    }
}
