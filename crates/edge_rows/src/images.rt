// Questions about the files of images.
ghost use Rattle.image_file.specs.Whole.{IsWhole};

use crate::spelled::bytes_of;
use crate::texts::{parted, refusal_text};
use anyhow::{Result, anyhow, bail};
use image_file::{Image, read_image, write_image};
use row_tally::Given;
use std::alloc::Global;

fn count_text(alloc: Global, count: usize) -> Result<String> {
    Ok(format!(in alloc; "{count:X}")?)
}

fn written_text(alloc: Global, image: &Image, bytes: &[u8]) -> Result<String>
    requires { IsWhole image.now }
{
    match write_image(alloc, image) {
        Ok(written) => {
            let same = written.as_slice() == bytes;
            Ok(String::from_str(alloc, if same { "yes" } else { "no" })?)
        }
        Err(want) => Err(anyhow!("{want:?}")),
    }
}

/// Answers a question about an image, whose file these bytes are.
fn image_answer(alloc: Global, image: &Image, bytes: &[u8], question: &str) -> Result<String>
    requires { IsWhole image.now }
{
    match question {
        "code-bytes" => count_text(alloc, image.pages.code.len()),
        "written" => written_text(alloc, image, bytes),
        _ => bail!("no question: {question}"),
    }
}

/// Answers BYTES QUESTION, and for bytes that are no image the refusal.
pub fn answer(alloc: Global, given: &Given<'_>, question: &str) -> Result<String> {
    let (pieces, question) = parted(question, ' ')?;
    let bytes = bytes_of(alloc, given.sample, pieces)?;
    match read_image(alloc, &bytes) {
        Ok(image) => image_answer(alloc, &image, &bytes, question),
        Err(refusal) => refusal_text(alloc, refusal.number(), &refusal),
    }
}
