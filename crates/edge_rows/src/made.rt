// Questions about generated images.
ghost use Rattle.std.specs.Prelude.{◌≤◌, IfOk};
ghost use Rattle.image_file.specs.Whole.{IsWhole};

use crate::texts::parted;
use anyhow::{Result, bail, ensure};
use image_file::{Image, read_image, write_image};
use report_text::{MOST_GROUPS, generated, generated_bytes};
use row_tally::{Given, longword};
use std::alloc::Global;

fn image_of(alloc: Global, number: u32) -> Result<Image>
    requires { number ≤ MOST_GROUPS }
    ensures { IfOk result IsWhole }
{
    match generated(alloc, number) {
        Ok(image) => Ok(image),
        Err(_) => bail!("no memory"),
    }
}

fn file_of(alloc: Global, image: &Image) -> Result<Vec<u8>>
    requires { IsWhole image.now }
{
    match write_image(alloc, image) {
        Ok(file) => Ok(file),
        Err(_) => bail!("no memory"),
    }
}

/// Whether the file is read, and the image that is read has the same file.
fn reads_back(alloc: Global, file: &[u8]) -> Result<bool> {
    match read_image(alloc, file) {
        Ok(image) => Ok(file_of(alloc, &image)?.as_slice() == file),
        Err(_) => Ok(false),
    }
}

/// The sum of the bytes.
fn sum_of(file: &[u8]) -> u64 {
    let mut sum = 0u64;
    for byte in file {
        sum = sum.wrapping_add(u64::from(*byte));
    }
    sum
}

fn again_text(alloc: Global, file: &[u8]) -> Result<String> {
    let again = reads_back(alloc, file)?;
    Ok(String::from_str(alloc, if again { "yes" } else { "no" })?)
}

/// What a kind of question asks of the file of a generated image.
fn file_text(alloc: Global, kind: &str, file: &[u8]) -> Result<String> {
    match kind {
        "length" => Ok(format!(in alloc; "{}", file.len())?),
        "file" => Ok(hex::encode_upper(alloc, file)?),
        "sum" => Ok(format!(in alloc; "{:X}", sum_of(file))?),
        "again" => again_text(alloc, file),
        _ => bail!("no question"),
    }
}

fn number_of(text: &str) -> Result<u32>
    ensures { IfOk result (λ number. number ≤ MOST_GROUPS) }
{
    let number = longword(text)?;
    ensure!(number <= MOST_GROUPS, "no generated image");
    Ok(number)
}

fn generated_file(alloc: Global, number: u32) -> Result<Vec<u8>>
    requires { number ≤ MOST_GROUPS }
{
    let image = image_of(alloc, number)?;
    file_of(alloc, &image)
}

fn counted_text(alloc: Global, number: u32) -> Result<String>
    requires { number ≤ MOST_GROUPS }
{
    Ok(format!(in alloc; "{}", generated_bytes(number))?)
}

/// Answers `length NUMBER`, `counted NUMBER`, `file NUMBER`, `sum NUMBER` and `again NUMBER`.
pub fn answer(alloc: Global, _given: &Given<'_>, question: &str) -> Result<String> {
    let (kind, number) = parted(question, ' ')?;
    let number = number_of(number)?;
    if kind == "counted" {
        return counted_text(alloc, number);
    }
    file_text(alloc, kind, &generated_file(alloc, number)?)
}
