//! The parts of a translated file from its bytes.
ghost use Rattle.std.specs.Prelude.{◌≡◌, ◌≤◌, ◌*◌, ◌<◌, length, IfOk, IfSome, Ok};
ghost use Rattle.image_file.specs.Reading.{word, table_in, image_of};
ghost use Rattle.image_file.specs.Steps.{refuse_at};
ghost use Rattle.translated_file.specs.Values.{PartsValue};
ghost use Rattle.translated_file.specs.Spelling.{parts_bytes};
ghost use Rattle.translated_file.specs.Reading.{Gives, of_image, first_fall, parts_of};
ghost use Rattle.translated_file.specs.Whole.{AreWhole};

use crate::header::header_of;
use crate::limits::*;
use crate::parts::Parts;
use crate::refusal::TranslatedRefusal;
use image_file::{Image, ImageRefusal, read_image, word_at};
use std::alloc::{AllocError, Global};

fn image_of(alloc: Global, bytes: &[u8]) -> Result<Image, TranslatedRefusal>
    ensures { Gives (λ i. i) result (of_image (image_of bytes.now)) }
{
    match read_image(alloc, bytes) {
        Ok(image) => Ok(image),
        Err(ImageRefusal::WantOfMemory) => Err(TranslatedRefusal::WantOfMemory),
        Err(refusal) => Err(TranslatedRefusal::Inner(refusal)),
    }
}

/// So many hints, which stand in front.
pub fn hints_of(alloc: Global, count: u32, bytes: &[u8]) -> Result<Vec<u32>, AllocError>
    requires { WORD_BYTES * count ≤ length bytes.now }
    ensures { IfOk result (λ v. v.items ≡ table_in WORD_BYTES word count bytes.now) }
{
    let mut hints = Vec::new(alloc);
    for place in 0..count {
        hints.push(word_at(bytes, WORD_BYTES * place as usize))?;
    }
    Ok(hints)
}

/// The place of the first number that isn't above its predecessor.
pub fn first_fall(numbers: &[u32]) -> Option<usize>
    ensures value { result ≡ first_fall numbers.now }
    ensures within { IfSome result (λ place. place < length numbers.now) }
{
    for place in 1..numbers.len() {
        if numbers[place] <= numbers[place - 1] {
            return Some(place);
        }
    }
    None
}

fn check_hints(hints: &[u32]) -> Result<(), TranslatedRefusal>
    requires { length hints.now ≤ MOST_HINTS }
    ensures { result ≡ refuse_at (first_fall hints.now) (λ place. TranslatedRefusal.BadHint place) }
{
    match first_fall(hints) {
        Some(place) => Err(TranslatedRefusal::BadHint {
            place: place as u32,
        }),
        None => Ok(()),
    }
}

#[tactic(auto, unfolding(crate::specs::Reading::parts_of))]
fn parts_of(alloc: Global, bytes: &[u8]) -> Result<Parts, TranslatedRefusal>
    ensures { Gives (λ p. p) result (parts_of bytes.now) }
{
    let header = header_of(bytes)?;
    let hints_at = header.hints_at();
    let image = image_of(alloc, &bytes[HEADER..hints_at])?;
    let hints = hints_of(alloc, header.hints, &bytes[hints_at..])?;
    check_hints(&hints)?;
    let tail = Vec::from_slice(alloc, &bytes[header.tail_at()..])?;
    Ok(Parts {
        version: header.version,
        image,
        hints,
        tail,
    })
}

/// The parts that the bytes mean, or the first reason for which they mean none. Nothing is said of the tail.
pub fn read_parts(alloc: Global, bytes: &[u8]) -> Result<Parts, TranslatedRefusal>
    // What is read is spelled so.
    ensures found { IfOk result (λ parts. AreWhole parts × (bytes.now ≡ parts_bytes parts)) }
    // What is spelled so is read, unless memory runs out.
    ensures only { (parts : PartsValue) → AreWhole parts → bytes.now ≡ parts_bytes parts → Gives (λ p. p) result (Ok parts) }
    // Which refusal it is.
    ensures exact { Gives (λ p. p) result (parts_of bytes.now) }
{
    parts_of(alloc, bytes)
}
