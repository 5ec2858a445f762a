//! The bytes of a translated file from its parts.
ghost use Rattle.std.specs.Prelude.{◌≡◌, ◌≤◌, ◌<◌, ◌^◌, ◌++◌, length, IfOk, OnOk, Ok, true};
ghost use Rattle.std.specs.List.{flat_map, AllByRecursion};
ghost use Rattle.image_file.specs.Whole.{IsWhole};
ghost use Rattle.translated_file.specs.Limits.{is_version};
ghost use Rattle.translated_file.specs.Spelling.{word_bytes, header_bytes, pair_words, tail_words, written_parts, spelling};
ghost use Rattle.translated_file.specs.Reading.{parts_of};
ghost use Rattle.translated_file.specs.Comparing.{accepted};
ghost use Rattle.translated_file.specs.Whole.{IsLong, Rise};

use crate::limits::*;
use address_map::AddressMap;
use image_file::{Image, put_words, write_image};
use std::alloc::Global;
use vax_form::WantOfMemory;

fn put_pairs(out: &mut Vec<u8>, pairs: &[(u32, u32)]) -> Result<(), WantOfMemory>
    ensures bytes { OnOk result (out.new.items ≡ out.old.items ++ word_bytes (flat_map pair_words pairs.now)) }
    ensures fit { OnOk result (AllByRecursion IsLong (flat_map pair_words pairs.now)) }
{
    for pair in pairs {
        put_words(out, &[pair.0, pair.1])?;
    }
    Ok(())
}

fn put_header(
    out: &mut Vec<u8>,
    version: u32,
    image_bytes: u32,
    hints: u32,
) -> Result<(), WantOfMemory>
    ensures { OnOk result (out.new.items ≡ out.old.items ++ header_bytes version image_bytes hints) }
{
    put_words(out, &[MAGIC, version, image_bytes, hints])
}

fn put_tail(out: &mut Vec<u8>, words: &[u32], pairs: &[(u32, u32)]) -> Result<(), WantOfMemory>
    requires words { length words.now ≤ MOST_WORDS }
    requires pairs { length pairs.now ≤ MOST_PAIRS }
    ensures bytes { OnOk result (out.new.items ≡ out.old.items ++ word_bytes (tail_words words.now pairs.now)) }
    ensures fit { OnOk result (AllByRecursion IsLong (tail_words words.now pairs.now)) }
{
    put_words(out, &[words.len() as u32])?;
    put_words(out, words)?;
    put_words(out, &[pairs.len() as u32])?;
    put_pairs(out, pairs)
}

/// The file of an image whose bytes these are.
fn spelled(
    alloc: Global,
    version: u32,
    image: &[u8],
    hints: &[u32],
    words: &[u32],
    pairs: &[(u32, u32)],
) -> Result<Vec<u8>, WantOfMemory>
    requires image { length image.now < 2 ^ 32 }
    requires hints { length hints.now ≤ MOST_HINTS }
    requires words { length words.now ≤ MOST_WORDS }
    requires pairs { length pairs.now ≤ MOST_PAIRS }
    ensures fit { OnOk result (AllByRecursion IsLong (tail_words words.now pairs.now)) }
    ensures bytes { IfOk result (λ v. v.items ≡ header_bytes version (length image.now) (length hints.now) ++ image.now ++ word_bytes hints.now ++ word_bytes (tail_words words.now pairs.now)) }
{
    let mut out = Vec::new(alloc);
    put_header(&mut out, version, image.len() as u32, hints.len() as u32)?;
    out.extend_from_slice(image)?;
    put_words(&mut out, hints)?;
    put_tail(&mut out, words, pairs)?;
    Ok(out)
}

/// The bytes of the file of that version that holds a whole image, hints, and the translation of both, whose words and map
/// these are.
pub fn write_translated(
    alloc: Global,
    image: &Image,
    hints: &[u32],
    words: &[u32],
    map: &AddressMap,
    version: u32,
) -> Result<Vec<u8>, WantOfMemory>
    requires version { is_version version ≡ true }
    requires image { IsWhole image.now }
    requires few { length hints.now ≤ MOST_HINTS }
    requires rise { Rise hints.now }
    requires words { length words.now ≤ MOST_WORDS }
    requires pairs { length map.now ≤ MOST_PAIRS }
    ensures spelled { IfOk result (λ v. v.items ≡ spelling version image.now hints.now words.now map.now) }
    ensures read_again { IfOk result (λ v. parts_of v.items ≡ Ok (written_parts version image.now hints.now words.now map.now)) }
    ensures accepted { IfOk result (λ v. accepted v.items words.now map.now ≡ Ok tt) }
{
    let bytes = write_image(alloc, image)?;
    Ok(spelled(alloc, version, &bytes, hints, words, map.pairs())?)
}
