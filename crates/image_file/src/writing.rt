// Writes an image file.
ghost use Rattle.std.specs.Prelude.{◌≡◌, ℕ, ◌<◌, ◌^◌, ◌++◌, length, true, map, IfOk, OnErr, OnOk, Ok};
ghost use Rattle.std.specs.List.{flat_map, list_all, AllByRecursion};
ghost use Rattle.std.specs.Int.{w32, to_le_bytes};
ghost use Rattle.image_file.specs.Values.{SectionValue};
ghost use Rattle.image_file.specs.Rows.{is_sound};
ghost use Rattle.image_file.specs.Spelling.{HasFirstWords, row_of, header_bytes, start_bytes, row_bytes, spelling};
ghost use Rattle.image_file.specs.Whole.{IsWhole};
ghost use Rattle.image_file.specs.Reading.{image_of};

use crate::image::{Image, Section, Start};
use crate::limits::*;
use std::alloc::Global;
use vax_form::WantOfMemory;

fn put_header(
    out: &mut Vec<u8>,
    version: u16,
    threads: u16,
    sections: u16,
    entries: u16,
) -> Result<(), WantOfMemory>
    ensures { OnOk result (out.new.items ≡ out.old.items ++ header_bytes version threads sections entries) }
{
    out.extend_from_slice(&MAGIC.to_le_bytes())?;
    out.extend_from_slice(&version.to_le_bytes())?;
    out.extend_from_slice(&threads.to_le_bytes())?;
    out.extend_from_slice(&sections.to_le_bytes())?;
    out.extend_from_slice(&entries.to_le_bytes())?;
    Ok(())
}

/// Appends the bytes of each word, the lowest first. Where memory runs out, those of the first words are appended.
pub fn put_words(out: &mut Vec<u8>, words: &[u32]) -> Result<(), WantOfMemory>
    ensures bytes { OnOk result (out.new.items ≡ out.old.items ++ flat_map (to_le_bytes w32) words.now) }
    ensures fit { OnOk result (AllByRecursion (λ (n : ℕ). n < 2 ^ 32) words.now) }
    ensures refused { OnErr result (HasFirstWords out.old.items words.now out.new.items) }
{
    for word in words {
        out.extend_from_slice(&word.to_le_bytes())?;
    }
    Ok(())
}

fn put_start(out: &mut Vec<u8>, version: u16, start: &Start) -> Result<(), WantOfMemory>
    ensures { OnOk result (out.new.items ≡ out.old.items ++ start_bytes version start.now) }
{
    out.extend_from_slice(&start.pc.to_le_bytes())?;
    out.extend_from_slice(&start.sp.to_le_bytes())?;
    if version != VERSION_1 {
        put_words(out, &start.first)?;
    }
    Ok(())
}

fn put_threads(out: &mut Vec<u8>, version: u16, threads: &[Start]) -> Result<(), WantOfMemory>
    ensures { OnOk result (out.new.items ≡ out.old.items ++ flat_map (start_bytes version) threads.now) }
{
    for start in threads {
        put_start(out, version, start)?;
    }
    Ok(())
}

fn put_row(out: &mut Vec<u8>, section: &Section) -> Result<(), WantOfMemory>
    requires { is_sound (row_of section.now) ≡ true }
    ensures { OnOk result (out.new.items ≡ out.old.items ++ row_bytes (row_of section.now)) }
{
    out.extend_from_slice(&section.start.to_le_bytes())?;
    out.extend_from_slice(&section.size.to_le_bytes())?;
    out.extend_from_slice(&(section.stored.len() as u32).to_le_bytes())?;
    out.extend_from_slice(&u32::from(section.writable).to_le_bytes())?;
    Ok(())
}

fn put_rows(out: &mut Vec<u8>, sections: &[Section]) -> Result<(), WantOfMemory>
    requires { list_all is_sound (map row_of sections.now) ≡ true }
    ensures { OnOk result (out.new.items ≡ out.old.items ++ flat_map row_bytes (map row_of sections.now)) }
{
    for section in sections {
        put_row(out, section)?;
    }
    Ok(())
}

fn put_stored(out: &mut Vec<u8>, sections: &[Section]) -> Result<(), WantOfMemory>
    ensures { OnOk result (out.new.items ≡ out.old.items ++ flat_map (λ (s : SectionValue). s.stored) sections.now) }
{
    for section in sections {
        out.extend_from_slice(&section.stored)?;
    }
    Ok(())
}

/// The bytes of a whole image's file.
pub fn write_image(alloc: Global, image: &Image) -> Result<Vec<u8>, WantOfMemory>
    requires { IsWhole image.now }
    ensures spelled { IfOk result (λ v. v.items ≡ spelling image.now) }
    ensures read_again { IfOk result (λ v. image_of v.items ≡ Ok image.now) }
{
    let mut out = Vec::new(alloc);
    put_header(
        &mut out,
        image.version,
        image.threads.len() as u16,
        image.sections.len() as u16,
        image.entries.len() as u16,
    )?;
    put_threads(&mut out, image.version, &image.threads)?;
    put_rows(&mut out, &image.sections)?;
    put_words(&mut out, &image.entries)?;
    put_stored(&mut out, &image.sections)?;
    Ok(out)
}
