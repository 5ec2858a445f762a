// The bytes of an image's file, whether or not the format allows the image.
ghost use Rattle.std.specs.Prelude.{◌≡◌, ℕ, ◌<◌, ◌^◌, ◌++◌, false, All, IfOk, OnOk, length, map};
ghost use Rattle.std.specs.List.{flat_map, AllByRecursion};
ghost use Rattle.image_file.specs.Rows.{page_bytes};
ghost use Rattle.image_file.specs.Spelling.{header_bytes, start_bytes, row_bytes, row_of, spelling};
ghost use Rattle.image_file.specs.Values.{SectionValue};
ghost use Rattle.image_file.specs.Whole.{StartFits};
ghost use Rattle.image_parts.specs.Parts.{RowFits, sized, stores_too_much};

use image_file::{FIRST_REGISTERS, Section, Start, put_words};
use vax_form::WantOfMemory;

/// The bytes of a section: those that it stores, where no number is given.
pub fn size_of(section: &Section) -> u32
    requires { stores_too_much section.now ≡ false }
    ensures { result ≡ (sized section.now).size }
{
    if section.size == 0 {
        section.stored.len() as u32
    } else {
        section.size
    }
}

pub fn put_header(
    out: &mut Vec<u8>,
    version: u16,
    threads: u16,
    sections: u16,
    entries: u16,
) -> Result<(), WantOfMemory>
    ensures { OnOk result (out.new.items ≡ out.old.items ++ header_bytes version threads sections entries) }
{
    out.extend_from_slice(b"VXIM")?;
    out.extend_from_slice(&version.to_le_bytes())?;
    out.extend_from_slice(&threads.to_le_bytes())?;
    out.extend_from_slice(&sections.to_le_bytes())?;
    out.extend_from_slice(&entries.to_le_bytes())?;
    Ok(())
}

/// Fourteen registers are numbers of 32 bits: it does nothing.
fn registers_fit(first: &[u32])
    requires { length first.now ≡ FIRST_REGISTERS }
    ensures count { length first.now ≡ FIRST_REGISTERS }
    ensures fit { AllByRecursion (λ (n : ℕ). n < 2 ^ 32) first.now }
{
    let _count = first.len();
}

fn put_start(out: &mut Vec<u8>, version: u16, start: &Start) -> Result<(), WantOfMemory>
    ensures bytes { OnOk result (out.new.items ≡ out.old.items ++ start_bytes version start.now) }
    ensures fit { OnOk result (StartFits start.now) }
{
    registers_fit(&start.first);
    put_words(out, &[start.pc, start.sp])?;
    if version == 1 {
        Ok(())
    } else {
        put_words(out, &start.first)
    }
}

pub fn put_threads(out: &mut Vec<u8>, version: u16, threads: &[Start]) -> Result<(), WantOfMemory>
    ensures bytes { OnOk result (out.new.items ≡ out.old.items ++ flat_map (start_bytes version) threads.now) }
    ensures fit { OnOk result (AllByRecursion StartFits threads.now) }
{
    for start in threads {
        put_start(out, version, start)?;
    }
    Ok(())
}

fn put_row(out: &mut Vec<u8>, section: &Section) -> Result<(), WantOfMemory>
    requires { stores_too_much section.now ≡ false }
    ensures bytes { OnOk result (out.new.items ≡ out.old.items ++ row_bytes (row_of (sized section.now))) }
    ensures fit { OnOk result (RowFits (row_of (sized section.now))) }
{
    let size = size_of(section);
    let stored = section.stored.len() as u32;
    put_words(
        out,
        &[section.start, size, stored, u32::from(section.writable)],
    )
}

pub fn put_rows(out: &mut Vec<u8>, sections: &[Section]) -> Result<(), WantOfMemory>
    requires { All (λ s. stores_too_much s ≡ false) sections.now }
    ensures bytes { OnOk result (out.new.items ≡ out.old.items ++ flat_map row_bytes (map row_of (map sized sections.now))) }
    ensures fit { OnOk result (AllByRecursion RowFits (map row_of (map sized sections.now))) }
{
    for section in sections {
        put_row(out, section)?;
    }
    Ok(())
}

pub fn put_stored(out: &mut Vec<u8>, sections: &[Section]) -> Result<(), WantOfMemory>
    ensures { OnOk result (out.new.items ≡ out.old.items ++ flat_map (λ (s : SectionValue). s.stored) sections.now) }
{
    for section in sections {
        out.extend_from_slice(&section.stored)?;
    }
    Ok(())
}
