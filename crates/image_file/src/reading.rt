// Reads an image file.
ghost use Rattle.std.specs.Prelude.{◌≡◌, ◌≤◌, ◌<◌, ◌^◌, length, IfOk, Ok};
ghost use Rattle.image_file.specs.Values.{ImageValue};
ghost use Rattle.image_file.specs.Rows.{stored_bytes};
ghost use Rattle.image_file.specs.Spelling.{spelling};
ghost use Rattle.image_file.specs.Whole.{IsWhole};
ghost use Rattle.image_file.specs.Reading.{Gives, image_of, sections_in};

use crate::checks::check_layout;
use crate::header::counts_of;
use crate::image::{Image, Section};
use crate::limits::*;
use crate::pages::pages_of;
use crate::refusal::ImageRefusal;
use crate::rows::Row;
use crate::tables::tables_of;
use std::alloc::{AllocError, Global};

fn stored_bytes(rows: &[Row]) -> usize
    requires { length rows.now ≤ MOST_SECTIONS }
    ensures value { result ≡ stored_bytes rows.now }
    ensures bound { result < 2 ^ 40 }
{
    let mut bytes = 0;
    for row in rows {
        bytes += row.stored as usize;
    }
    bytes
}

/// The sections of the rows, whose stored bytes these are.
fn sections_of(alloc: Global, rows: &[Row], stored: &[u8]) -> Result<Vec<Section>, AllocError>
    requires { length stored.now ≡ stored_bytes rows.now }
    ensures { IfOk result (λ v. v.items ≡ sections_in rows.now stored.now) }
{
    let mut sections = Vec::new(alloc);
    let mut rest = stored;
    for row in rows {
        let (front, behind) = rest.split_at(row.stored as usize);
        sections.push(Section {
            start: row.start,
            size: row.size,
            writable: row.flags == 1,
            stored: Vec::from_slice(alloc, front)?,
        })?;
        rest = behind;
    }
    Ok(sections)
}

#[tactic(auto, unfolding(crate::specs::Reading::image_of))]
fn image_of(alloc: Global, bytes: &[u8]) -> Result<Image, ImageRefusal>
    ensures { Gives (λ i. i) result (image_of bytes.now) }
{
    let counts = counts_of(bytes)?;
    let tables = tables_of(alloc, &counts, bytes)?;
    check_layout(counts.version, &tables.rows, &tables.entries)?;
    let stored_at = counts.tables_end();
    let end = stored_at + stored_bytes(&tables.rows);
    if bytes.len() < end {
        let at = bytes.len() as u64;
        return Err(ImageRefusal::Truncated { at });
    }
    if bytes.len() > end {
        return Err(ImageRefusal::Trailing { at: end as u64 });
    }
    let sections = sections_of(alloc, &tables.rows, &bytes[stored_at..])?;
    let pages = pages_of(alloc, &sections)?;
    Ok(Image {
        version: counts.version,
        threads: tables.threads,
        sections,
        entries: tables.entries,
        pages,
    })
}

/// The image that all of the bytes mean, or the first reason for which they mean none.
pub fn read_image(alloc: Global, bytes: &[u8]) -> Result<Image, ImageRefusal>
    // What is read is spelled so.
    ensures found { IfOk result (λ image. IsWhole image × (bytes.now ≡ spelling image)) }
    // What is spelled so is read, unless memory runs out.
    ensures only { (image : ImageValue) → IsWhole image → bytes.now ≡ spelling image → Gives (λ i. i) result (Ok image) }
    // Which refusal it is.
    ensures exact { Gives (λ i. i) result (image_of bytes.now) }
{
    image_of(alloc, bytes)
}
