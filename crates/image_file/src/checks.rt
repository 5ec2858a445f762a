// What is checked of sections and entries once the tables are read.
ghost use Rattle.std.specs.Prelude.{◌≡◌, ◌≤◌, ◌<◌, not, length, position, IfSome};
ghost use Rattle.std.specs.List.{list_any};
ghost use Rattle.image_file.specs.Rows.{is_sound, shares_page, has_code, first_overlap, total_bytes};
ghost use Rattle.image_file.specs.Reading.{layout_of};

use crate::limits::*;
use crate::refusal::ImageRefusal;
use crate::rows::Row;
use vax_form::PAGE_SIZE;

fn first_unsound(rows: &[Row]) -> Option<usize>
    ensures { result ≡ position (λ r. not (is_sound r)) rows.now }
{
    rows.iter().position(|r| !r.is_sound())
}

fn first_sharer(row: &Row, others: &[Row]) -> Option<usize>
    ensures value { result ≡ position (shares_page row.now) others.now }
    ensures within { IfSome result (λ place. place < length others.now) }
{
    others.iter().position(|other| row.shares_page(other))
}

/// The first pair of rows that share a page.
fn first_overlap(rows: &[Row]) -> Option<(usize, usize)>
    ensures value { result ≡ first_overlap 0 rows.now }
    ensures within { IfSome result (λ pair. (pair.0 < length rows.now) × (pair.1 < length rows.now)) }
{
    for (low, row) in rows.iter().enumerate() {
        if let Some(next) = first_sharer(row, &rows[low + 1..]) {
            return Some((low, low + 1 + next));
        }
    }
    None
}

fn total_bytes(rows: &[Row]) -> u64
    requires { length rows.now ≤ MOST_SECTIONS }
    ensures { result ≡ total_bytes rows.now }
{
    let mut total = 0;
    for row in rows {
        total += PAGE_SIZE as u64 * u64::from(row.pages());
    }
    total
}

fn is_code(rows: &[Row], address: u32) -> bool
    ensures { result ≡ list_any (has_code address) rows.now }
{
    rows.iter().any(|r| r.has_code(address))
}

fn first_bad_entry(rows: &[Row], entries: &[u32]) -> Option<usize>
    ensures { result ≡ position (λ e. not (list_any (has_code e) rows.now)) entries.now }
{
    entries.iter().position(|e| !is_code(rows, *e))
}

/// Whether the tables give a layout of memory.
#[tactic(auto, unfolding(crate::specs::Reading::layout_of))]
pub fn check_layout(version: u16, rows: &[Row], entries: &[u32]) -> Result<(), ImageRefusal>
    requires rows { length rows.now ≤ MOST_SECTIONS }
    requires entries { length entries.now ≤ MOST_ENTRIES }
    ensures { result ≡ layout_of version rows.now entries.now }
{
    if let Some(place) = first_unsound(rows) {
        return Err(ImageRefusal::BadSection {
            place: place as u16,
        });
    }
    if let Some((low, high)) = first_overlap(rows) {
        return Err(ImageRefusal::Overlap {
            low: low as u16,
            high: high as u16,
        });
    }
    let total = total_bytes(rows);
    if total > most_bytes(version) {
        return Err(ImageRefusal::TooLarge { total });
    }
    if let Some(place) = first_bad_entry(rows, entries) {
        return Err(ImageRefusal::BadEntry {
            place: place as u16,
        });
    }
    Ok(())
}
