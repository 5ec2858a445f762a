//! What a stored order gives of an image, and the addresses that a map lacks.
ghost use Rattle.std.specs.Prelude.{◌≡◌, ◌≤◌, ◌<◌, ◌+◌, ◌*◌, ◌/◌, ◌||◌, ◌^◌, ℕ, Bool, false, length, IfOk, OnOk, IsTrue};
ghost use Rattle.std.specs.List.{list_any};
ghost use Rattle.flow_discovery.specs.Mapped.{has_block_at};
ghost use Rattle.image_file.specs.Whole.{IsWhole};
ghost use Rattle.run_files.specs.Fits.{Fits};
ghost use Rattle.vax_form.specs.PageTable.{has_page};
ghost use Rattle.vax_form.specs.Targets.{has};
ghost use Rattle.stored_runs.specs.Found.{AreFirst, AreFound, is_found};
ghost use Rattle.stored_runs.specs.Marks.{mark_of};
ghost use Rattle.stored_runs.specs.Replay.{replay_of, Gives};

use crate::ends::Replayed;
use crate::marks::Marks;
use crate::refusal::ReplayRefusal;
use crate::replay::{Trail, walked};
use address_map::AddressMap;
use flow_discovery::has_block;
use image_file::Image;
use run_files::OrderFile;
use std::alloc::{AllocError, Global};
use translated_file::MOST_HINTS;
use vax_decode::{Decoded, decode_at};
use vax_form::{PAGE_SIZE, PageRange, Pages};

/// What a replayed order gave, and the found addresses: rising, and not more than a hint file may have.
#[derive(Debug, Drop)]
pub struct Finding {
    pub replayed: Replayed,
    pub addresses: Vec<u32>,
}

/// Drives the threads of an image by a stored order, as `replayed` does. An address is found where a thread retired an instruction
/// that has a block, before it came to its count and with nothing pending, and the map lacks the address.
pub fn found(
    alloc: Global,
    image: &Image,
    order: &OrderFile,
    map: &AddressMap,
) -> Result<Finding, ReplayRefusal>
    requires whole { IsWhole image.now }
    requires fits { Fits (length image.now.threads) order.now }
    ensures replayed { Gives (λ finding. finding.replayed) result (replay_of image.now order.now) }
    ensures found { IfOk result (λ finding. AreFound image.now order.now map.now finding.addresses.items) }
{
    match walked(alloc, image, order) {
        Ok(Trail { replayed, marks }) => {
            let addresses = found_in(alloc, &image.pages, map, &marks)?;
            Ok(Finding {
                replayed,
                addresses,
            })
        }
        Err(refusal) => Err(refusal),
    }
}

/// Whether an instruction that has a block stands at an address.
#[tactic(auto, unfolding(flow_discovery::specs::Reach::instruction_at))]
fn has_block_at(pages: &Pages, address: u32) -> bool
    ensures { result ≡ has_block_at pages.now address }
{
    match decode_at(pages, address) {
        Decoded::Instr(instr) => has_block(&instr, pages),
        Decoded::Reserved | Decoded::BadMode | Decoded::Past(_) => false,
    }
}

fn is_found(pages: &Pages, map: &AddressMap, marks: &Marks, address: u32) -> bool
    ensures { result ≡ is_found pages.now map.now (mark_of marks.now) address }
{
    marks.is_marked(address) && map.look_up(address).is_none() && has_block_at(pages, address)
}

/// The found addresses of all pages.
fn found_in(
    alloc: Global,
    pages: &Pages,
    map: &AddressMap,
    marks: &Marks,
) -> Result<Vec<u32>, AllocError>
    ensures { IfOk result (λ addresses. AreFirst (is_found pages.now map.now (mark_of marks.now)) (λ address. list_any (has_page (address / 512)) pages.now.ranges) addresses.items) }
{
    let mut addresses = Vec::new(alloc);
    for range in &pages.ranges {
        push_found(pages, map, marks, range, &mut addresses)?;
    }
    Ok(addresses)
}

/// Adds those of a range, which lies behind all that there are.
fn push_found(
    pages: &Pages,
    map: &AddressMap,
    marks: &Marks,
    range: &PageRange,
    addresses: &mut Vec<u32>,
) -> Result<(), AllocError>
    requires low { range.now.first + range.now.count ≤ 4194304 }
    requires behind { (address : ℕ) → IsTrue (has addresses.old.items address) → address < 512 * range.now.first }
    ensures { (within : ℕ → Bool) → OnOk result (AreFirst (is_found pages.now map.now (mark_of marks.now)) within addresses.old.items
        → AreFirst (is_found pages.now map.now (mark_of marks.now)) (λ address. within address || has_page (address / 512) range.now) addresses.new.items) }
{
    let start = PAGE_SIZE * range.first;
    for address in start..start + PAGE_SIZE * range.count {
        if addresses.len() < MOST_HINTS as usize && is_found(pages, map, marks, address) {
            addresses.push(address)?;
        }
    }
    Ok(())
}
