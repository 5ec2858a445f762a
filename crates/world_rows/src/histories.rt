// A history beside the threads that are driven by its order.
ghost use Rattle.image_file.specs.Whole.{IsWhole};

use crate::machine::Machine;
use anyhow::{Result, bail, ensure};
use image_file::Image;
use memory_core::{Entry, Kind};
use std::alloc::Global;
use vax_form::{Pick, Reference};
use vax_run::{DrivenRun, driven};

// The threads before any instruction.
const NONE_RETIRED: [u64; 2] = [0, 0];

// What the threads have done behind the first picks of an order.
fn run_behind(
    alloc: Global,
    image: &Image,
    order: &[Pick],
    picks: usize,
) -> Result<Option<DrivenRun>>
    requires { IsWhole image.now }
{
    ensure!(image.threads.len() == NONE_RETIRED.len(), "not two threads");
    match driven(
        alloc,
        image,
        &[],
        &order[..picks.min(order.len())],
        &NONE_RETIRED,
    ) {
        Ok(run) => Ok(run),
        Err(_) => bail!("want of memory"),
    }
}

// The byte at an address, where the image has it.
fn byte_at(run: &DrivenRun, address: u32) -> Option<u8> {
    for (place, byte) in &run.memory {
        if *place == address {
            return Some(*byte);
        }
    }
    None
}

// The quadword at an address, where the image has it.
fn quadword_at(run: &DrivenRun, address: u32) -> Option<u64> {
    let mut bytes = [0; 8];
    for place in 0..8 {
        bytes[place as usize] = byte_at(run, address.wrapping_add(place))?;
    }
    Some(u64::from_le_bytes(bytes))
}

fn is_same(entry: &Entry, reference: &Reference, before: &DrivenRun, after: &DrivenRun) -> bool {
    entry.quad == reference.address / 8 * 8
        && quadword_at(before, entry.quad) == Some(entry.before)
        && quadword_at(after, entry.quad) == Some(entry.after)
}

// Whether the entry is the access of the last reference, where there are both runs.
fn is_between(entry: &Entry, before: Option<&DrivenRun>, after: Option<&DrivenRun>) -> bool {
    let (Some(before), Some(after)) = (before, after) else {
        return false;
    };
    match after.references.last() {
        Some(reference) => is_same(entry, reference, before, after),
        None => false,
    }
}

// Whether the entry is the access of the reference that the pick at that place makes: on the reference's quadword, with
// that quadword before and after the reference.
fn matches_at(
    alloc: Global,
    image: &Image,
    order: &[Pick],
    place: usize,
    entry: &Entry,
) -> Result<bool>
    requires { IsWhole image.now }
{
    let before = run_behind(alloc, image, order, place)?;
    let after = run_behind(alloc, image, order, place.saturating_add(1))?;
    Ok(is_between(entry, before.as_ref(), after.as_ref()))
}

// An entry that is neither load-locked nor a store conditional that failed.
fn is_counted(entry: &Entry) -> bool {
    entry.kind != Kind::LoadLocked && entry.success
}

/// Whether each counted entry of a machine's history is that of its reference.
pub fn matches(alloc: Global, image: &Image, machine: &Machine) -> Result<bool>
    requires { IsWhole image.now }
{
    let order = machine.order(alloc)?;
    let mut place = 0usize;
    for entry in machine.history() {
        if is_counted(entry) {
            if !matches_at(alloc, image, &order, place, entry)? {
                return Ok(false);
            }
            place = place.saturating_add(1);
        }
    }
    Ok(true)
}
