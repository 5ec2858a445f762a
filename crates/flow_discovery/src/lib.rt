//! The instructions of an image that can be reached: from its threads, its entries and hints on, wherever the code
//! shows where control goes.
#![tactic(auto)]

mod flow;
mod mapped;
mod members;

ghost use Rattle.std.specs.Prelude.{◌≡◌, ◌≢◌, ◌<◌, ◌≤◌, ◌^◌, All, IfErr, IfOk, length, map};
ghost use Rattle.vax_form.specs.Row.{class_at};
ghost use Rattle.vax_form.specs.Targets.{has};
ghost use Rattle.flow_discovery.specs.Reach.{IsReach, most};
ghost use Rattle.flow_discovery.specs.Starts.{starts};

use exact_lists::list_of;
pub use flow::goes_on;
use image_file::{Image, Start};
pub use mapped::{has_block, has_call_block, has_string_block};
use std::alloc::Global;
use vax_form::{Class, Instr, WantOfMemory};

/// More instructions are not translated.
const MOST_INSTRUCTIONS: u64 = 32_768;

/// Why the flow of an image is refused.
#[derive(Clone, Copy, Debug, PartialEq, Eq)]
pub enum FlowRefusal {
    /// So many instructions can be reached, and that is more than 32,768.
    TooManyInstructions { count: u64 },
    /// There wasn't enough memory.
    WantOfMemory,
}

impl FlowRefusal {
    ghost use Rattle.flow_discovery.specs.Refusal.{number_of};

    /// The number of the refusal. Want of memory has none.
    pub fn number(&self) -> Option<u8>
        ensures { result ≡ number_of self.now }
    {
        match self {
            FlowRefusal::TooManyInstructions { .. } => Some(1),
            FlowRefusal::WantOfMemory => None,
        }
    }
}

impl From<WantOfMemory> for FlowRefusal {
    ghost use Rattle.flow_discovery.specs.declared.FlowRefusal.TheVariants as refusals;

    ghost from_gives = { λ e r. r ≡ refusals.WantOfMemory };

    fn from(_: WantOfMemory) -> Self {
        FlowRefusal::WantOfMemory
    }
}

fn thread_starts(alloc: Global, threads: &[Start]) -> Result<Vec<u32>, WantOfMemory>
    ensures { IfOk result (λ v. v.items ≡ map (λ thread. thread.pc) threads.now) }
{
    list_of(alloc, threads.len(), threads.iter().map(|thread| thread.pc))
}

fn all_starts(alloc: Global, image: &Image, hints: &[u32]) -> Result<Vec<u32>, WantOfMemory>
    ensures { IfOk result (λ v. v.items ≡ starts image.now hints.now) }
{
    let mut all = thread_starts(alloc, &image.threads)?;
    all.extend_from_slice(image.entries.as_slice())?;
    all.extend_from_slice(hints)?;
    Ok(all)
}

fn is_among(addresses: &[u32], address: u32) -> bool
    ensures { result ≡ has addresses.now address }
{
    addresses.iter().any(|other| address == *other)
}

fn starts_thread(threads: &[Start], address: u32) -> bool
    ensures { result ≡ has (map (λ thread. thread.pc) threads.now) address }
{
    threads
        .iter()
        .map(|thread| thread.pc)
        .any(|start| address == start)
}

/// Whether the flow of the image starts at the address: a thread does, or it is an entry or a hint.
pub fn is_start(image: &Image, hints: &[u32], address: u32) -> bool
    ensures { result ≡ has (starts image.now hints.now) address }
{
    starts_thread(image.threads.as_slice(), address)
        || is_among(image.entries.as_slice(), address)
        || is_among(hints, address)
}

ghost use Rattle.flow_discovery.specs.Refusal.{IsRefused};

/// The instructions that can be reached, in rising order of address. An address is a longword.
pub fn reach(alloc: Global, image: &Image, hints: &[u32]) -> Result<Vec<Instr>, FlowRefusal>
    ensures reached { IfOk result (λ v. IsReach image.now.pages (starts image.now hints.now) v.items) }
    ensures longwords { IfOk result (λ v. All (λ instr. instr.at < 2 ^ 32) v.items) }
    ensures classes { IfOk result (λ v. All (λ instr. class_at instr.opcode ≢ Class.Reserved) v.items) }
    ensures few { IfOk result (λ v. length v.items ≤ most) }
    ensures refused { IfErr result (IsRefused image.now.pages (starts image.now hints.now)) }
{
    let starts = all_starts(alloc, image, hints)?;
    let found = members::sorted_members(alloc, &image.pages, starts.as_slice())?;
    let count = found.len() as u64;
    if count > MOST_INSTRUCTIONS {
        return Err(FlowRefusal::TooManyInstructions { count });
    }
    let instrs = members::instructions(alloc, &image.pages, found.as_slice())?;
    Ok(instrs)
}
