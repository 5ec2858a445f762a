// A world beside the threads that are driven by the order of its history.
ghost use Rattle.image_file.specs.Whole.{IsWhole};

use crate::replayed::check_replayed;
use crate::texts::order_in;
use anyhow::{Result, bail};
use image_file::Image;
use memory_core::MemState;
use std::alloc::{AllocError, Global};
use system_model::End;
use vax_form::Pick;
use vax_run::{DrivenRun, ThreadRun, driven};
use vest_core::{Processor, World};

/// How many instructions each processor has retired.
fn retired_by(alloc: Global, processors: &[Processor]) -> Result<Vec<u64>, AllocError> {
    let mut counts = Vec::new(alloc);
    for processor in processors {
        counts.push(processor.retired())?;
    }
    Ok(counts)
}

/// Whether memory has each byte.
fn has_bytes(memory: &MemState, bytes: &[(u32, u8)]) -> bool {
    for (address, byte) in bytes {
        if memory.byte(*address) != Some(*byte) {
            return false;
        }
    }
    true
}

/// Whether a processor shows the state of its thread, and ended as that did, if it has an end of its own.
fn is_at(processor: &Processor, thread: &ThreadRun) -> bool {
    let ends = match processor.end() {
        Some(End::Exit(value)) => thread.exited && value == thread.state.register(0),
        Some(End::Raised(exception)) => thread.raised == Some(exception),
        Some(End::Spent) | None => !thread.exited,
    };
    ends && processor.shown() == thread.state
}

fn are_at(processors: &[Processor], threads: &[ThreadRun]) -> bool {
    if processors.len() != threads.len() {
        return false;
    }
    for (processor, thread) in processors.iter().zip(threads) {
        if !is_at(processor, thread) {
            return false;
        }
    }
    true
}

/// Whether a world has the memory and the output of a run, and its processors stand as the threads do.
fn is_as(world: &World, run: &DrivenRun) -> bool {
    has_bytes(world.memory(), run.memory.as_slice())
        && world.memory().output() == run.output.as_slice()
        && are_at(world.processors(), run.threads.as_slice())
}

/// What the threads do that are driven by an order up to these counts of retired instructions.
fn driven_in(
    alloc: Global,
    image: &Image,
    input: &[u8],
    order: &[Pick],
    counts: &[u64],
) -> Result<Option<DrivenRun>>
    requires { IsWhole image.now }
{
    if counts.len() != image.threads.len() {
        bail!("another number of processors");
    }
    match driven(alloc, image, input, order, counts) {
        Ok(run) => Ok(run),
        Err(_) => bail!("want of memory"),
    }
}

/// What the threads do that are driven by a world's order.
fn driven_by(alloc: Global, image: &Image, input: &[u8], world: &World) -> Result<Option<DrivenRun>>
    requires { IsWhole image.now }
{
    let order = order_in(alloc, world)?;
    let counts = retired_by(alloc, world.processors())?;
    driven_in(alloc, image, input, &order, &counts)
}

/// Refuses a world that is not what the threads do that are driven by its order, or whose stored order is not so replayed.
pub fn check_driven(alloc: Global, image: &Image, input: &[u8], world: &World) -> Result<()>
    requires { IsWhole image.now }
{
    match driven_by(alloc, image, input, world)? {
        Some(run) if is_as(world, &run) => check_replayed(alloc, image, input, world),
        _ => bail!("not as driven"),
    }
}
