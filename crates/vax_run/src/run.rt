// The threads driven by an order of references.
ghost use Rattle.std.specs.Prelude.{◌≡◌, IfOk, length};
ghost use Rattle.image_file.specs.Whole.{IsWhole};
ghost use Rattle.vax_run.specs.Values.{driven_value};

use crate::world::World;
use image_file::Image;
use std::alloc::Global;
use std::marker::Model;
use vax_driven::ThreadRun;
use vax_form::{Pick, Reference, WantOfMemory};

/// What threads did that were driven: their references in order, each byte of the image's pages with its address, the
/// bytes that were put, and each thread after its count.
#[derive(Debug, Drop)]
pub struct DrivenRun {
    pub references: Vec<Reference>,
    pub memory: Vec<(u32, u8)>,
    pub output: Vec<u8>,
    pub threads: Vec<ThreadRun>,
}

impl Model for DrivenRun {
    ghost use Rattle.vax_run.specs.Values.{RunValue};

    ghost Value = { RunValue };

    ghost view = { λ r. record { references = r.references.items; memory = r.memory.items; output = r.output.items; threads = r.threads.items } };
}

/// Drives the threads of an image along an order of picks, oldest first, and shows thread i after `counts[i]`
/// instructions; None where a pick's thread wants no reference then, or a thread doesn't come so far.
pub fn driven(
    alloc: Global,
    image: &Image,
    input: &[u8],
    order: &[Pick],
    counts: &[u64],
) -> Result<Option<DrivenRun>, WantOfMemory>
    requires whole { IsWhole image.now }
    requires counts { length counts.now ≡ length image.now.threads }
    ensures { IfOk result (λ run. run ≡ driven_value image.now input.now order.now counts.now) }
{
    let mut world = World::new(alloc, image)?;
    if !world.walk(image, input, order)? {
        return Ok(None);
    }
    let Some(threads) = world.runs(alloc, image, counts)? else {
        return Ok(None);
    };
    let memory = world.bytes(alloc, image)?;
    let World {
        references,
        memory: left,
        ..
    } = world;
    Ok(Some(DrivenRun {
        references,
        memory,
        output: left.output,
        threads,
    }))
}
