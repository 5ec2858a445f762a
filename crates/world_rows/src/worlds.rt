// Worlds of images, in which processors are picked.
ghost use Rattle.std.specs.Prelude.{IfOk};
ghost use Rattle.image_file.specs.Whole.{IsWhole};
ghost use Rattle.world_rows.specs.Ready.{CanRun, IsReady};

use crate::programs::{Limits, Program};
use anyhow::{Result, bail};
use memory_core::Limit;
use std::alloc::Global;
use vest_core::{Turn, World};

/// A world before its first turn.
pub fn world_of(alloc: Global, program: Program<'_>, input: &[u8], limits: Limits) -> Result<World>
    requires whole { IsWhole program.image.now }
    requires meets { CanRun program }
    ensures { IfOk result (IsReady program.entry) }
{
    let (image, miss) = (program.image, program.miss);
    let input = input.to_vec(alloc)?;
    let limit = Limit::Entries(limits.entries);
    match World::new(alloc, image, input, limits.budget, limit, miss) {
        Ok(world) => Ok(world),
        Err(_) => bail!("want of memory"),
    }
}

/// Gives a thread one turn.
pub fn pick(world: &mut World, program: Program<'_>, thread: u8) -> Result<Turn>
    requires { IsReady program world.old }
    ensures { IsReady program.entry world.new }
{
    if usize::from(thread) >= world.processors().len() {
        bail!("no such thread");
    }
    Ok(world.pick(program.image, program.translation, program.ranges, thread))
}

/// Gives a thread so many turns.
pub fn pick_often(world: &mut World, program: Program<'_>, thread: u8, turns: u32) -> Result<()>
    requires { IsReady program world.old }
    ensures { IsReady program.entry world.new }
{
    for _ in 0..turns {
        pick(world, program, thread)?;
    }
    Ok(())
}

/// Gives a thread so many turns at once.
pub fn advance_often(world: &mut World, program: Program<'_>, thread: u8, turns: u32) -> Result<()>
    requires { IsReady program world.old }
    ensures { IsReady program.entry world.new }
{
    if usize::from(thread) >= world.processors().len() {
        bail!("no such thread");
    }
    let Program {
        image,
        translation,
        prepared,
        ranges,
        ..
    } = program;
    world.advance(
        image,
        translation,
        prepared,
        ranges,
        thread,
        u64::from(turns),
    );
    Ok(())
}
