// Runs an image with its translation, and keeps the run.
ghost use Rattle.std.specs.Prelude.{◌≡◌, IfOk, length, map};
ghost use Rattle.image_file.specs.Whole.{IsWhole};
ghost use Rattle.block_law.specs.Translations.{Meets};
ghost use Rattle.image_meaning.specs.Meant.{image_meaning};
ghost use Rattle.image_meaning.specs.Permits.{permit_of};
ghost use Rattle.system_model.specs.Settings.{Setting};
ghost use Rattle.tie_switch.specs.Processors.{processor_of};
ghost use Rattle.tie_switch.specs.Settings.{image_setting};
ghost use Rattle.vest_core.specs.Worlds.{IsLegalWorld};
ghost use Rattle.vest_runs.specs.Keeping.{HasKept};
ghost use Rattle.vest_runs.specs.Threads.{HasRun};
ghost use Rattle.vest_cli.specs.Made.{HasMade, running_of};

use crate::alone::run_alone;
use crate::explained::ended_is_run;
use command_words::Limits;
use image_file::Image;
use image_meaning::laws::permits;
use memory_core::MemState;
use run_threads::Running;
use std::alloc::Global;
use std::sync::Wait;
use std::thread::Threads;
use system_model::Range;
use tie_switch::{Processor, made_ready};
use vax_form::WantOfMemory;
use vest_core::World;
use vest_files::Loaded;
use vest_runs::{Kept, keep, limit_of};
use vt_outside::Gate;

/// What is to run: an image with its translation, the input, the limits, and the addresses that threads interpret.
#[derive(Drop)]
pub(crate) struct Task {
    pub loaded: Loaded,
    pub taken: Vec<u8>,
    pub limits: Limits,
    pub ranges: Vec<Range>,
}

/// A task that ran, with the memory and the processors that it left.
#[derive(Drop)]
pub(crate) struct Run {
    pub task: Task,
    pub memory: MemState,
    pub processors: Vec<Processor>,
}

// All that a run by threads takes before its first step.
fn set_up(
    alloc: Global,
    image: &Image,
    input: &[u8],
    limits: Limits,
) -> Result<Running, WantOfMemory>
    requires { IsWhole image.now }
    ensures { IfOk result (λ running. running ≡ running_of image.now input.now limits) }
{
    let input = input.to_vec(alloc)?;
    Running::new(
        alloc,
        image,
        input,
        limits.budget,
        limit_of(limits),
        limits.miss,
    )
}

// The memory and the processors that a run leaves, each thread in a thread of its own, over one memory. Where one can't be made, none
// runs.
fn run_task<R: Threads + Wait + Sync, G: Gate + Sync>(
    rt: &R,
    alloc: Global,
    task: &Task,
    gate: &G,
) -> Result<(MemState, Vec<Processor>), WantOfMemory>
    requires whole { IsWhole task.now.loaded.image }
    requires meets { Meets (image_meaning task.now.loaded.image.pages) (permit_of task.now.loaded.target task.now.loaded.image.pages) task.now.loaded.translation }
    ensures set_up { IfOk result (λ r. r.0.set_up ≡ (running_of task.now.loaded.image task.now.taken.items task.now.limits).set_up) }
    ensures ran { IfOk result (λ r. HasRun (image_setting task.now.loaded.image.pages task.now.loaded.translation task.now.ranges.items) (permit_of task.now.loaded.target task.now.loaded.image.pages)
        (running_of task.now.loaded.image task.now.taken.items task.now.limits).set_up task.now.limits.budget r.0.history (map processor_of r.1.items)) }
{
    let Loaded {
        image,
        translation,
        ..
    } = &task.loaded;
    let prepared = made_ready(alloc, image, translation)?;
    let running = set_up(alloc, image, &task.taken, task.limits)?;
    ended_is_run(image, &task.taken, translation, &task.ranges);
    permits();
    running.go(rt, alloc, image, translation, &prepared, &task.ranges, gate)
}

// A memory and its only processor, before the first step.
fn set_up_alone(
    alloc: Global,
    image: &Image,
    input: &[u8],
    limits: Limits,
) -> Result<World, WantOfMemory>
    requires { IsWhole image.now }
    ensures set_up { IfOk result (λ world. world.memory.set_up ≡ (running_of image.now input.now limits).set_up) }
    ensures budget { IfOk result (λ world. world.budget ≡ limits.budget) }
    ensures count { IfOk result (λ world. length world.processors ≡ length image.now.threads) }
    ensures legal { IfOk result (λ world. (setting : Setting) → setting.meaning.pages ≡ image.now.pages → IsLegalWorld setting world) }
{
    let input = input.to_vec(alloc)?;
    World::new(
        alloc,
        image,
        input,
        limits.budget,
        limit_of(limits),
        limits.miss,
    )
}

// The memory and the processor that a run of one thread leaves.
fn run_task_alone(alloc: Global, task: &Task) -> Result<(MemState, Vec<Processor>), WantOfMemory>
    requires alone { length task.now.loaded.image.threads ≡ 1 }
    requires whole { IsWhole task.now.loaded.image }
    requires meets { Meets (image_meaning task.now.loaded.image.pages) (permit_of task.now.loaded.target task.now.loaded.image.pages) task.now.loaded.translation }
    ensures set_up { IfOk result (λ r. r.0.set_up ≡ (running_of task.now.loaded.image task.now.taken.items task.now.limits).set_up) }
    ensures ran { IfOk result (λ r. HasRun (image_setting task.now.loaded.image.pages task.now.loaded.translation task.now.ranges.items) (permit_of task.now.loaded.target task.now.loaded.image.pages)
        (running_of task.now.loaded.image task.now.taken.items task.now.limits).set_up task.now.limits.budget r.0.history (map processor_of r.1.items)) }
{
    let Loaded {
        image,
        translation,
        ..
    } = &task.loaded;
    let prepared = made_ready(alloc, image, translation)?;
    let world = set_up_alone(alloc, image, &task.taken, task.limits)?;
    permits();
    Ok(run_alone(
        world,
        image,
        &task.taken,
        translation,
        &prepared,
        &task.ranges,
    ))
}

/// Takes all that a run of one thread needs, and makes it: from its first step on it takes no memory. It waits for no other thread.
pub(crate) fn execute_alone(alloc: Global, task: Task) -> Result<Run, WantOfMemory>
    requires alone { length task.loaded.image.threads ≡ 1 }
    requires whole { IsWhole task.loaded.image }
    requires meets { Meets (image_meaning task.loaded.image.pages) (permit_of task.loaded.target task.loaded.image.pages) task.loaded.translation }
    ensures task { IfOk result (λ run. run.task ≡ task) }
    ensures ran { IfOk result HasMade }
{
    let (memory, processors) = run_task_alone(alloc, &task)?;
    Ok(Run {
        task,
        memory,
        processors,
    })
}

/// Takes all that a run needs, its threads too, and makes it: from its first step on it takes no memory.
pub(crate) fn execute<R: Threads + Wait + Sync, G: Gate + Sync>(
    rt: &R,
    alloc: Global,
    task: Task,
    gate: &G,
) -> Result<Run, WantOfMemory>
    requires whole { IsWhole task.loaded.image }
    requires meets { Meets (image_meaning task.loaded.image.pages) (permit_of task.loaded.target task.loaded.image.pages) task.loaded.translation }
    ensures task { IfOk result (λ run. run.task ≡ task) }
    ensures ran { IfOk result HasMade }
{
    let (memory, processors) = run_task(rt, alloc, &task, gate)?;
    Ok(Run {
        task,
        memory,
        processors,
    })
}

/// Keeps a run. It takes no memory.
pub(crate) fn keep_run(run: Run, kept: &mut Kept)
    requires { HasMade run }
    ensures kept { HasKept run.task.loaded.image run.task.loaded.target run.task.loaded.translation run.task.taken.items run.task.limits run.task.ranges.items kept.new }
    ensures history { kept.new.history ≡ run.memory.history }
    ensures processors { kept.new.processors ≡ run.processors.items }
{
    let Run {
        task,
        memory,
        processors,
    } = run;
    let Task {
        loaded,
        taken,
        limits,
        ranges,
    } = task;
    keep(
        loaded.image,
        loaded.translation,
        taken,
        limits,
        ranges,
        memory,
        processors,
        kept,
    );
}
