// What is stored behind output and report: the file of a run's order, where one is asked for.
ghost use Rattle.std.specs.Prelude.{◌≡◌, ◌≤◌, None, Some, length, map, IfOk, IfSome};
ghost use Rattle.command_words.specs.Answers.{options_value};
ghost use Rattle.image_file.specs.Whole.{IsWhole};
ghost use Rattle.memory_core.specs.Limits.{KeepsEntries};
ghost use Rattle.run_files.specs.Limits.{MOST_INPUT, MOST_PICKS};
ghost use Rattle.run_files.specs.Spelling.{order_bytes};
ghost use Rattle.tie_switch.specs.Processors.{processor_of};
ghost use Rattle.vest_runs.specs.Keeping.{limit_of};
ghost use Rattle.vest_runs.specs.Order.{order_made};
ghost use Rattle.vest_cli.specs.Made.{HasMade};
ghost use Rattle.vest_cli.specs.Storing.{HasRoomFor, Stores, has_failed, name_of};

use crate::execute::{Run, Task};
use command_words::RunOptions;
use std::alloc::Global;
use vax_form::WantOfMemory;
use vest_runs::OrderRoom;
use vest_stops::Done;
use vt_outside::{Desk, DeskWrite};

/// Where the order of a run goes: the name of a file, and room for what it gets.
#[derive(Drop)]
pub(crate) struct OrderFile {
    pub name: String,
    pub room: OrderRoom,
}

/// The file that the options name, with room for whatever run of the task.
pub(crate) fn order_file(
    alloc: Global,
    task: &Task,
    options: &RunOptions<'_>,
) -> Result<Option<OrderFile>, WantOfMemory>
    requires whole { IsWhole task.now.loaded.image }
    requires input { length task.now.taken.items ≤ MOST_INPUT }
    requires events { task.now.limits.events ≤ MOST_PICKS }
    requires kept { IfSome (options_value options.now).order (λ _. KeepsEntries (limit_of task.now.limits)) }
    ensures name { IfOk result (λ file. name_of file ≡ (options_value options.now).order) }
    ensures room { IfOk result (HasRoomFor task.now) }
{
    let Some(name) = options.order else {
        return Ok(None);
    };
    let threads = task.loaded.image.threads.len();
    let entries = task.limits.events as usize;
    Ok(Some(OrderFile {
        name: String::from_str(alloc, name)?,
        room: OrderRoom::new(alloc, threads, task.taken.len(), entries)?,
    }))
}

fn has_failed(done: Done) -> bool
    ensures { result ≡ has_failed done }
{
    matches!(done, Done::WriteFault)
}

/// Writes a file behind output and report, where the sinks took all. It takes no memory.
pub(crate) fn write_behind<D: Desk>(sent: Done, name: &str, bytes: &[u8], desk: &mut D) -> Done
    ensures { Stores result sent (Some name.now) bytes.now (D.meaning desk.old) (D.meaning desk.new) }
{
    if has_failed(sent) {
        return sent;
    }
    match desk.write(name, bytes) {
        DeskWrite::Done => sent,
        DeskWrite::Failed => Done::WriteFault,
    }
}

/// Writes the file behind a run, where one is asked for and the sinks took all. It takes no memory.
pub(crate) fn store<D: Desk>(done: Done, file: Option<OrderFile>, run: &Run, desk: &mut D) -> Done
    requires made { HasMade run.now }
    requires room { HasRoomFor run.now.task file }
    ensures stores { Stores result done (name_of file) (order_bytes (order_made run.now.memory.history run.now.task.taken.items (map processor_of run.now.processors.items))) (D.meaning desk.old) (D.meaning desk.new) }
    ensures unasked { name_of file ≡ None → D.meaning desk.new ≡ D.meaning desk.old }
{
    let Some(file) = file else {
        return done;
    };
    let Some(history) = run.memory.history() else {
        unreachable!()
    };
    let bytes = file.room.filled(history, &run.task.taken, &run.processors);
    write_behind(done, &file.name, &bytes, desk)
}
