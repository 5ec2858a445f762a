// A run that is yet to be made: of one thread here, of several by their threads.
ghost use Rattle.std.specs.Prelude.{◌≡◌, ◌≤◌, IfOk, IfErr, map};
ghost use Rattle.tie_switch.specs.Processors.{processor_of};
ghost use Rattle.vest_runs.specs.Delivery.{DeliversRun};
ghost use Rattle.vest_runs.specs.Kept.{nothing_kept};
ghost use Rattle.vest_stops.specs.declared.stop.Stop.TheVariants.{WantOfMemory as NoMemory};
ghost use Rattle.vest_cli.specs.Made.{HasMade};
ghost use Rattle.vest_cli.specs.Storing.{HasRoomFor, name_of};
ghost use Rattle.vest_cli.specs.Waiting.{CanPut, Finishes, Gives, HaltsBehind, IsReady, put_out};

use crate::execute::{Run, Task, execute, execute_alone, keep_run};
use crate::halt::Halt;
use crate::storing::{OrderFile, store};
use std::alloc::Global;
use std::sync::Wait;
use std::thread::Threads;
use vest_ends::refuse;
use vest_runs::{Kept, deliver, lines_of};
use vest_stops::{Done, Status, Stop};
use vt_outside::{Desk, Gate, Sink};

/// What goes out behind a run: its output, or the lines on the generated image of a number and on what the run left.
#[derive(Clone, Copy)]
pub(crate) enum Puts {
    Output,
    Lines(u32),
}

/// A run that is yet to be made: an image with its translation, all that it is to be run on, what then goes out, and the file
/// into which its order goes, if any.
#[derive(Drop)]
pub struct Waiting {
    pub(crate) task: Task,
    pub(crate) puts: Puts,
    pub(crate) order: Option<OrderFile>,
}

// What goes out, and then the report.
fn deliver_run<K: Sink, E: Sink>(puts: Puts, run: &Run, out: &mut K, report: &mut E) -> Done
    requires { CanPut puts }
    ensures { DeliversRun result (put_out puts run.now.task.loaded.translation run.now.memory.set_up run.now.memory.history) (map processor_of run.now.processors.items)
        (K.meaning out.old) (K.meaning out.new) (E.meaning report.old) (E.meaning report.new) }
{
    match puts {
        Puts::Output => deliver(run.memory.output(), &run.processors, out, report),
        Puts::Lines(number) => {
            let lines = lines_of(number, &run.task.loaded.translation, &run.memory);
            deliver(lines.as_slice(), &run.processors, out, report)
        }
    }
}

// A run that was made goes out, then its order where a file is named, and is kept. It takes no memory.
fn give<D: Desk, K: Sink, E: Sink>(
    puts: Puts,
    order: Option<OrderFile>,
    run: Run,
    desk: &mut D,
    out: &mut K,
    report: &mut E,
    kept: &mut Kept,
) -> Done
    requires puts { CanPut puts }
    requires made { HasMade run }
    requires room { HasRoomFor run.task order }
    ensures { Gives result run.task puts (name_of order) (D.meaning desk.old) (D.meaning desk.new) (K.meaning out.old) (K.meaning out.new) (E.meaning report.old) (E.meaning report.new) kept.new }
{
    let sent = deliver_run(puts, &run, out, report);
    let done = store(sent, order, &run, desk);
    keep_run(run, kept);
    done
}

/// Makes a run of one thread; one of several waits for its threads. It stops only for want of memory.
pub(crate) fn run_or_wait<D: Desk, K: Sink, E: Sink>(
    alloc: Global,
    waiting: Waiting,
    desk: &mut D,
    out: &mut K,
    report: &mut E,
    kept: &mut Kept,
) -> Result<Done, Halt>
    requires ready { IsReady waiting }
    requires nothing { kept.old ≡ nothing_kept }
    ensures gives { IfOk result (λ done. Gives done waiting.task waiting.puts (name_of waiting.order) (D.meaning desk.old) (D.meaning desk.new) (K.meaning out.old) (K.meaning out.new) (E.meaning report.old) (E.meaning report.new) kept.new) }
    ensures why { IfErr result (HaltsBehind waiting) }
    ensures untouched { IfErr result (λ _. D.meaning desk.new ≡ D.meaning desk.old) }
    ensures unsent { IfErr result (λ _. K.meaning out.new ≡ K.meaning out.old) }
    ensures unsaid { IfErr result (λ _. E.meaning report.new ≡ E.meaning report.old) }
    ensures unkept { IfErr result (λ _. kept.new ≡ nothing_kept) }
{
    if waiting.task.loaded.image.threads.len() > 1 {
        return Err(Halt::Waits(waiting));
    }
    let Waiting { task, puts, order } = waiting;
    let run = execute_alone(alloc, task)?;
    Ok(give(puts, order, run, desk, out, report, kept))
}

impl Waiting {
    /// Runs each thread in a thread of its own, and ends the call: it waits for them. All of them stand before any makes a step, and from
    /// then on it takes no memory. It stops for want of memory, or of a thread that the system does not make.
    pub fn run<R: Threads + Wait + Sync, D: Desk, K: Sink, E: Sink, G: Gate + Sync>(
        self,
        rt: &R,
        alloc: Global,
        desk: &mut D,
        out: &mut K,
        report: &mut E,
        gate: &G,
        kept: &mut Kept,
    ) -> Status
        requires ready { IsReady self }
        requires nothing { kept.old ≡ nothing_kept }
        ensures { Finishes self result (D.meaning desk.old) (D.meaning desk.new) (K.meaning out.old) (K.meaning out.new) (E.meaning report.old) (E.meaning report.new) kept.new }
    {
        let Waiting { task, puts, order } = self;
        match execute(rt, alloc, task, gate) {
            Ok(run) => give(puts, order, run, desk, out, report, kept).status(),
            Err(_) => refuse(&Stop::WantOfMemory, report),
        }
    }
}
