// The turns of processors.
ghost use Rattle.std.specs.Prelude.{◌≡◌};
ghost use Rattle.shared_memory.specs.Passes.{set_up_of, number_of, seen_of, IsPassOf};
ghost use Rattle.tie_switch.specs.Processors.{processor_of};
ghost use Rattle.tie_switch.specs.Turns.{has_ended};
ghost use Rattle.run_threads.specs.Jobs.{IsReady, IsDone};
ghost use Rattle.run_threads.specs.Processors.{IsUnderWay, HasEnded};
ghost use Rattle.run_threads.specs.Programs.{setting_of, CanRun, HasPrepared};

use crate::job::Job;
use crate::program::Program;
use crate::together::Runner;
use legal_history::laws::reached_is_steady;
use shared_memory::{Pass, Port, SharedMemory};
use std::sync::Wait;
use tie_switch::laws::many_turns_keep_reached;
use tie_switch::{KNOWN, Processor};
use vt_outside::Gate;

/// So many turns are made before a processor that has the memory looks whether another waits for it.
const PORTION: u64 = 10_000;

// Turns a processor until it has ended.
fn turn_all<R: Wait, G: Gate>(
    rt: &R,
    memory: &SharedMemory,
    gate: &G,
    program: Program<'_>,
    processor: &mut Processor,
    pass: Pass,
) -> Pass
    requires prepared { HasPrepared program }
    requires can_run { CanRun (setting_of program) (set_up_of memory.now) }
    requires pass { IsPassOf memory.now processor.old.thread pass }
    requires way { IsUnderWay (setting_of program) (set_up_of memory.now) (seen_of pass) processor.old }
    ensures pass { IsPassOf memory.now processor.old.thread result }
    ensures thread { processor.new.thread ≡ processor.old.thread }
    ensures budget { processor.new.budget ≡ processor.old.budget }
    ensures ended { HasEnded (setting_of program.entry) (set_up_of memory.now) (seen_of result) processor.new }
{
    reached_is_steady();
    many_turns_keep_reached();
    let mut port = Port::new(rt, memory, pass, gate);
    let mut known = [None; KNOWN];
    let Program {
        image,
        translation,
        prepared,
        ranges,
    } = program;
    while processor.end().is_none() {
        processor.advance_known(
            image,
            translation,
            prepared,
            ranges,
            &mut known,
            &mut port,
            PORTION,
        );
        port.share();
    }
    port.end()
}

/// Turns the processors of jobs over one memory.
#[derive(Clone, Copy)]
pub(crate) struct Turner<'a, R, G> {
    pub rt: &'a R,
    pub memory: &'a SharedMemory,
    pub gate: &'a G,
    pub program: Program<'a>,
}

impl<R: Wait, G: Gate> Runner<Job> for Turner<'_, R, G> {
    ghost can_run = { λ t job. HasPrepared t.program × CanRun (setting_of t.program) (set_up_of t.memory.now) × IsReady t.memory.now job.processor.thread job };

    ghost run_gives = { λ t job ran. IsDone (setting_of t.program) t.memory.now job.processor.budget job.processor.thread ran };

    fn run(&self, job: Job) -> Job {
        let Job {
            mut processor,
            pass,
        } = job;
        let pass = turn_all(
            self.rt,
            self.memory,
            self.gate,
            self.program,
            &mut processor,
            pass,
        );
        Job { processor, pass }
    }
}
