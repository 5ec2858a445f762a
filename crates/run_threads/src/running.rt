// Running threads.
ghost use Rattle.std.specs.Prelude.{◌≡◌, true, map, reverse, IfOk};
ghost use Rattle.std.specs.List.{AllByRecursion};
ghost use Rattle.image_file.specs.Whole.{IsWhole};
ghost use Rattle.block_law.specs.Translations.{Meets};
ghost use Rattle.image_meaning.specs.Meant.{image_meaning};
ghost use Rattle.image_meaning.specs.Permits.{any_permit};
ghost use Rattle.system_model.specs.Legal.{IsLegal};
ghost use Rattle.tie_switch.specs.Processors.{processor_of};
ghost use Rattle.tie_switch.specs.Settings.{image_setting};
ghost use Rattle.tie_switch.specs.Turns.{has_ended};

use crate::job::Job;
use crate::passes::{join_all, split_all};
use crate::program::Program;
use crate::together::run_all;
use crate::turns::Turner;
use image_file::Image;
use image_meaning::laws::{page_table_has_bytes, vax_meaning_is_sound};
use legal_history::laws::images_are_runs;
use memory_core::{Limit, MemState};
use prepared_code::Prepared;
use shared_memory::{Pass, SharedMemory};
use std::alloc::Global;
use std::marker::Model;
use std::sync::Wait;
use std::thread::Threads;
use system_model::Translation;
use system_model::laws::{others_keep_reached, reached_are_legal};
use tie_switch::{Processor, Range};
use vax_form::WantOfMemory;
use vt_outside::Gate;

/// A memory, its keeper, and a processor for each thread that is to run.
pub struct Running {
    memory: SharedMemory,
    keeper: Pass,
    budget: u64,
    jobs: Vec<Job>,
    ended: Vec<Processor>,
}

impl Model for Running {
    ghost use Rattle.shared_memory.specs.Passes.{set_up_of};
    ghost use Rattle.run_threads.specs.Runs.{RunningValue, IsRunning};

    ghost Value = { RunningValue };

    ghost view = { λ r. record { set_up = set_up_of r.memory; budget = r.budget } };

    ghost invariant = { λ r. IsRunning r.memory r.keeper r.budget r.jobs.items r.ended };
}

impl Running {
    ghost use Rattle.run_threads.specs.Runs.{RunningValue};

    /// Takes all memory of a run: the image's memory, the passes, a processor beside its pass for each thread, and the
    /// list for the answer. `budget` is the most steps of each processor.
    pub fn new(
        alloc: Global,
        image: &Image,
        input: Vec<u8>,
        budget: u64,
        limit: Limit,
        miss: u16,
    ) -> Result<Running, WantOfMemory>
        requires whole { IsWhole image.now }
        ensures { IfOk result (λ r. r ≡ record { set_up = record { image = image.now; input = input.items; limit = limit; miss = miss }; budget = budget }) }
    {
        images_are_runs(image, &input);
        let count = image.threads.len() as u8;
        let jobs = Vec::with_capacity(alloc, usize::from(count))?;
        let ended = Vec::with_capacity(alloc, usize::from(count))?;
        let state = MemState::new(alloc, image, input, count, limit, miss)?;
        let (memory, mut keeper) = SharedMemory::new(alloc, state)?;
        let jobs = split_all(&memory, &mut keeper, image, count, budget, jobs);
        Ok(Running {
            memory,
            keeper,
            budget,
            jobs,
            ended,
        })
    }

    /// Runs every processor to its end, in a thread of its own, by the translation that was made ready. It may wait. All threads stand
    /// before any makes a step, and from then on it takes no memory; an error is want of memory, or a thread that the system does not
    /// make, and then no processor has made a step. The processors stand in the order of the threads.
    pub fn go<R: Threads + Wait + Sync, G: Gate + Sync>(
        self,
        rt: &R,
        alloc: Global,
        image: &Image,
        translation: &Translation,
        prepared: &Prepared<'_>,
        ranges: &[Range],
        gate: &G,
    ) -> Result<(MemState, Vec<Processor>), WantOfMemory>
        requires image { self.set_up.image ≡ image.now }
        requires code { prepared.now.code ≡ translation.now }
        requires pages { prepared.now.pages ≡ image.now.pages }
        requires meets { Meets (image_meaning image.now.pages) (any_permit image.now.pages) translation.now }
        ensures set_up { IfOk result (λ r. r.0.set_up ≡ self.set_up) }
        ensures legal { IfOk result (λ r. IsLegal (image_setting image.now.pages translation.now ranges.now) self.set_up self.budget (reverse r.0.history) (map processor_of r.1.items)) }
        ensures ended { IfOk result (λ r. AllByRecursion (λ p. has_ended p.mode ≡ true) (map processor_of r.1.items)) }
    {
        let Running {
            memory,
            mut keeper,
            budget: _,
            jobs,
            mut ended,
        } = self;
        vax_meaning_is_sound();
        page_table_has_bytes(&image.pages);
        let program = Program {
            image,
            translation,
            prepared,
            ranges,
        };
        let turner = Turner {
            rt,
            memory: &memory,
            gate,
            program,
        };
        let jobs = run_all(rt, alloc, &turner, jobs)?;
        join_all(&memory, &mut keeper, jobs, &mut ended);
        others_keep_reached();
        reached_are_legal();
        Ok((memory.close(keeper), ended))
    }
}
