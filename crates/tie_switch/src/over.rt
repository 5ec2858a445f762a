// Local steps and accesses inside blocks, in one course.
ghost use Rattle.std.specs.Prelude.{◌≡◌, ◌<◌, ◌≤◌, ◌+◌, ◌^◌, ◌↔◌, ℕ, false, true, IfSome, is_some};
ghost use Rattle.alpha_machine.specs.Step.{state_of};
ghost use Rattle.alpha_machine.specs.declared.cpu.Cpu.{Cpu};
ghost use Rattle.memory_core.specs.Limits.{CountsPuts};
ghost use Rattle.system_model.specs.Legal.{spent};
ghost use Rattle.system_model.specs.Processors as model;
ghost use Rattle.tie_switch.specs.Asks.{Rests};
ghost use Rattle.tie_switch.specs.Courses.{HasOpcode, course_of};
ghost use Rattle.tie_switch.specs.Live.{KeepsRead, is_spent};
ghost use Rattle.tie_switch.specs.ManyTurns.{IsBehind, IsTurns, MayCome};
ghost use Rattle.tie_switch.specs.Processors.{HasAdvanced, HasSteps, IsPlain, is_running};
ghost use Rattle.tie_switch.specs.Seen.{setting_of};
ghost use Rattle.tie_switch.specs.Settings.{image_setting};
ghost use Rattle.tie_switch.specs.Turns.{has_ended};
ghost use Rattle.vax_form.specs.declared.pages.Pages.{Pages};
ghost use Rattle.vax_form.specs.declared.state.Pending.TheVariants.{Nothing};

use crate::course::Course;
use crate::processor::{Mode, Processor};
use crate::setting::Setting;
use crate::turn::Turn;
use memory_core::Memory;
use prepared_code::{Keeping, Prepared};
use vax_form::Pending;

impl Processor {
    ghost use Rattle.tie_switch.specs.Processors.{processor_of, StandsFor};

    /// Its course, where it stands in Alpha code with nothing pending.
    #[inline(always)]
    pub(crate) fn running(&self) -> Option<Course>
        ensures just { is_some result ≡ is_running self.now }
        ensures is { IfSome result (λ course. course_of self.now.thread self.now.boundary self.now.interpreted course self.now.steps ≡ processor_of self.now) }
        ensures nothing { IfSome result (λ course. self.now.boundary.pending ≡ Nothing) }
        ensures retired { IfSome result (λ course. course.retired ≡ self.now.retired) }
        ensures plain { IfSome result (λ course. IsPlain self.now.mode) }
        ensures opcode { IfSome result (λ course. (pages : Pages) → HasOpcode pages course.landed) }
        ensures going { IfSome result (λ course. has_ended (processor_of self.now).mode ≡ false) }
    {
        match self.boundary.pending {
            Pending::Nothing => match self.mode {
                Mode::Runs(cpu) => Some(Course {
                    cpu,
                    landed: None,
                    held: self.held,
                    retired: self.retired,
                }),
                Mode::New | Mode::Interprets(..) | Mode::Ended(_) => None,
            },
            Pending::Deliver(_) | Pending::Resume => None,
        }
    }

    // Makes local steps and accesses inside blocks along its course, and tells how many: at most so many. It ends where the
    // history is full.
    fn run_over<M: Memory>(
        &self,
        course: &mut Course,
        setting: Setting<'_>,
        prepared: &Prepared<'_>,
        memory: &mut M,
        most: u64,
    ) -> (u64, Turn)
        requires code { prepared.now.code ≡ setting.code.now }
        requires image { prepared.now.pages ≡ setting.pages.now }
        requires pages { (M.set_up memory.old).image.pages ≡ setting.pages.now }
        requires serves { M.serves memory.old self.now.thread }
        requires nothing { self.now.boundary.pending ≡ Nothing }
        requires plain { IsPlain self.now.mode }
        requires stands { course_of self.now.thread self.now.boundary self.now.interpreted course.old self.now.steps ≡ processor_of self.now }
        requires opcode { HasOpcode prepared.now.pages course.old.landed }
        requires retired { course.old.retired ≡ self.now.retired }
        requires steps { self.now.steps + most ≤ self.now.budget }
        requires room { self.now.retired + most < 2 ^ 64 }
        requires has_steps { HasSteps (setting_of setting) (M.set_up memory.old) (MayCome M.same M.between memory.old) most self.now (M.seen memory.old) }
        ensures most { result.0 ≤ most }
        ensures fewer { result.1 ≡ Turn.Ended → result.0 < most }
        ensures set_up { M.set_up memory.new ≡ M.set_up memory.old }
        ensures place { IsBehind M.same memory.old memory.new }
        ensures serves { (thread : ℕ) → M.serves memory.old thread ↔ M.serves memory.new thread }
        ensures rests { result.1 ≡ Turn.Went → result.0 < most → Rests (image_setting prepared.now.pages prepared.now.code setting.entry.ranges.now) prepared.now self.now.thread (state_of course.new.cpu) }
        ensures retired { course.new.retired ≤ course.old.retired + result.0 }
        ensures read { KeepsRead (MayCome M.same M.between memory.old) (M.seen memory.old) (M.seen memory.new) }
        ensures allowed { CountsPuts (M.set_up memory.old).limit → result.1 ≡ Turn.Went }
        ensures went { result.1 ≡ Turn.Went → IsTurns (setting_of setting.entry) (M.set_up memory.old) (MayCome M.same M.between memory.old) self.now.budget (processor_of self.now) (M.seen memory.old)
            result.0 (course_of self.now.thread self.now.boundary self.now.interpreted course.new (self.now.steps + result.0)) (M.seen memory.new) }
        ensures ended { result.1 ≡ Turn.Ended → IsTurns (setting_of setting.entry) (M.set_up memory.old) (MayCome M.same M.between memory.old) self.now.budget (processor_of self.now) (M.seen memory.old)
            (result.0 + 1) (spent (course_of self.now.thread self.now.boundary self.now.interpreted course.new (self.now.steps + result.0))) (M.seen memory.new) }
    {
        let (ranges, thread, before) = (setting.ranges, self.thread, &self.boundary);
        let mut made = 0;
        while made < most {
            made += course.run::<(M, Keeping)>(prepared, ranges, thread, before, most - made);
            if made == most {
                return (made, Turn::Went);
            }
            match course.access::<M, Keeping>(setting, prepared, thread, memory) {
                Some(Turn::Went) => made += 1,
                Some(Turn::Ended) => return (made, Turn::Ended),
                None => return (made, Turn::Went),
            }
        }
        (made, Turn::Went)
    }

    /// Makes local turns and accesses inside blocks, where it stands in Alpha code: the registers stay in place, and its
    /// boundary is worked out once, at the end. Tells how many, and whether it has ended then.
    pub(crate) fn over_accesses<M: Memory>(
        &mut self,
        setting: Setting<'_>,
        prepared: &Prepared<'_>,
        memory: &mut M,
        most: u64,
    ) -> (u64, Turn)
        requires code { prepared.now.code ≡ setting.code.now }
        requires image { prepared.now.pages ≡ setting.pages.now }
        requires pages { (M.set_up memory.old).image.pages ≡ setting.pages.now }
        requires serves { M.serves memory.old self.old.thread }
        requires has_steps { HasSteps (setting_of setting) (M.set_up memory.old) (MayCome M.same M.between memory.old) most self.old (M.seen memory.old) }
        ensures some { result.1 ≡ Turn.Ended → 0 < result.0 }
        ensures most { result.0 ≤ most }
        ensures set_up { M.set_up memory.new ≡ M.set_up memory.old }
        ensures place { IsBehind M.same memory.old memory.new }
        ensures serves { (thread : ℕ) → M.serves memory.old thread ↔ M.serves memory.new thread }
        ensures budget { self.new.budget ≡ self.old.budget }
        ensures thread { self.new.thread ≡ self.old.thread }
        ensures steps { result.1 ≡ Turn.Went → self.new.steps ≡ self.old.steps + result.0 }
        ensures few_steps { self.new.steps ≤ self.new.budget }
        ensures ended { result.1 ≡ Turn.Ended → has_ended (processor_of self.new).mode ≡ true }
        ensures read { KeepsRead (MayCome M.same M.between memory.old) (M.seen memory.old) (M.seen memory.new) }
        ensures allowed { CountsPuts (M.set_up memory.old).limit → result.1 ≡ Turn.Went }
        ensures rests { is_running self.old ≡ true → result.1 ≡ Turn.Went → result.0 < most → self.new.steps < self.new.budget → (cpu : Cpu) → self.new.mode ≡ Mode.Runs cpu
            → Rests (image_setting prepared.now.pages prepared.now.code setting.entry.ranges.now) prepared.now self.old.thread (state_of cpu) }
        ensures unspent { result.1 ≡ Turn.Went → is_spent (processor_of self.old).mode ≡ false → is_spent (processor_of self.new).mode ≡ false }
        ensures turned { (p : model.Processor) → StandsFor setting.entry.pages.now self.old p
            → HasAdvanced (setting_of setting.entry) (M.set_up memory.old) (MayCome M.same M.between memory.old) self.old.budget p result.0 self.new (M.seen memory.old) (M.seen memory.new) }
    {
        let Some(mut course) = self.running() else {
            return (0, Turn::Went);
        };
        let most = most.min(self.budget - self.steps);
        let (made, turn) = self.run_over(&mut course, setting, prepared, memory, most);
        self.settle(&course, made);
        match turn {
            Turn::Went => (made, Turn::Went),
            Turn::Ended => {
                self.spend();
                (made + 1, Turn::Ended)
            }
        }
    }
}
