// Many turns of a processor.
ghost use Rattle.std.specs.Prelude.{◌≡◌, ◌<◌, ◌≤◌, ◌+◌, ◌⊎◌, ◌↔◌, ℕ, false, true, Some, IfNone, IfSome, length};
ghost use Rattle.alpha_machine.specs.Step.{state_of};
ghost use Rattle.alpha_meaning.specs.Pieces.{most_words};
ghost use Rattle.system_model.specs.Processors as model;
ghost use Rattle.system_model.specs.Processors.{Runs, mode_of};
ghost use Rattle.tie_switch.specs.Courses.{Begins, HasOpcode, course_of};
ghost use Rattle.tie_switch.specs.Inside.{goes_on_locally, is_local, went};
ghost use Rattle.tie_switch.specs.Known.{AreFound};
ghost use Rattle.tie_switch.specs.ManyTurns.{IsBehind, MayCome};
ghost use Rattle.tie_switch.specs.Processors.{HasAdvanced, HasGone, HasSteps, IsPlain};
ghost use Rattle.tie_switch.specs.Seen.{setting_of};
ghost use Rattle.tie_switch.specs.Settings.{image_setting};
ghost use Rattle.tie_switch.specs.Turns.{has_ended};
ghost use Rattle.vax_form.specs.declared.state.Pending.TheVariants.{Nothing};

use crate::course::Course;
use crate::known::KNOWN;
use crate::processor::{Mode, Processor};
use crate::registers::registers_of;
use crate::setting::Setting;
use crate::turn::Turn;
use alpha_machine::Cpu;
use image_file::Image;
use memory_core::Memory;
use prepared_code::{Prepared, Stepping};
use system_model::{Range, Translation, word_for};
use vax_form::{Instr, Pending};

/// Where fewer turns are asked for, no instructions are known.
const MANY_TURNS: u64 = 1_000;

impl Processor {
    ghost use Rattle.tie_switch.specs.Processors.{processor_of, StandsFor};

    // Where it stands in Alpha code with nothing pending; a new processor at its first boundary.
    fn cpu_at(&self, prepared: &Prepared<'_>, ranges: &[Range]) -> Option<Cpu>
        requires nothing { self.now.boundary.pending ≡ Nothing }
        ensures plain { IfSome result (λ cpu. IsPlain self.now.mode) }
        ensures there { IfSome result (λ cpu. mode_of (image_setting prepared.now.pages prepared.now.code ranges.now) (processor_of self.now) (processor_of self.now).mode ≡ Runs (state_of cpu)) }
        ensures none { IfNone result (is_local (image_setting prepared.now.pages prepared.now.code ranges.now) (processor_of self.now) ≡ false) }
    {
        match self.mode {
            Mode::New => {
                match word_for(prepared.map(), ranges, self.thread, self.boundary.pc) {
                    Some(pc) => Some(Cpu {
                        r: registers_of(&self.boundary),
                        pc,
                    }),
                    None => None,
                }
            }
            Mode::Runs(cpu) => Some(cpu),
            _ => None,
        }
    }

    // Its course from there.
    fn course(&self, prepared: &Prepared<'_>, ranges: &[Range]) -> Option<Course>
        ensures begins { IfSome result (λ course. Begins (image_setting prepared.now.pages prepared.now.code ranges.now) (processor_of self.now)
            (course_of self.now.thread self.now.boundary self.now.interpreted course self.now.steps)) }
        ensures nothing { IfSome result (λ course. self.now.boundary.pending ≡ Nothing) }
        ensures retired { IfSome result (λ course. course.retired ≡ self.now.retired) }
        ensures plain { IfSome result (λ course. IsPlain self.now.mode) }
        ensures opcode { IfSome result (λ course. HasOpcode prepared.now.pages course.landed) }
        ensures local { IfSome result (λ course. is_local (image_setting prepared.now.pages prepared.now.code ranges.now) (processor_of self.now)
            ≡ goes_on_locally (image_setting prepared.now.pages prepared.now.code ranges.now) self.now.thread (state_of course.cpu)) }
        ensures none { IfNone result (self.now.boundary.pending ≡ Nothing → is_local (image_setting prepared.now.pages prepared.now.code ranges.now) (processor_of self.now) ≡ false) }
    {
        match self.boundary.pending {
            Pending::Nothing => match self.cpu_at(prepared, ranges) {
                Some(cpu) => Some(Course {
                    cpu,
                    landed: None,
                    held: self.held,
                    retired: self.retired,
                }),
                None => None,
            },
            Pending::Deliver(_) | Pending::Resume => None,
        }
    }

    /// Stands where a course came to with so many steps.
    pub(crate) fn settle(&mut self, course: &Course, made: u64)
        requires retired { course.now.retired ≤ self.old.retired + made }
        requires steps { self.old.steps + made ≤ self.old.budget }
        ensures is { processor_of self.new ≡ course_of self.old.thread self.old.boundary self.old.interpreted course.now (self.old.steps + made) }
        ensures plain { IsPlain self.new.mode }
        ensures budget { self.new.budget ≡ self.old.budget }
        ensures thread { self.new.thread ≡ self.old.thread }
        ensures steps { self.new.steps ≡ self.old.steps + made }
    {
        self.boundary = course.boundary(&self.boundary);
        self.mode.run(&course.cpu);
        self.held = course.held;
        self.retired = course.retired;
        self.steps += made;
    }

    // Makes local steps, where it stands in Alpha code or is new.
    fn local_steps(&mut self, prepared: &Prepared<'_>, ranges: &[Range], most: u64) -> u64
        ensures most { result ≤ most }
        ensures budget { self.new.budget ≡ self.old.budget }
        ensures thread { self.new.thread ≡ self.old.thread }
        ensures steps { self.new.steps ≡ self.old.steps + result }
        ensures few_steps { self.new.steps ≤ self.new.budget }
        ensures stays { result ≡ 0 → self.new ≡ self.old }
        ensures before { 0 < result → IsPlain self.old.mode }
        ensures behind { 0 < result → IsPlain self.new.mode }
        ensures stops { result < most → self.new.steps < self.new.budget → self.new.boundary.pending ≡ Nothing
            → is_local (image_setting prepared.now.pages prepared.now.code ranges.now) (processor_of self.new) ≡ false }
        ensures went { went (image_setting prepared.now.pages prepared.now.code ranges.now) (processor_of self.old) result ≡ Some (processor_of self.new) }
    {
        let Some(mut course) = self.course(prepared, ranges) else {
            return 0;
        };
        let most = most.min(self.budget - self.steps);
        let made = course.run::<Stepping>(prepared, ranges, self.thread, &self.boundary, most);
        if made > 0 {
            self.settle(&course, made);
        }
        made
    }

    /// Makes turns that ask nothing, with the registers in place, and tells how many: local steps inside blocks and from block
    /// to block, at most so many and within the budget, while the thread goes on in Alpha code. Fewer are made only where the
    /// budget is spent, something is pending, or the next turn is no such step.
    pub fn run_local(&mut self, prepared: &Prepared<'_>, ranges: &[Range], most: u64) -> u64
        ensures most { result ≤ most }
        ensures budget { self.new.budget ≡ self.old.budget }
        ensures thread { self.new.thread ≡ self.old.thread }
        ensures steps { self.new.steps ≡ self.old.steps + result }
        ensures few_steps { self.new.steps ≤ self.new.budget }
        ensures stops { result < most → self.new.steps < self.new.budget → self.new.boundary.pending ≡ Nothing
            → is_local (image_setting prepared.now.pages prepared.now.code ranges.now) (processor_of self.new) ≡ false }
        ensures went { (p : model.Processor) → StandsFor prepared.now.pages self.old p
            → HasGone (image_setting prepared.now.pages prepared.now.code ranges.now) p result self.new }
    {
        self.local_steps(prepared, ranges, most)
    }

    /// Makes so many turns, one after the other as `turn_prepared` makes them, local steps in place. Fewer are made only
    /// where the processor has ended. Tells how many.
    pub fn advance<M: Memory>(
        &mut self,
        image: &Image,
        translation: &Translation,
        prepared: &Prepared<'_>,
        ranges: &[Range],
        memory: &mut M,
        most: u64,
    ) -> u64
        requires few { length translation.now.words ≤ most_words }
        requires code { prepared.now.code ≡ translation.now }
        requires image { prepared.now.pages ≡ image.now.pages }
        requires pages { (M.set_up memory.old).image.pages ≡ image.now.pages }
        requires serves { M.serves memory.old self.old.thread }
        requires has_steps { HasSteps (image_setting image.now.pages translation.now ranges.now) (M.set_up memory.old) (MayCome M.same M.between memory.old) most self.old (M.seen memory.old) }
        ensures some { 0 < most → 0 < result }
        ensures most { result ≤ most }
        ensures all { result < most → has_ended (processor_of self.new).mode ≡ true }
        ensures set_up { M.set_up memory.new ≡ M.set_up memory.old }
        ensures place { IsBehind M.same memory.old memory.new }
        ensures serves { (thread : ℕ) → M.serves memory.old thread ↔ M.serves memory.new thread }
        ensures budget { self.new.budget ≡ self.old.budget }
        ensures thread { self.new.thread ≡ self.old.thread }
        ensures steps { has_ended (processor_of self.new).mode ≡ false → self.new.steps ≡ self.old.steps + result }
        ensures few_steps { self.new.steps ≤ self.new.budget }
        ensures turned { (p : model.Processor) → StandsFor image.now.pages self.old p
            → HasAdvanced (image_setting image.now.pages translation.now ranges.now) (M.set_up memory.old) (MayCome M.same M.between memory.old) self.old.budget p result self.new (M.seen memory.old) (M.seen memory.new) }
    {
        let setting = Setting {
            pages: &image.pages,
            code: translation,
            ranges,
        };
        if most < MANY_TURNS {
            self.advance_by(setting, prepared, &mut [], memory, most)
        } else {
            self.advance_knowing(setting, prepared, memory, most)
        }
    }

    /// The same, by the instructions that are known: what is decoded is known then.
    pub fn advance_known<M: Memory>(
        &mut self,
        image: &Image,
        translation: &Translation,
        prepared: &Prepared<'_>,
        ranges: &[Range],
        known: &mut [Option<Instr>],
        memory: &mut M,
        most: u64,
    ) -> u64
        requires known { AreFound image.now.pages known.old }
        requires few { length translation.now.words ≤ most_words }
        requires code { prepared.now.code ≡ translation.now }
        requires image { prepared.now.pages ≡ image.now.pages }
        requires pages { (M.set_up memory.old).image.pages ≡ image.now.pages }
        requires serves { M.serves memory.old self.old.thread }
        requires has_steps { HasSteps (image_setting image.now.pages translation.now ranges.now) (M.set_up memory.old) (MayCome M.same M.between memory.old) most self.old (M.seen memory.old) }
        ensures known { AreFound image.now.pages known.new }
        ensures some { 0 < most → 0 < result }
        ensures most { result ≤ most }
        ensures all { result < most → has_ended (processor_of self.new).mode ≡ true }
        ensures set_up { M.set_up memory.new ≡ M.set_up memory.old }
        ensures place { IsBehind M.same memory.old memory.new }
        ensures serves { (thread : ℕ) → M.serves memory.old thread ↔ M.serves memory.new thread }
        ensures budget { self.new.budget ≡ self.old.budget }
        ensures thread { self.new.thread ≡ self.old.thread }
        ensures steps { has_ended (processor_of self.new).mode ≡ false → self.new.steps ≡ self.old.steps + result }
        ensures few_steps { self.new.steps ≤ self.new.budget }
        ensures turned { (p : model.Processor) → StandsFor image.now.pages self.old p
            → HasAdvanced (image_setting image.now.pages translation.now ranges.now) (M.set_up memory.old) (MayCome M.same M.between memory.old) self.old.budget p result self.new (M.seen memory.old) (M.seen memory.new) }
    {
        let setting = Setting {
            pages: &image.pages,
            code: translation,
            ranges,
        };
        self.advance_by(setting, prepared, known, memory, most)
    }

    // The same, where what was decoded is known then.
    fn advance_knowing<M: Memory>(
        &mut self,
        setting: Setting<'_>,
        prepared: &Prepared<'_>,
        memory: &mut M,
        most: u64,
    ) -> u64
        requires few { length setting.code.now.words ≤ most_words }
        requires code { prepared.now.code ≡ setting.code.now }
        requires image { prepared.now.pages ≡ setting.pages.now }
        requires pages { (M.set_up memory.old).image.pages ≡ setting.pages.now }
        requires serves { M.serves memory.old self.old.thread }
        requires has_steps { HasSteps (setting_of setting) (M.set_up memory.old) (MayCome M.same M.between memory.old) most self.old (M.seen memory.old) }
        ensures some { 0 < most → 0 < result }
        ensures most { result ≤ most }
        ensures all { result < most → has_ended (processor_of self.new).mode ≡ true }
        ensures set_up { M.set_up memory.new ≡ M.set_up memory.old }
        ensures place { IsBehind M.same memory.old memory.new }
        ensures serves { (thread : ℕ) → M.serves memory.old thread ↔ M.serves memory.new thread }
        ensures budget { self.new.budget ≡ self.old.budget }
        ensures thread { self.new.thread ≡ self.old.thread }
        ensures steps { has_ended (processor_of self.new).mode ≡ false → self.new.steps ≡ self.old.steps + result }
        ensures few_steps { self.new.steps ≤ self.new.budget }
        ensures turned { (p : model.Processor) → StandsFor setting.entry.pages.now self.old p
            → HasAdvanced (setting_of setting.entry) (M.set_up memory.old) (MayCome M.same M.between memory.old) self.old.budget p result self.new (M.seen memory.old) (M.seen memory.new) }
    {
        let mut known = [None; KNOWN];
        self.advance_by(setting, prepared, &mut known, memory, most)
    }

    // The same, by the instructions that are known.
    fn advance_by<M: Memory>(
        &mut self,
        setting: Setting<'_>,
        prepared: &Prepared<'_>,
        known: &mut [Option<Instr>],
        memory: &mut M,
        most: u64,
    ) -> u64
        requires known { AreFound setting.pages.now known.old }
        requires few { length setting.code.now.words ≤ most_words }
        requires code { prepared.now.code ≡ setting.code.now }
        requires image { prepared.now.pages ≡ setting.pages.now }
        requires pages { (M.set_up memory.old).image.pages ≡ setting.pages.now }
        requires serves { M.serves memory.old self.old.thread }
        requires has_steps { HasSteps (setting_of setting) (M.set_up memory.old) (MayCome M.same M.between memory.old) most self.old (M.seen memory.old) }
        ensures known { AreFound setting.entry.pages.now known.new }
        ensures some { 0 < most → 0 < result }
        ensures most { result ≤ most }
        ensures all { result < most → has_ended (processor_of self.new).mode ≡ true }
        ensures set_up { M.set_up memory.new ≡ M.set_up memory.old }
        ensures place { IsBehind M.same memory.old memory.new }
        ensures serves { (thread : ℕ) → M.serves memory.old thread ↔ M.serves memory.new thread }
        ensures budget { self.new.budget ≡ self.old.budget }
        ensures thread { self.new.thread ≡ self.old.thread }
        ensures steps { has_ended (processor_of self.new).mode ≡ false → self.new.steps ≡ self.old.steps + result }
        ensures few_steps { self.new.steps ≤ self.new.budget }
        ensures turned { (p : model.Processor) → StandsFor setting.entry.pages.now self.old p
            → HasAdvanced (setting_of setting.entry) (M.set_up memory.old) (MayCome M.same M.between memory.old) self.old.budget p result self.new (M.seen memory.old) (M.seen memory.new) }
    {
        // It does nothing, and brings that the steps are within the budget.
        let _ = &self.steps;
        let mut made = 0;
        while made < most {
            let (steps, turn) = self.some_turns(setting, prepared, known, memory, most - made);
            made += steps;
            if let Turn::Ended = turn {
                return made;
            }
        }
        made
    }

    // Turns in one course, and one more behind them.
    #[inline(always)]
    fn some_turns<M: Memory>(
        &mut self,
        setting: Setting<'_>,
        prepared: &Prepared<'_>,
        known: &mut [Option<Instr>],
        memory: &mut M,
        most: u64,
    ) -> (u64, Turn)
        requires known { AreFound setting.pages.now known.old }
        requires few { length setting.code.now.words ≤ most_words }
        requires code { prepared.now.code ≡ setting.code.now }
        requires image { prepared.now.pages ≡ setting.pages.now }
        requires pages { (M.set_up memory.old).image.pages ≡ setting.pages.now }
        requires serves { M.serves memory.old self.old.thread }
        requires has_steps { HasSteps (setting_of setting) (M.set_up memory.old) (MayCome M.same M.between memory.old) most self.old (M.seen memory.old) }
        ensures known { AreFound setting.entry.pages.now known.new }
        ensures some { 0 < most → 0 < result.0 }
        ensures most { result.0 ≤ most }
        ensures set_up { M.set_up memory.new ≡ M.set_up memory.old }
        ensures place { IsBehind M.same memory.old memory.new }
        ensures serves { (thread : ℕ) → M.serves memory.old thread ↔ M.serves memory.new thread }
        ensures budget { self.new.budget ≡ self.old.budget }
        ensures thread { self.new.thread ≡ self.old.thread }
        ensures steps { result.1 ≡ Turn.Went → self.new.steps ≡ self.old.steps + result.0 }
        ensures few_steps { self.new.steps ≤ self.new.budget }
        ensures ended { result.1 ≡ Turn.Ended → has_ended (processor_of self.new).mode ≡ true }
        ensures turned { (p : model.Processor) → StandsFor setting.entry.pages.now self.old p
            → HasAdvanced (setting_of setting.entry) (M.set_up memory.old) (MayCome M.same M.between memory.old) self.old.budget p result.0 self.new (M.seen memory.old) (M.seen memory.new) }
    {
        let (made, turn) = self.over_accesses(setting, prepared, memory, most);
        match turn {
            Turn::Went => {
                if made < most {
                    self.take_turn(setting, known, memory);
                    (made + 1, self.turn_made())
                } else {
                    (made, turn)
                }
            }
            Turn::Ended => (made, turn),
        }
    }
}
