// Accesses inside a block, made with the registers in place.
ghost use Rattle.std.specs.Prelude.{◌≡◌, ◌≢◌, ◌≤◌, ◌<◌, ◌+◌, ◌↔◌, ◌⊎◌, ℕ, false, true, Some, IfSome, IfNone, is_some};
ghost use Rattle.alpha_encode.specs.declared.instr.AlphaInstr.TheVariants.{Memory};
ghost use Rattle.alpha_machine.specs.Step.{state_of};
ghost use Rattle.alpha_meaning.specs.Pieces.{most_words};
ghost use Rattle.block_law.specs.Translations.{fetch_of};
ghost use Rattle.memory_core.specs.Limits.{CountsPuts};
ghost use Rattle.prepared_code.specs.Asks.{asks_inside};
ghost use Rattle.system_model.specs.Legal.{spent};
ghost use Rattle.system_model.specs.Processors as model;
ghost use Rattle.tie_switch.specs.Courses.{course_of};
ghost use Rattle.tie_switch.specs.Asks.{HasCourseStep};
ghost use Rattle.tie_switch.specs.Live.{KeepsRead};
ghost use Rattle.tie_switch.specs.Processors.{HasMade, HasStep};
ghost use Rattle.tie_switch.specs.Seen.{setting_of};
ghost use Rattle.tie_switch.specs.Turns.{Makes, has_ended};
ghost use Rattle.vax_form.specs.declared.state.VaxState.{VaxState};

use crate::course::Course;
use crate::processor::Processor;
use crate::request::request_by;
use crate::setting::Setting;
use crate::turn::Turn;
use alpha_encode::{AlphaInstr, MemoryOp as Op};
use memory_core::{Memory, Reply};
use prepared_code::{Prepared, Stepping};

// The places of accesses by their operations.
pub(crate) struct Ldl;

pub(crate) struct Stl;

pub(crate) struct LdqL;

pub(crate) struct StqC;

pub(crate) struct LdqU;

pub(crate) struct Ldbu;

pub(crate) struct Stb;

impl Course {
    /// Makes the access of its word, where that is one inside a block; where the history is full it stays. Any other turn is
    /// left to be made.
    #[inline(always)]
    pub(crate) fn access<M: Memory, L>(
        &mut self,
        setting: Setting<'_>,
        prepared: &Prepared<'_>,
        thread: u8,
        memory: &mut M,
    ) -> Option<Turn>
        requires code { prepared.now.code ≡ setting.code.now }
        requires pages { (M.set_up memory.old).image.pages ≡ setting.pages.now }
        requires serves { M.serves memory.old thread }
        requires has_step { HasCourseStep (setting_of setting) (M.set_up memory.old) thread self.old }
        ensures set_up { M.set_up memory.new ≡ M.set_up memory.old }
        ensures place { (memory.new ≡ memory.old) ⊎ M.same memory.old memory.new }
        ensures serves { (thread : ℕ) → M.serves memory.old thread ↔ M.serves memory.new thread }
        ensures just { is_some result ≡ asks_inside prepared.now (state_of self.old.cpu) }
        ensures stays { IfNone result ((self.new ≡ self.old) × (memory.new ≡ memory.old)) }
        ensures landed { self.new.landed ≡ self.old.landed }
        ensures retired { self.new.retired ≡ self.old.retired }
        ensures made { result ≡ Some Turn.Went → (before : VaxState) (interpreted steps : ℕ) → Makes (model.turn (setting_of setting.entry) (course_of thread before interpreted self.old steps))
            (M.set_up memory.old) (M.between memory.old) (course_of thread before interpreted self.old steps) (course_of thread before interpreted self.new (steps + 1)) (M.seen memory.old) (M.seen memory.new) }
        ensures full { result ≡ Some Turn.Ended → (before : VaxState) (interpreted steps : ℕ) → Makes (model.turn (setting_of setting.entry) (course_of thread before interpreted self.old steps))
            (M.set_up memory.old) (M.between memory.old) (course_of thread before interpreted self.old steps) (spent (course_of thread before interpreted self.old steps)) (M.seen memory.old) (M.seen memory.new) }
        ensures ended { result ≡ Some Turn.Ended → self.new ≡ self.old }
        ensures read { KeepsRead (M.between memory.old) (M.seen memory.old) (M.seen memory.new) }
        ensures allowed { CountsPuts (M.set_up memory.old).limit → result ≢ Some Turn.Ended }
    {
        let Some(AlphaInstr::Memory { op, ra, rb, disp }) = prepared.instr_at(self.cpu.pc) else {
            return None;
        };
        let at = (ra, rb, disp);
        match op {
            Op::Ldl => self.ask::<M, (L, Ldl)>(setting, prepared, thread, memory, Op::Ldl, at),
            Op::Stl => self.ask::<M, (L, Stl)>(setting, prepared, thread, memory, Op::Stl, at),
            Op::LdqL => self.ask::<M, (L, LdqL)>(setting, prepared, thread, memory, Op::LdqL, at),
            Op::StqC => self.ask::<M, (L, StqC)>(setting, prepared, thread, memory, Op::StqC, at),
            Op::LdqU => self.ask::<M, (L, LdqU)>(setting, prepared, thread, memory, Op::LdqU, at),
            Op::Ldbu => self.ask::<M, (L, Ldbu)>(setting, prepared, thread, memory, Op::Ldbu, at),
            Op::Stb => self.ask::<M, (L, Stb)>(setting, prepared, thread, memory, Op::Stb, at),
            _ => self.ask::<M, L>(setting, prepared, thread, memory, op, at),
        }
    }

    // The same, where the word is that access: by its registers and displacement.
    #[inline(always)]
    fn ask<M: Memory, L>(
        &mut self,
        setting: Setting<'_>,
        prepared: &Prepared<'_>,
        thread: u8,
        memory: &mut M,
        op: Op,
        place: (u8, u8, i16),
    ) -> Option<Turn>
        requires ra { place.0 < 32 }
        requires rb { place.1 < 32 }
        requires few { self.old.cpu.pc < most_words }
        requires fetched { fetch_of prepared.now.code.words self.old.cpu.pc ≡ Some (Memory op place.0 place.1 place.2) }
        requires code { prepared.now.code ≡ setting.code.now }
        requires pages { (M.set_up memory.old).image.pages ≡ setting.pages.now }
        requires serves { M.serves memory.old thread }
        requires has_step { HasCourseStep (setting_of setting) (M.set_up memory.old) thread self.old }
        ensures set_up { M.set_up memory.new ≡ M.set_up memory.old }
        ensures place { (memory.new ≡ memory.old) ⊎ M.same memory.old memory.new }
        ensures serves { (thread : ℕ) → M.serves memory.old thread ↔ M.serves memory.new thread }
        ensures just { is_some result ≡ asks_inside prepared.now (state_of self.old.cpu) }
        ensures stays { IfNone result ((self.new ≡ self.old) × (memory.new ≡ memory.old)) }
        ensures landed { self.new.landed ≡ self.old.landed }
        ensures retired { self.new.retired ≡ self.old.retired }
        ensures made { result ≡ Some Turn.Went → (before : VaxState) (interpreted steps : ℕ) → Makes (model.turn (setting_of setting.entry) (course_of thread before interpreted self.old steps))
            (M.set_up memory.old) (M.between memory.old) (course_of thread before interpreted self.old steps) (course_of thread before interpreted self.new (steps + 1)) (M.seen memory.old) (M.seen memory.new) }
        ensures full { result ≡ Some Turn.Ended → (before : VaxState) (interpreted steps : ℕ) → Makes (model.turn (setting_of setting.entry) (course_of thread before interpreted self.old steps))
            (M.set_up memory.old) (M.between memory.old) (course_of thread before interpreted self.old steps) (spent (course_of thread before interpreted self.old steps)) (M.seen memory.old) (M.seen memory.new) }
        ensures ended { result ≡ Some Turn.Ended → self.new ≡ self.old }
        ensures read { KeepsRead (M.between memory.old) (M.seen memory.old) (M.seen memory.new) }
        ensures allowed { CountsPuts (M.set_up memory.old).limit → result ≢ Some Turn.Ended }
    {
        let Some(asked) = prepared.asked_by::<(M, L)>(&self.cpu, op, place.0, place.1, place.2)
        else {
            return None;
        };
        let request = request_by(setting, thread, self.retired, asked.access);
        match memory.access(&request) {
            Reply::Made { before, success } => {
                asked.finish(&mut self.cpu, before, success);
                Some(Turn::Went)
            }
            Reply::Full => Some(Turn::Ended),
        }
    }
}

impl Processor {
    ghost use Rattle.tie_switch.specs.Processors.{processor_of, StandsFor};

    /// Makes the access of its word, where that is one inside a block, with the registers in place. Any other turn is left
    /// to be made.
    pub(crate) fn access_inside<M: Memory>(
        &mut self,
        setting: Setting<'_>,
        prepared: &Prepared<'_>,
        memory: &mut M,
    ) -> Option<Turn>
        requires code { prepared.now.code ≡ setting.code.now }
        requires pages { (M.set_up memory.old).image.pages ≡ setting.pages.now }
        requires serves { M.serves memory.old self.old.thread }
        requires steps { self.old.steps < self.old.budget }
        requires has_step { HasStep (setting_of setting) (M.set_up memory.old) self.old }
        ensures set_up { M.set_up memory.new ≡ M.set_up memory.old }
        ensures place { (memory.new ≡ memory.old) ⊎ M.same memory.old memory.new }
        ensures serves { (thread : ℕ) → M.serves memory.old thread ↔ M.serves memory.new thread }
        ensures stays { IfNone result ((self.new ≡ self.old) × (memory.new ≡ memory.old)) }
        ensures budget { self.new.budget ≡ self.old.budget }
        ensures thread { self.new.thread ≡ self.old.thread }
        ensures steps { IfSome result (λ turn. turn ≡ Turn.Went → self.new.steps ≡ self.old.steps + 1) }
        ensures few_steps { self.new.steps ≤ self.new.budget }
        ensures turned { IfSome result (λ turn. (p : model.Processor) → StandsFor setting.entry.pages.now self.old p
            → HasMade (setting_of setting.entry) (M.set_up memory.old) (M.between memory.old) (model.turn (setting_of setting.entry) p) p self.new (M.seen memory.old) (M.seen memory.new)) }
        ensures going { IfSome result (λ turn. has_ended (processor_of self.old).mode ≡ false) }
        ensures ended { IfSome result (λ turn. (turn ≡ Turn.Ended) ↔ (has_ended (processor_of self.new).mode ≡ true)) }
    {
        let Some(mut course) = self.running() else {
            return None;
        };
        let turn = course.access::<M, Stepping>(setting, prepared, self.thread, memory)?;
        match turn {
            Turn::Went => self.settle(&course, 1),
            Turn::Ended => self.spend(),
        }
        Some(turn)
    }
}
