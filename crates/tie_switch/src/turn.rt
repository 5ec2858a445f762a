// One turn of a processor.
ghost use Rattle.std.specs.Prelude.{◌≡◌, ◌≢◌, ◌≤◌, ◌<◌, ◌+◌, ◌↔◌, ◌⊎◌, ◌&&◌, ℕ, false, true, length};
ghost use Rattle.alpha_machine.specs.Step.{state_of};
ghost use Rattle.alpha_meaning.specs.Pieces.{most_words};
ghost use Rattle.system_model.specs.Processors.{mode_of, alpha_turn, moment_of, placed, stepped};
ghost use Rattle.system_model.specs.Processors as model;
ghost use Rattle.system_model.specs.Steps.{Stuck, next};
ghost use Rattle.tie_switch.specs.Processors.{HasMade, HasStep, HasTurned, IsMode, IsStarted};
ghost use Rattle.tie_switch.specs.Accesses.{Fits, IsFetched};
ghost use Rattle.tie_switch.specs.Known.{AreFound};
ghost use Rattle.tie_switch.specs.Live.{asks_get, at_boundary, next_asks_get};
ghost use Rattle.tie_switch.specs.Seen.{place_behind, setting_of};
ghost use Rattle.tie_switch.specs.Settings.{image_setting};
ghost use Rattle.tie_switch.specs.Turns.{has_ended};

use crate::arrive::mode_at;
use crate::next::finish_access;
use crate::place::{Next, Wanted};
use crate::processor::{Mode, Processor};
use crate::request::awaits;
use crate::setting::Setting;
use alpha_machine::Cpu;
use image_file::Image;
use memory_core::{Memory, Reply};
use prepared_code::Prepared;
use system_model::{Range, Translation};
use vax_form::Instr;

/// Whether a processor has ended.
#[derive(Clone, Copy, Debug, PartialEq, Eq)]
pub enum Turn {
    Went,
    Ended,
}

impl Processor {
    ghost use Rattle.tie_switch.specs.Processors.{in_mode, processor_of, StandsFor};

    // A new processor stands at its first boundary.
    #[inline(never)]
    fn start_new(&mut self, setting: Setting<'_>)
        ensures starts { (mode : model.Mode) → IsMode setting.entry.pages.now self.old.thread self.old.boundary self.old.mode mode
            → IsMode setting.entry.pages.now self.old.thread self.old.boundary self.new.mode (mode_of (setting_of setting.entry) (in_mode self.old mode) mode) }
        ensures started { IsStarted self.new.mode }
        ensures same { (mode : model.Mode) → in_mode self.new mode ≡ in_mode self.old mode }
        ensures thread { self.new.thread ≡ self.old.thread }
        ensures steps { self.new.steps ≡ self.old.steps }
        ensures budget { self.new.budget ≡ self.old.budget }
    {
        if let Mode::New = self.mode {
            self.mode = mode_at(setting, self.thread, &self.boundary);
        }
    }

    // At its first turn it stands at its first boundary.
    #[inline(always)]
    fn start(&mut self, setting: Setting<'_>)
        ensures starts { (mode : model.Mode) → IsMode setting.entry.pages.now self.old.thread self.old.boundary self.old.mode mode
            → IsMode setting.entry.pages.now self.old.thread self.old.boundary self.new.mode (mode_of (setting_of setting.entry) (in_mode self.old mode) mode) }
        ensures started { IsStarted self.new.mode }
        ensures same { (mode : model.Mode) → in_mode self.new mode ≡ in_mode self.old mode }
        ensures thread { self.new.thread ≡ self.old.thread }
        ensures steps { self.new.steps ≡ self.old.steps }
        ensures budget { self.new.budget ≡ self.old.budget }
    {
        if let Mode::New = self.mode {
            self.start_new(setting);
        }
    }

    // Goes where the step leads by the reply to what it wants. Behind an access the registers stay in place.
    fn go_behind(
        &mut self,
        setting: Setting<'_>,
        cpu: Cpu,
        wanted: Wanted,
        before: u64,
        success: bool,
    )
        requires few { length setting.code.now.words ≤ most_words }
        requires fetched { IsFetched setting.code.now.words cpu.pc }
        requires fits { Fits wanted }
        requires steps { self.old.steps < self.old.budget }
        ensures stands { (mode : model.Mode) → StandsFor setting.entry.pages.now self.new (placed (setting_of setting.entry) (stepped (in_mode self.old mode))
            (place_behind (setting_of setting.entry) (moment_of (processor_of self.old)) (state_of cpu) wanted before success)) }
        ensures budget { self.new.budget ≡ self.old.budget }
        ensures thread { self.new.thread ≡ self.old.thread }
        ensures steps { self.new.steps ≡ self.old.steps + 1 }
    {
        if let Wanted::Access(access) = wanted {
            let mut finished = cpu;
            finish_access(setting, &mut finished, access, before, success);
            self.go_on(setting, &finished);
        } else {
            let place = self.place_behind(setting, cpu, wanted, before, success);
            self.go_to(setting, place);
        }
    }

    // Makes one step in Alpha code, with at most one access, or tells that it waits, where a GET does.
    fn alpha_step<M: Memory>(
        &mut self,
        setting: Setting<'_>,
        cpu: Cpu,
        memory: &mut M,
        waits: bool,
    ) -> bool
        requires few { length setting.code.now.words ≤ most_words }
        requires pages { (M.set_up memory.old).image.pages ≡ setting.pages.now }
        requires serves { M.serves memory.old self.old.thread }
        requires steps { self.old.steps < self.old.budget }
        requires goes { next (setting_of setting) (moment_of (processor_of self.old)) (state_of cpu) ≢ Stuck }
        ensures set_up { M.set_up memory.new ≡ M.set_up memory.old }
        ensures place { (memory.new ≡ memory.old) ⊎ M.same memory.old memory.new }
        ensures serves { (thread : ℕ) → M.serves memory.old thread ↔ M.serves memory.new thread }
        ensures budget { self.new.budget ≡ self.old.budget }
        ensures thread { self.new.thread ≡ self.old.thread }
        ensures steps { result ≡ false → has_ended (processor_of self.new).mode ≡ false → self.new.steps ≡ self.old.steps + 1 }
        ensures waits { (mode : model.Mode) → result ≡ (waits && asks_get (alpha_turn (setting_of setting.entry) (in_mode self.old mode) (next (setting_of setting.entry) (moment_of (in_mode self.old mode)) (state_of cpu)))) }
        ensures stays { result ≡ true → memory.new ≡ memory.old }
        ensures still { result ≡ true → self.new ≡ self.old }
        ensures turned { result ≡ false → (mode : model.Mode) → HasMade (setting_of setting.entry) (M.set_up memory.old) (M.between memory.old)
            (alpha_turn (setting_of setting.entry) (in_mode self.old mode) (next (setting_of setting.entry) (moment_of (in_mode self.old mode)) (state_of cpu)))
            (in_mode self.old mode) self.new (M.seen memory.old) (M.seen memory.new) }
    {
        match self.next(setting, cpu) {
            Next::Moves(place) => self.go_to(setting, place),
            Next::Wants(request, wanted) => {
                if awaits(waits, &request) {
                    return true;
                }
                match memory.access(&request) {
                    Reply::Made { before, success } => {
                        self.go_behind(setting, cpu, wanted, before, success);
                    }
                    Reply::Full => self.spend(),
                }
            }
        }
        false
    }

    // Makes the step that it has, or tells that it waits, where a GET does.
    fn make_step<M: Memory>(
        &mut self,
        setting: Setting<'_>,
        known: &mut [Option<Instr>],
        memory: &mut M,
        waits: bool,
    ) -> bool
        requires known { AreFound setting.pages.now known.old }
        requires few { length setting.code.now.words ≤ most_words }
        requires pages { (M.set_up memory.old).image.pages ≡ setting.pages.now }
        requires serves { M.serves memory.old self.old.thread }
        requires steps { self.old.steps < self.old.budget }
        requires going { has_ended (processor_of self.old).mode ≡ false }
        requires has_step { HasStep (setting_of setting) (M.set_up memory.old) self.old }
        ensures known { AreFound setting.entry.pages.now known.new }
        ensures set_up { M.set_up memory.new ≡ M.set_up memory.old }
        ensures place { (memory.new ≡ memory.old) ⊎ M.same memory.old memory.new }
        ensures serves { (thread : ℕ) → M.serves memory.old thread ↔ M.serves memory.new thread }
        ensures budget { self.new.budget ≡ self.old.budget }
        ensures thread { self.new.thread ≡ self.old.thread }
        ensures steps { result ≡ false → has_ended (processor_of self.new).mode ≡ false → self.new.steps ≡ self.old.steps + 1 }
        ensures waits { (p : model.Processor) → StandsFor setting.entry.pages.now self.old p → result ≡ (waits && asks_get (model.turn (setting_of setting.entry) p)) }
        ensures stays { result ≡ true → memory.new ≡ memory.old }
        ensures still { result ≡ true → (p : model.Processor) → StandsFor setting.entry.pages.now self.old p → StandsFor setting.entry.pages.now self.new (at_boundary (setting_of setting.entry) p) }
        ensures turned { result ≡ false → (p : model.Processor) → StandsFor setting.entry.pages.now self.old p
            → HasMade (setting_of setting.entry) (M.set_up memory.old) (M.between memory.old) (model.turn (setting_of setting.entry) p) p self.new (M.seen memory.old) (M.seen memory.new) }
    {
        self.start(setting);
        match self.mode {
            Mode::Runs(cpu) => self.alpha_step(setting, cpu, memory, waits),
            Mode::Interprets(..) => self.tie_step(setting, known, memory, waits),
            Mode::New | Mode::Ended(_) => unreachable!(),
        }
    }

    /// Takes its turn, if it has not ended, or tells that it waits, where a GET does. It then stands at its first boundary, if it was new.
    pub(crate) fn take_or_wait<M: Memory>(
        &mut self,
        setting: Setting<'_>,
        known: &mut [Option<Instr>],
        memory: &mut M,
        waits: bool,
    ) -> bool
        requires known { AreFound setting.pages.now known.old }
        requires few { length setting.code.now.words ≤ most_words }
        requires pages { (M.set_up memory.old).image.pages ≡ setting.pages.now }
        requires serves { M.serves memory.old self.old.thread }
        requires has_step { HasStep (setting_of setting) (M.set_up memory.old) self.old }
        ensures known { AreFound setting.entry.pages.now known.new }
        ensures set_up { M.set_up memory.new ≡ M.set_up memory.old }
        ensures place { (memory.new ≡ memory.old) ⊎ M.same memory.old memory.new }
        ensures serves { (thread : ℕ) → M.serves memory.old thread ↔ M.serves memory.new thread }
        ensures budget { self.new.budget ≡ self.old.budget }
        ensures thread { self.new.thread ≡ self.old.thread }
        ensures steps { result ≡ false → has_ended (processor_of self.new).mode ≡ false → self.new.steps ≡ self.old.steps + 1 }
        ensures waits { (p : model.Processor) → StandsFor setting.entry.pages.now self.old p → result ≡ (waits && next_asks_get (setting_of setting.entry) self.old.budget p) }
        ensures goes { waits ≡ false → result ≡ false }
        ensures stays { result ≡ true → memory.new ≡ memory.old }
        ensures going { result ≡ true → has_ended (processor_of self.old).mode ≡ false }
        ensures still { result ≡ true → (p : model.Processor) → StandsFor setting.entry.pages.now self.old p → StandsFor setting.entry.pages.now self.new (at_boundary (setting_of setting.entry) p) }
        ensures turned { result ≡ false → (p : model.Processor) → StandsFor setting.entry.pages.now self.old p
            → HasTurned (setting_of setting.entry) (M.set_up memory.old) (M.between memory.old) self.old.budget p self.new (M.seen memory.old) (M.seen memory.new) }
    {
        if self.end().is_some() {
            return false;
        }
        if self.steps == self.budget {
            self.spend();
            return false;
        }
        self.make_step(setting, known, memory, waits)
    }

    /// Takes its turn, if it has not ended.
    #[inline(always)]
    pub(crate) fn take_turn<M: Memory>(
        &mut self,
        setting: Setting<'_>,
        known: &mut [Option<Instr>],
        memory: &mut M,
    )
        requires known { AreFound setting.pages.now known.old }
        requires few { length setting.code.now.words ≤ most_words }
        requires pages { (M.set_up memory.old).image.pages ≡ setting.pages.now }
        requires serves { M.serves memory.old self.old.thread }
        requires has_step { HasStep (setting_of setting) (M.set_up memory.old) self.old }
        ensures known { AreFound setting.entry.pages.now known.new }
        ensures set_up { M.set_up memory.new ≡ M.set_up memory.old }
        ensures place { (memory.new ≡ memory.old) ⊎ M.same memory.old memory.new }
        ensures serves { (thread : ℕ) → M.serves memory.old thread ↔ M.serves memory.new thread }
        ensures budget { self.new.budget ≡ self.old.budget }
        ensures thread { self.new.thread ≡ self.old.thread }
        ensures steps { has_ended (processor_of self.new).mode ≡ false → self.new.steps ≡ self.old.steps + 1 }
        ensures turned { (p : model.Processor) → StandsFor setting.entry.pages.now self.old p
            → HasTurned (setting_of setting.entry) (M.set_up memory.old) (M.between memory.old) self.old.budget p self.new (M.seen memory.old) (M.seen memory.new) }
    {
        self.take_or_wait(setting, known, memory, false);
    }

    /// What its last turn was.
    pub(crate) fn turn_made(&self) -> Turn
        ensures few_steps { self.now.steps ≤ self.now.budget }
        ensures ended { (result ≡ Turn.Ended) ↔ (has_ended (processor_of self.now).mode ≡ true) }
    {
        match self.mode {
            Mode::Ended(_) => Turn::Ended,
            Mode::New | Mode::Runs(_) | Mode::Interprets(..) => Turn::Went,
        }
    }

    /// One turn of the processor: one step, in Alpha code or interpreted, with at most one access. One that has ended stays
    /// as it is. It ends as spent where its steps equal its budget, and where it asks for one more than the limit allows. Each
    /// processor of the model for which it stands makes that turn, and it stands for what that becomes.
    pub fn turn<M: Memory>(
        &mut self,
        image: &Image,
        translation: &Translation,
        ranges: &[Range],
        memory: &mut M,
    ) -> Turn
        requires few { length translation.now.words ≤ most_words }
        requires pages { (M.set_up memory.old).image.pages ≡ image.now.pages }
        requires serves { M.serves memory.old self.old.thread }
        requires has_step { HasStep (image_setting image.now.pages translation.now ranges.now) (M.set_up memory.old) self.old }
        ensures set_up { M.set_up memory.new ≡ M.set_up memory.old }
        ensures place { (memory.new ≡ memory.old) ⊎ M.same memory.old memory.new }
        ensures serves { (thread : ℕ) → M.serves memory.old thread ↔ M.serves memory.new thread }
        ensures budget { self.new.budget ≡ self.old.budget }
        ensures thread { self.new.thread ≡ self.old.thread }
        ensures steps { result ≡ Turn.Went → self.new.steps ≡ self.old.steps + 1 }
        ensures few_steps { self.new.steps ≤ self.new.budget }
        ensures turned { (p : model.Processor) → StandsFor image.now.pages self.old p
            → HasTurned (image_setting image.now.pages translation.now ranges.now) (M.set_up memory.old) (M.between memory.old) self.old.budget p self.new (M.seen memory.old) (M.seen memory.new) }
        ensures ended { (result ≡ Turn.Ended) ↔ (has_ended (processor_of self.new).mode ≡ true) }
    {
        let setting = Setting {
            pages: &image.pages,
            code: translation,
            ranges,
        };
        self.take_turn(setting, &mut [], memory);
        self.turn_made()
    }

    /// The same turn, of a translation that was made ready: an access inside a block is made with the registers in place.
    pub fn turn_prepared<M: Memory>(
        &mut self,
        image: &Image,
        translation: &Translation,
        prepared: &Prepared<'_>,
        ranges: &[Range],
        memory: &mut M,
    ) -> Turn
        requires few { length translation.now.words ≤ most_words }
        requires code { prepared.now.code ≡ translation.now }
        requires pages { (M.set_up memory.old).image.pages ≡ image.now.pages }
        requires serves { M.serves memory.old self.old.thread }
        requires has_step { HasStep (image_setting image.now.pages translation.now ranges.now) (M.set_up memory.old) self.old }
        ensures set_up { M.set_up memory.new ≡ M.set_up memory.old }
        ensures place { (memory.new ≡ memory.old) ⊎ M.same memory.old memory.new }
        ensures serves { (thread : ℕ) → M.serves memory.old thread ↔ M.serves memory.new thread }
        ensures budget { self.new.budget ≡ self.old.budget }
        ensures thread { self.new.thread ≡ self.old.thread }
        ensures steps { result ≡ Turn.Went → self.new.steps ≡ self.old.steps + 1 }
        ensures few_steps { self.new.steps ≤ self.new.budget }
        ensures turned { (p : model.Processor) → StandsFor image.now.pages self.old p
            → HasTurned (image_setting image.now.pages translation.now ranges.now) (M.set_up memory.old) (M.between memory.old) self.old.budget p self.new (M.seen memory.old) (M.seen memory.new) }
        ensures ended { (result ≡ Turn.Ended) ↔ (has_ended (processor_of self.new).mode ≡ true) }
    {
        let setting = Setting {
            pages: &image.pages,
            code: translation,
            ranges,
        };
        self.turn_by(setting, prepared, &mut [], memory)
    }

    /// The same turn, by the instructions that are known.
    #[inline(always)]
    pub(crate) fn turn_by<M: Memory>(
        &mut self,
        setting: Setting<'_>,
        prepared: &Prepared<'_>,
        known: &mut [Option<Instr>],
        memory: &mut M,
    ) -> Turn
        requires known { AreFound setting.pages.now known.old }
        requires few { length setting.code.now.words ≤ most_words }
        requires code { prepared.now.code ≡ setting.code.now }
        requires pages { (M.set_up memory.old).image.pages ≡ setting.pages.now }
        requires serves { M.serves memory.old self.old.thread }
        requires has_step { HasStep (setting_of setting) (M.set_up memory.old) self.old }
        ensures known { AreFound setting.entry.pages.now known.new }
        ensures set_up { M.set_up memory.new ≡ M.set_up memory.old }
        ensures place { (memory.new ≡ memory.old) ⊎ M.same memory.old memory.new }
        ensures serves { (thread : ℕ) → M.serves memory.old thread ↔ M.serves memory.new thread }
        ensures budget { self.new.budget ≡ self.old.budget }
        ensures thread { self.new.thread ≡ self.old.thread }
        ensures steps { result ≡ Turn.Went → self.new.steps ≡ self.old.steps + 1 }
        ensures few_steps { self.new.steps ≤ self.new.budget }
        ensures turned { (p : model.Processor) → StandsFor setting.entry.pages.now self.old p
            → HasTurned (setting_of setting.entry) (M.set_up memory.old) (M.between memory.old) self.old.budget p self.new (M.seen memory.old) (M.seen memory.new) }
        ensures ended { (result ≡ Turn.Ended) ↔ (has_ended (processor_of self.new).mode ≡ true) }
    {
        if self.steps < self.budget {
            if let Some(turn) = self.access_inside(setting, prepared, memory) {
                return turn;
            }
        }
        self.take_turn(setting, known, memory);
        self.turn_made()
    }
}
