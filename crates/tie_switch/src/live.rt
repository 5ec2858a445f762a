// Turns that stop where input is awaited or the output is full.
ghost use Rattle.std.specs.Prelude.{◌≡◌, ◌≢◌, ◌≤◌, ◌<◌, ◌+◌, ◌↔◌, ◌⊎◌, ◌&&◌, ℕ, not, false, true, length, IfSome, IfNone};
ghost use Rattle.alpha_meaning.specs.Pieces.{most_words};
ghost use Rattle.memory_core.specs.Live.{wants_input};
ghost use Rattle.system_model.specs.Processors as model;
ghost use Rattle.tie_switch.specs.Known.{AreFound};
ghost use Rattle.tie_switch.specs.Live.{AreNone, HasPaused, HasRead, IsSameMemory, is_full, is_new, is_spent, next_asks_get};
ghost use Rattle.tie_switch.specs.Processors.{HasAdvanced, HasStep, HasSteps, HasTurned};
ghost use Rattle.tie_switch.specs.Seen.{setting_of};
ghost use Rattle.tie_switch.specs.Settings.{image_setting};
ghost use Rattle.tie_switch.specs.Turns.{has_ended};

use crate::processor::{Mode, Processor};
use crate::setting::Setting;
use crate::turn::Turn;
use image_file::Image;
use memory_core::{LiveState, Memory};
use prepared_code::Prepared;
use system_model::{Range, Translation};
use vax_form::Instr;

/// Why turns over a live memory stopped.
#[derive(Clone, Copy, Debug, PartialEq, Eq)]
pub enum Pause {
    /// As many were made as were asked for.
    Most,
    /// The processor has ended.
    Ended,
    /// The next turn asks for a byte of the input, and none is there.
    WantsInput,
    /// As many bytes were put as may be.
    FullOutput,
}

// Whether a GET waits: no byte is there, and the input has not ended.
fn must_wait(memory: &LiveState, input_ended: bool) -> bool
    ensures { result ≡ (not input_ended && wants_input memory.now.contents) }
{
    !input_ended && memory.wants_input()
}

impl Mode {
    // Before the first turn.
    fn is_new(&self) -> bool
        ensures { result ≡ is_new self.now }
    {
        match self {
            Mode::New => true,
            Mode::Runs(_) | Mode::Interprets(..) | Mode::Ended(_) => false,
        }
    }
}

impl Processor {
    ghost use Rattle.tie_switch.specs.Processors.{processor_of, StandsFor};

    // Makes its turn, or waits where that asks for a GET: then it stands where it stood.
    fn turn_or_wait<M: Memory>(
        &mut self,
        setting: Setting<'_>,
        known: &mut [Option<Instr>],
        memory: &mut M,
        waits: bool,
    ) -> Option<Turn>
        requires known { AreFound setting.pages.now known.old }
        requires few { length setting.code.now.words ≤ most_words }
        requires pages { (M.set_up memory.old).image.pages ≡ setting.pages.now }
        requires serves { M.serves memory.old self.old.thread }
        requires has_step { HasStep (setting_of setting) (M.set_up memory.old) self.old }
        ensures known { AreFound setting.entry.pages.now known.new }
        ensures set_up { M.set_up memory.new ≡ M.set_up memory.old }
        ensures place { (memory.new ≡ memory.old) ⊎ M.same memory.old memory.new }
        ensures serves { (thread : ℕ) → M.serves memory.old thread ↔ M.serves memory.new thread }
        ensures budget { self.new.budget ≡ self.old.budget }
        ensures thread { self.new.thread ≡ self.old.thread }
        ensures steps { IfSome result (λ turn. turn ≡ Turn.Went → self.new.steps ≡ self.old.steps + 1) }
        ensures few_steps { self.new.steps ≤ self.new.budget }
        ensures ended { IfSome result (λ turn. (turn ≡ Turn.Ended) ↔ (has_ended (processor_of self.new).mode ≡ true)) }
        ensures made { IfSome result (λ turn. (p : model.Processor) → StandsFor setting.entry.pages.now self.old p → (waits && next_asks_get (setting_of setting.entry) self.old.budget p) ≡ false) }
        ensures turned { IfSome result (λ turn. (p : model.Processor) → StandsFor setting.entry.pages.now self.old p
            → HasTurned (setting_of setting.entry) (M.set_up memory.old) (M.between memory.old) self.old.budget p self.new (M.seen memory.old) (M.seen memory.new)) }
        ensures waits { IfNone result ((p : model.Processor) → StandsFor setting.entry.pages.now self.old p → (waits && next_asks_get (setting_of setting.entry) self.old.budget p) ≡ true) }
        ensures stays { IfNone result (memory.new ≡ memory.old) }
        ensures still { IfNone result ((p : model.Processor) → StandsFor setting.entry.pages.now self.old p → StandsFor setting.entry.pages.now self.new p) }
        ensures going { IfNone result (has_ended (processor_of self.new).mode ≡ false) }
    {
        let is_new = self.mode.is_new();
        if self.take_or_wait(setting, known, memory, waits) {
            if is_new {
                self.mode = Mode::New;
            }
            return None;
        }
        Some(self.turn_made())
    }

    // That it stopped so, or that it has ended.
    fn pause_or_end(&self, pause: Pause) -> Pause
        requires going { pause ≢ Pause.Ended }
        ensures ended { (result ≡ Pause.Ended) ↔ (has_ended (processor_of self.now).mode ≡ true) }
        ensures pause { result ≢ Pause.Ended → result ≡ pause }
    {
        match self.mode {
            Mode::Ended(_) => Pause::Ended,
            Mode::New | Mode::Runs(_) | Mode::Interprets(..) => pause,
        }
    }

    /// Makes turns over a live memory, one after the other as `advance` makes them: as many as are asked for, or fewer where the
    /// processor has ended, where the next turn asks for a byte of the input and none is there, or where as many bytes were put as
    /// may be, so that none is refused. Where the input has ended a turn that asks for a byte is made. `known` has instructions that
    /// were decoded before, at the places of their addresses as far as it has such places. Tells how many were made, and why it
    /// stopped.
    pub fn advance_live(
        &mut self,
        image: &Image,
        translation: &Translation,
        prepared: &Prepared<'_>,
        ranges: &[Range],
        known: &mut [Option<Instr>],
        memory: &mut LiveState,
        input_ended: bool,
        most: u64,
    ) -> (u64, Pause)
        requires known { AreFound image.now.pages known.old }
        requires few { length translation.now.words ≤ most_words }
        requires code { prepared.now.code ≡ translation.now }
        requires image { prepared.now.pages ≡ image.now.pages }
        requires pages { memory.old.contents.set_up.image.pages ≡ image.now.pages }
        requires serves { self.old.thread < memory.old.contents.processors }
        requires has_steps { HasSteps (image_setting image.now.pages translation.now ranges.now) memory.old.contents.set_up AreNone most self.old memory.old.contents.history }
        ensures known { AreFound image.now.pages known.new }
        ensures most { result.0 ≤ most }
        ensures all { result.1 ≡ Pause.Most → result.0 ≡ most }
        ensures memory { IsSameMemory memory.old memory.new }
        ensures budget { self.new.budget ≡ self.old.budget }
        ensures thread { self.new.thread ≡ self.old.thread }
        ensures steps { has_ended (processor_of self.new).mode ≡ false → self.new.steps ≡ self.old.steps + result.0 }
        ensures few_steps { self.new.steps ≤ self.new.budget }
        ensures turned { (p : model.Processor) → StandsFor image.now.pages self.old p
            → HasAdvanced (image_setting image.now.pages translation.now ranges.now) memory.old.contents.set_up AreNone self.old.budget p result.0 self.new memory.old.contents.history memory.new.contents.history }
        ensures ended { (result.1 ≡ Pause.Ended) ↔ (has_ended (processor_of self.new).mode ≡ true) }
        ensures wants { result.1 ≡ Pause.WantsInput → (input_ended ≡ false) × (wants_input memory.new.contents ≡ true) }
        ensures asks { result.1 ≡ Pause.WantsInput → (p : model.Processor) → StandsFor image.now.pages self.old p
            → HasPaused (image_setting image.now.pages translation.now ranges.now) memory.old.contents.set_up self.old.budget p result.0 self.new memory.old.contents.history memory.new.contents.history }
        ensures read { input_ended ≡ false → HasRead memory.old.contents → HasRead memory.new.contents }
        ensures full { result.1 ≡ Pause.FullOutput → is_full memory.new.contents ≡ true }
        ensures spent { is_spent (processor_of self.old).mode ≡ false → is_spent (processor_of self.new).mode ≡ true → self.new.steps ≡ self.new.budget }
    {
        let setting = Setting {
            pages: &image.pages,
            code: translation,
            ranges,
        };
        self.advance_waiting(setting, prepared, known, memory, input_ended, most)
    }

    // The same of a setting.
    fn advance_waiting(
        &mut self,
        setting: Setting<'_>,
        prepared: &Prepared<'_>,
        known: &mut [Option<Instr>],
        memory: &mut LiveState,
        input_ended: bool,
        most: u64,
    ) -> (u64, Pause)
        requires known { AreFound setting.pages.now known.old }
        requires few { length setting.code.now.words ≤ most_words }
        requires code { prepared.now.code ≡ setting.code.now }
        requires image { prepared.now.pages ≡ setting.pages.now }
        requires pages { memory.old.contents.set_up.image.pages ≡ setting.pages.now }
        requires serves { self.old.thread < memory.old.contents.processors }
        requires has_steps { HasSteps (setting_of setting) memory.old.contents.set_up AreNone most self.old memory.old.contents.history }
        ensures known { AreFound setting.entry.pages.now known.new }
        ensures most { result.0 ≤ most }
        ensures all { result.1 ≡ Pause.Most → result.0 ≡ most }
        ensures memory { IsSameMemory memory.old memory.new }
        ensures budget { self.new.budget ≡ self.old.budget }
        ensures thread { self.new.thread ≡ self.old.thread }
        ensures steps { has_ended (processor_of self.new).mode ≡ false → self.new.steps ≡ self.old.steps + result.0 }
        ensures few_steps { self.new.steps ≤ self.new.budget }
        ensures turned { (p : model.Processor) → StandsFor setting.entry.pages.now self.old p
            → HasAdvanced (setting_of setting.entry) memory.old.contents.set_up AreNone self.old.budget p result.0 self.new memory.old.contents.history memory.new.contents.history }
        ensures ended { (result.1 ≡ Pause.Ended) ↔ (has_ended (processor_of self.new).mode ≡ true) }
        ensures wants { result.1 ≡ Pause.WantsInput → (input_ended ≡ false) × (wants_input memory.new.contents ≡ true) }
        ensures asks { result.1 ≡ Pause.WantsInput → (p : model.Processor) → StandsFor setting.entry.pages.now self.old p
            → HasPaused (setting_of setting.entry) memory.old.contents.set_up self.old.budget p result.0 self.new memory.old.contents.history memory.new.contents.history }
        ensures read { input_ended ≡ false → HasRead memory.old.contents → HasRead memory.new.contents }
        ensures full { result.1 ≡ Pause.FullOutput → is_full memory.new.contents ≡ true }
        ensures spent { is_spent (processor_of self.old).mode ≡ false → is_spent (processor_of self.new).mode ≡ true → self.new.steps ≡ self.new.budget }
    {
        // It does nothing, and brings that bytes that are put are counted.
        memory.is_full();
        let (mut made, _) = self.over_accesses(setting, prepared, memory, most);
        while made < most {
            if memory.is_full() {
                return (made, self.pause_or_end(Pause::FullOutput));
            }
            let waits = must_wait(memory, input_ended);
            let Some(turn) = self.turn_or_wait(setting, known, memory, waits) else {
                return (made, Pause::WantsInput);
            };
            made += 1;
            match turn {
                Turn::Went => {
                    let (steps, _) = self.over_accesses(setting, prepared, memory, most - made);
                    made += steps;
                }
                Turn::Ended => return (made, Pause::Ended),
            }
        }
        (made, self.pause_or_end(Pause::Most))
    }
}
