// A world of one thread whose input is given, and whose output is sent, while it runs.
ghost use Rattle.std.specs.Prelude.{◌≡◌, ◌≤◌, ◌+◌, ◌++◌, ◌↔◌, false, true, length, IfOk};
ghost use Rattle.block_law.specs.Sound.{IsSound};
ghost use Rattle.block_law.specs.Translations.{Meets};
ghost use Rattle.image_file.specs.Whole.{IsWhole};
ghost use Rattle.image_meaning.specs.Meant.{image_meaning};
ghost use Rattle.image_meaning.specs.Permits.{any_permit};
ghost use Rattle.legal_history.specs.Law.{IsRun};
ghost use Rattle.memory_core.specs.Live.{all_sent, given, unsent, wants_input};
ghost use Rattle.system_model.specs.Processors as model;
ghost use Rattle.system_model.specs.Settings.{Setting};
ghost use Rattle.tie_switch.specs.Known.{AreFound};
ghost use Rattle.tie_switch.specs.Live.{AreNone, HasRead, IsSameMemory, is_full, is_spent};
ghost use Rattle.tie_switch.specs.Processors.{HasAdvanced, StandsFor, processor_of};
ghost use Rattle.tie_switch.specs.Settings.{image_setting};
ghost use Rattle.tie_switch.specs.Turns.{has_ended};
ghost use Rattle.vest_core.specs.LiveWorlds.{IsAskedFor, IsExplainedLive, IsLegalLive, IsNewLive, NextAsks, sent_of};
ghost use Rattle.vest_core.specs.Worlds.{IsOf};

use image_file::Image;
use image_meaning::laws::{page_table_has_bytes, vax_meaning_is_sound};
use legal_history::laws::{images_are_runs, legal_has_headline, reached_is_steady};
use memory_core::LiveState;
use prepared_code::Prepared;
use std::alloc::Global;
use std::marker::Model;
use system_model::laws::{beginnings_are_legal, legal_goes_on};
use system_model::{Range, Translation};
use tie_switch::laws::turns_stay_legal;
use tie_switch::{Pause, Processor};
use vax_form::{Instr, WantOfMemory};

/// The number of the only processor.
const ALONE: u8 = 0;

/// A memory whose input is given and whose output is sent while it runs, and its only processor, which may make as many steps as the
/// budget has.
#[derive(Drop)]
pub struct LiveWorld {
    memory: LiveState,
    processor: Processor,
    budget: u64,
}

impl Model for LiveWorld {
    ghost use Rattle.vest_core.specs.LiveWorlds.{LiveWorldValue};
    ghost use Rattle.vest_core.specs.LiveViews.{live_world_of, IsKeptLive};

    ghost Value = { LiveWorldValue };

    ghost view = { live_world_of };

    ghost invariant = { IsKeptLive };
}

impl LiveWorld {
    /// A world before its first turn, of an image of one thread. `budget` is the most steps of the processor, `buffer` the most bytes
    /// of output that are kept, and each `miss`-th store conditional fails, none for that reason where `miss` is 0. All memory that
    /// turns use is taken here.
    pub fn new(
        alloc: Global,
        image: &Image,
        budget: u64,
        buffer: u32,
        miss: u16,
    ) -> Result<LiveWorld, WantOfMemory>
        requires whole { IsWhole image.now }
        requires alone { length image.now.threads ≡ 1 }
        ensures new { IfOk result (λ world. IsNewLive image.now budget buffer miss world) }
        ensures legal { IfOk result (λ world. (setting : Setting) → setting.meaning.pages ≡ image.now.pages → IsLegalLive setting world) }
        // So before the first turn, too, the processor is not stuck, whatever runs and by whatever sound meaning.
        ensures headline { IfOk result (λ world. (setting : Setting) → IsSound setting.meaning → IsExplainedLive setting world) }
        ensures asked { IfOk result (λ world. (setting : Setting) → IsAskedFor setting world) }
    {
        images_are_runs(image, &[]);
        beginnings_are_legal();
        legal_has_headline();
        let start = &image.threads.as_slice()[usize::from(ALONE)];
        let processor = Processor::new(ALONE, start, budget);
        let memory = LiveState::new(alloc, image, buffer, miss)?;
        Ok(LiveWorld {
            memory,
            processor,
            budget,
        })
    }

    /// Gives the processor turns, so many at most: fewer where it has ended, where its next turn asks for a byte of the input and none
    /// is there, or where the buffer of the output is full. Where the input has ended a turn that asks for a byte is made. `known` is
    /// a table of decoded instructions, as `advance_live` of tie_switch takes it. It takes no memory. Tells how many turns it made, and
    /// why it stopped.
    pub fn advance(
        &mut self,
        image: &Image,
        translation: &Translation,
        prepared: &Prepared<'_>,
        ranges: &[Range],
        known: &mut [Option<Instr>],
        input_ended: bool,
        most: u64,
    ) -> (u64, Pause)
        requires known { AreFound image.now.pages known.old }
        requires image { self.old.memory.contents.set_up.image ≡ image.now }
        requires code { prepared.now.code ≡ translation.now }
        requires pages { prepared.now.pages ≡ image.now.pages }
        requires meets { Meets (image_meaning image.now.pages) (any_permit image.now.pages) translation.now }
        requires legal { IsLegalLive (image_setting image.now.pages translation.now ranges.now) self.old }
        ensures known { AreFound image.now.pages known.new }
        ensures most { result.0 ≤ most }
        ensures all { result.1 ≡ Pause.Most → result.0 ≡ most }
        ensures steps { has_ended (processor_of self.new.processor).mode ≡ false → self.new.processor.steps ≡ self.old.processor.steps + result.0 }
        // Nothing was given or sent.
        ensures memory { IsSameMemory self.old.memory self.new.memory }
        ensures sent { sent_of self.new.memory ≡ sent_of self.old.memory }
        ensures budget { self.new.budget ≡ self.old.budget }
        ensures unmade { result.0 ≡ 0 → self.new.memory ≡ self.old.memory }
        ensures legal { IsLegalLive (image_setting image.now.pages translation.now ranges.now) self.new }
        ensures headline { IsExplainedLive (image_setting image.now.pages translation.now ranges.now) self.new }
        // It goes on from whatever processor it stood for.
        ensures turned { (p : model.Processor) → StandsFor image.now.pages self.old.processor p
            → HasAdvanced (image_setting image.now.pages translation.now ranges.now) self.old.memory.contents.set_up AreNone self.old.budget p result.0 self.new.processor self.old.memory.contents.history self.new.memory.contents.history }
        ensures ended { (result.1 ≡ Pause.Ended) ↔ (has_ended (processor_of self.new.processor).mode ≡ true) }
        ensures wants { result.1 ≡ Pause.WantsInput → (input_ended ≡ false) × (wants_input self.new.memory.contents ≡ true) }
        // A byte that is given then is asked for.
        ensures asks { result.1 ≡ Pause.WantsInput → NextAsks (image_setting image.now.pages translation.now ranges.now) self.new }
        ensures asked { IsAskedFor (image_setting image.now.pages translation.now ranges.now) self.old → IsAskedFor (image_setting image.now.pages translation.now ranges.now) self.new }
        ensures read { input_ended ≡ false → HasRead self.old.memory.contents → HasRead self.new.memory.contents }
        ensures full { result.1 ≡ Pause.FullOutput → is_full self.new.memory.contents ≡ true }
        ensures spent { is_spent (processor_of self.new.processor).mode ≡ true → self.new.processor.steps ≡ self.new.budget }
    {
        page_table_has_bytes(&image.pages);
        vax_meaning_is_sound();
        reached_is_steady();
        turns_stay_legal();
        legal_has_headline();
        self.processor.advance_live(
            image,
            translation,
            prepared,
            ranges,
            known,
            &mut self.memory,
            input_ended,
            most,
        )
    }

    /// Gives the byte that the processor asks for.
    pub fn give(&mut self, byte: u8)
        requires { wants_input self.old.memory.contents ≡ true }
        ensures given { self.new ≡ record self.old { memory = record self.old.memory { contents = given byte self.old.memory.contents } } }
        ensures legal { (setting : Setting) → IsLegalLive setting self.old → IsLegalLive setting self.new }
        ensures asked { (setting : Setting) → NextAsks setting self.old → IsAskedFor setting self.new }
    {
        legal_goes_on();
        self.memory.give(byte);
    }

    /// The bytes that were put and not sent, in order.
    pub fn output(&self) -> &[u8]
        ensures { result.now ≡ unsent self.now.memory }
    {
        self.memory.output()
    }

    /// Says that all output was sent, so that the buffer is empty.
    pub fn send(&mut self)
        ensures all { self.new ≡ record self.old { memory = all_sent self.old.memory } }
        ensures sent { sent_of self.new.memory ≡ sent_of self.old.memory ++ unsent self.old.memory }
        ensures legal { (setting : Setting) → IsLegalLive setting self.old → IsLegalLive setting self.new }
        ensures asked { (setting : Setting) → IsAskedFor setting self.old → IsAskedFor setting self.new }
    {
        legal_goes_on();
        self.memory.send();
    }

    pub fn processor(&self) -> &Processor
        ensures value { result.now ≡ self.now.processor }
        ensures own { IsOf 0 self.now.budget result.now }
    {
        &self.processor
    }

    /// The memory and the processor. It takes no memory.
    pub fn apart(self) -> (LiveState, Processor)
        ensures memory { result.0 ≡ self.memory }
        ensures processor { result.1 ≡ self.processor }
        ensures own { IsOf 0 self.budget result.1 }
        ensures run { IsRun self.memory.contents.set_up }
    {
        (self.memory, self.processor)
    }
}
