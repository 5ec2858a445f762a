//! A memory of one owner and the processors of all threads, turn by turn in any order.
ghost use Rattle.std.specs.Prelude.{◌≡◌, ◌<◌, ◌≤◌, ℕ, length, slice_get, IfOk, IfErr, Some};
ghost use Rattle.std.specs.List.{AllZip};
ghost use Rattle.block_law.specs.Sound.{IsSound};
ghost use Rattle.block_law.specs.Translations.{Meets};
ghost use Rattle.image_file.specs.Whole.{IsWhole};
ghost use Rattle.image_meaning.specs.Meant.{image_meaning};
ghost use Rattle.image_meaning.specs.Permits.{any_permit};
ghost use Rattle.memory_core.specs.Contents.{fresh};
ghost use Rattle.system_model.specs.Laws.{begun_from};
ghost use Rattle.system_model.specs.Settings.{Setting};
ghost use Rattle.tie_switch.specs.Processors.{ProcessorValue, StandsFor};
ghost use Rattle.tie_switch.specs.Settings.{image_setting};
ghost use Rattle.vax_form.specs.declared.pages.Pages.{Pages};
ghost use Rattle.vest_core.specs.Worlds.{IsAdvanced, IsExplained, IsLegalWorld, IsNew, IsOf, IsPicked};

use image_file::{Image, Start};
use image_meaning::laws::{page_table_has_bytes, vax_meaning_is_sound};
use legal_history::laws::{images_are_runs, legal_has_headline, reached_is_steady};
use memory_core::{Limit, MemState};
use prepared_code::Prepared;
use std::alloc::{AllocError, Global};
use std::marker::Model;
use system_model::laws::beginnings_are_legal;
use system_model::{Range, Translation};
use tie_switch::laws::turns_stay_legal;
use tie_switch::{Processor, Turn};
use vax_form::WantOfMemory;

/// A memory and its processors, one for each thread of its image. Each may make as many steps as the budget has.
#[derive(Drop)]
pub struct World {
    memory: MemState,
    processors: Vec<Processor>,
    budget: u64,
}

impl Model for World {
    ghost use Rattle.vest_core.specs.Worlds.{WorldValue, IsManned};
    ghost use Rattle.vest_core.specs.Views.{world_of, IsKept};

    ghost Value = { WorldValue };

    ghost view = { world_of };

    ghost invariant = { IsKept };
}

// Processors before their first turn, one for each thread.
fn begun(alloc: Global, threads: &[Start], budget: u64) -> Result<Vec<Processor>, AllocError>
    requires few { length threads.now < 256 }
    ensures stand { IfOk result (λ ps. (pages : Pages) → AllZip (StandsFor pages) ps.items (begun_from 0 threads.now)) }
    ensures own { IfOk result (λ ps. (thread : ℕ) (k : ProcessorValue) → slice_get ps.items thread ≡ Some k → IsOf thread budget k) }
{
    let mut processors = Vec::new(alloc);
    for (thread, start) in threads.iter().enumerate() {
        processors.push(Processor::new(thread as u8, start, budget))?;
    }
    Ok(processors)
}

impl World {
    /// A world before its first turn. `budget` is the most steps of a processor, and each `miss`-th store conditional of a
    /// processor fails, none for that reason where `miss` is 0. All memory that turns use is taken here.
    pub fn new(
        alloc: Global,
        image: &Image,
        input: Vec<u8>,
        budget: u64,
        limit: Limit,
        miss: u16,
    ) -> Result<World, WantOfMemory>
        requires { IsWhole image.now }
        ensures new { IfOk result (λ world. IsNew image.now input.items budget limit miss world) }
        ensures count { IfOk result (λ world. length world.processors ≡ length image.now.threads) }
        ensures legal { IfOk result (λ world. (setting : Setting) → setting.meaning.pages ≡ image.now.pages → IsLegalWorld setting world) }
        // So before the first turn, too, no processor is stuck, whatever runs and by whatever sound meaning.
        ensures headline { IfOk result (λ world. (setting : Setting) → setting.meaning.pages ≡ image.now.pages → IsSound setting.meaning → IsExplained setting world) }
    {
        images_are_runs(image, &input);
        beginnings_are_legal();
        legal_has_headline();
        let threads = image.threads.as_slice();
        let processors = begun(alloc, threads, budget)?;
        let memory = MemState::new(alloc, image, input, threads.len() as u8, limit, miss)?;
        Ok(World {
            memory,
            processors,
            budget,
        })
    }

    /// Gives that processor one turn. It takes no memory.
    pub fn pick(
        &mut self,
        image: &Image,
        translation: &Translation,
        ranges: &[Range],
        processor: u8,
    ) -> Turn
        requires there { processor < length self.old.processors }
        requires image { self.old.memory.set_up.image ≡ image.now }
        requires meets { Meets (image_meaning image.now.pages) (any_permit image.now.pages) translation.now }
        requires legal { IsLegalWorld (image_setting image.now.pages translation.now ranges.now) self.old }
        ensures set_up { self.new.memory.set_up ≡ self.old.memory.set_up }
        ensures budget { self.new.budget ≡ self.old.budget }
        ensures count { length self.new.processors ≡ length self.old.processors }
        ensures picked { IsPicked (image_setting image.now.pages translation.now ranges.now) processor result self.old self.new }
        ensures legal { IsLegalWorld (image_setting image.now.pages translation.now ranges.now) self.new }
        ensures headline { IsExplained (image_setting image.now.pages translation.now ranges.now) self.new }
    {
        page_table_has_bytes(&image.pages);
        vax_meaning_is_sound();
        reached_is_steady();
        turns_stay_legal();
        legal_has_headline();
        let picked = &mut self.processors[usize::from(processor)];
        picked.turn(image, translation, ranges, &mut self.memory)
    }

    /// Gives that processor so many turns, one after the other. Fewer are made only where it has ended. Tells how many. It
    /// takes no memory.
    pub fn advance(
        &mut self,
        image: &Image,
        translation: &Translation,
        prepared: &Prepared<'_>,
        ranges: &[Range],
        processor: u8,
        most: u64,
    ) -> u64
        requires there { processor < length self.old.processors }
        requires image { self.old.memory.set_up.image ≡ image.now }
        requires code { prepared.now.code ≡ translation.now }
        requires pages { prepared.now.pages ≡ image.now.pages }
        requires meets { Meets (image_meaning image.now.pages) (any_permit image.now.pages) translation.now }
        requires legal { IsLegalWorld (image_setting image.now.pages translation.now ranges.now) self.old }
        ensures some { 0 < most → 0 < result }
        ensures most { result ≤ most }
        ensures set_up { self.new.memory.set_up ≡ self.old.memory.set_up }
        ensures budget { self.new.budget ≡ self.old.budget }
        ensures count { length self.new.processors ≡ length self.old.processors }
        ensures advanced { IsAdvanced (image_setting image.now.pages translation.now ranges.now) processor most result self.old self.new }
        ensures legal { IsLegalWorld (image_setting image.now.pages translation.now ranges.now) self.new }
        ensures headline { IsExplained (image_setting image.now.pages translation.now ranges.now) self.new }
    {
        page_table_has_bytes(&image.pages);
        vax_meaning_is_sound();
        reached_is_steady();
        turns_stay_legal();
        legal_has_headline();
        let advanced = &mut self.processors[usize::from(processor)];
        advanced.advance(image, translation, prepared, ranges, &mut self.memory, most)
    }

    pub fn memory(&self) -> &MemState
        ensures { result.now ≡ self.now.memory }
    {
        &self.memory
    }

    /// The processors, in the order of their threads.
    pub fn processors(&self) -> &[Processor]
        ensures value { result.now ≡ self.now.processors }
        ensures own { (thread : ℕ) (k : ProcessorValue) → slice_get result.now thread ≡ Some k → IsOf thread self.now.budget k }
    {
        self.processors.as_slice()
    }

    /// The memory and the processors, in the order of their threads. It takes no memory.
    pub fn apart(self) -> (MemState, Vec<Processor>)
        ensures memory { result.0 ≡ self.memory }
        ensures processors { result.1.items ≡ self.processors }
        ensures own { (thread : ℕ) (k : ProcessorValue) → slice_get result.1.items thread ≡ Some k → IsOf thread self.budget k }
    {
        (self.memory, self.processors)
    }
}
