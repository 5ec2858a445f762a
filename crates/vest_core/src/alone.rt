// A world of one processor, to its end.
ghost use Rattle.std.specs.Prelude.{◌≡◌, ◌<◌, true, length, map, reverse};
ghost use Rattle.std.specs.List.{AllByRecursion};
ghost use Rattle.block_law.specs.Translations.{Meets};
ghost use Rattle.image_meaning.specs.Meant.{image_meaning};
ghost use Rattle.image_meaning.specs.Permits.{any_permit};
ghost use Rattle.system_model.specs.Legal.{IsLegal};
ghost use Rattle.tie_switch.specs.Processors.{processor_of};
ghost use Rattle.tie_switch.specs.Settings.{image_setting};
ghost use Rattle.tie_switch.specs.Turns.{has_ended};
ghost use Rattle.vest_core.specs.Worlds.{IsLegalWorld, first_has_ended};

use crate::world::World;
use image_file::Image;
use memory_core::MemState;
use prepared_code::Prepared;
use system_model::{Range, Translation};
use tie_switch::Processor;

/// The number of the processor of a world that has one.
const ALONE: u8 = 0;

impl World {
    // Whether its first processor has ended.
    fn first_has_ended(&self) -> bool
        requires { 0 < length self.now.processors }
        ensures { result ≡ first_has_ended self.now.processors }
    {
        self.processors()[usize::from(ALONE)].end().is_some()
    }

    /// Gives the only processor turns until it has ended, by the translation that was made ready. It takes no memory, and no turn
    /// waits for another thread: so it returns.
    pub fn run_alone(
        mut self,
        image: &Image,
        translation: &Translation,
        prepared: &Prepared<'_>,
        ranges: &[Range],
    ) -> (MemState, Vec<Processor>)
        requires alone { length self.processors ≡ 1 }
        requires image { self.memory.set_up.image ≡ image.now }
        requires code { prepared.now.code ≡ translation.now }
        requires pages { prepared.now.pages ≡ image.now.pages }
        requires meets { Meets (image_meaning image.now.pages) (any_permit image.now.pages) translation.now }
        requires legal { IsLegalWorld (image_setting image.now.pages translation.now ranges.now) self }
        ensures set_up { result.0.set_up ≡ self.memory.set_up }
        ensures legal { IsLegal (image_setting image.now.pages translation.now ranges.now) self.memory.set_up self.budget (reverse result.0.history) (map processor_of result.1.items) }
        ensures ended { AllByRecursion (λ p. has_ended p.mode ≡ true) (map processor_of result.1.items) }
    {
        while !self.first_has_ended() {
            self.advance(image, translation, prepared, ranges, ALONE, u64::MAX);
        }
        self.apart()
    }
}
