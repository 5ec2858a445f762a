// The only thread of an image, to its end.
ghost use Rattle.std.specs.Prelude.{◌≡◌, length, map};
ghost use Rattle.image_file.specs.Whole.{IsWhole};
ghost use Rattle.block_law.specs.Translations.{Meets};
ghost use Rattle.image_meaning.specs.Meant.{image_meaning};
ghost use Rattle.image_meaning.specs.Permits.{any_permit, permit_of};
ghost use Rattle.image_meaning.specs.declared.target.Target.{Target};
ghost use Rattle.tie_switch.specs.Processors.{processor_of};
ghost use Rattle.tie_switch.specs.Settings.{image_setting};
ghost use Rattle.vest_core.specs.Worlds.{IsLegalWorld};
ghost use Rattle.vest_runs.specs.Threads.{HasRun};

use crate::explained::ended_is_run;
use image_file::Image;
use memory_core::MemState;
use prepared_code::Prepared;
use system_model::{Range, Translation};
use tie_switch::Processor;
use vest_core::World;

/// Runs it over a memory of its own. It takes no memory, and waits for no other thread: so it returns.
pub(crate) fn run_alone(
    world: World,
    image: &Image,
    input: &[u8],
    translation: &Translation,
    prepared: &Prepared<'_>,
    ranges: &[Range],
) -> (MemState, Vec<Processor>)
    requires whole { IsWhole image.now }
    requires alone { length world.processors ≡ 1 }
    requires image { world.memory.set_up.image ≡ image.now }
    requires input { world.memory.set_up.input ≡ input.now }
    requires code { prepared.now.code ≡ translation.now }
    requires pages { prepared.now.pages ≡ image.now.pages }
    requires meets { Meets (image_meaning image.now.pages) (any_permit image.now.pages) translation.now }
    requires legal { IsLegalWorld (image_setting image.now.pages translation.now ranges.now) world }
    ensures set_up { result.0.set_up ≡ world.memory.set_up }
    ensures ran { (target : Target) → Meets (image_meaning image.now.pages) (permit_of target image.now.pages) translation.now
        → HasRun (image_setting image.now.pages translation.now ranges.now) (permit_of target image.now.pages) world.memory.set_up world.budget result.0.history (map processor_of result.1.items) }
{
    ended_is_run(image, input, translation, ranges);
    world.run_alone(image, translation, prepared, ranges)
}
