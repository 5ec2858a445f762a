// Keeps a run, and what its limits count.
ghost use Rattle.std.specs.Prelude.{◌≡◌, map};
ghost use Rattle.image_meaning.specs.Permits.{permit_of};
ghost use Rattle.image_meaning.specs.declared.target.Target.{Target};
ghost use Rattle.tie_switch.specs.Processors.{processor_of};
ghost use Rattle.tie_switch.specs.Settings.{image_setting};
ghost use Rattle.vest_runs.specs.Keeping.{HasKept, limit_of, live_kept};
ghost use Rattle.vest_runs.specs.Threads.{HasRun};

use crate::kept::{Kept, KeptMemory};
use command_words::{Keeping, Limits};
use image_file::Image;
use memory_core::{Limit, LiveState, MemState};
use std::alloc::Global;
use system_model::{Range, Translation};
use tie_switch::Processor;

/// What the memory of a run counts by these limits.
pub fn limit_of(limits: Limits) -> Limit
    ensures { result ≡ limit_of limits }
{
    match limits.keeping {
        Keeping::History => Limit::Entries(limits.events),
        Keeping::Nothing => Limit::Puts(u64::from(limits.events)),
    }
}

/// Keeps a run of an image with its translation on an input, by these limits, in which threads interpret these ranges: its memory
/// and its processors. It takes no memory.
pub fn keep(
    image: Image,
    translation: Translation,
    input: Vec<u8>,
    limits: Limits,
    ranges: Vec<Range>,
    memory: MemState,
    processors: Vec<Processor>,
    kept: &mut Kept,
)
    requires set_up { memory.set_up ≡ record { image = image; input = input.items; limit = limit_of limits; miss = limits.miss } }
    ensures kept { (target : Target) → HasRun (image_setting image.pages translation ranges.items) (permit_of target image.pages) memory.set_up limits.budget memory.history (map processor_of processors.items)
        → HasKept image target translation input.items limits ranges.items kept.new }
    ensures history { kept.new.history ≡ memory.history }
    ensures processors { kept.new.processors ≡ processors.items }
{
    *kept = Kept {
        image: Some(image),
        input,
        memory: Some(KeptMemory::Plain(memory)),
        processors,
        budget: limits.budget,
        limit: limit_of(limits),
        miss: limits.miss,
        translation: Some(translation),
        ranges,
    };
}

/// Keeps a run that was talked with, of an image with its translation, by at most `budget` steps and this miss number, in which the
/// thread interprets these ranges: its memory, with the input and the limit, and its processor. It takes no memory.
pub fn keep_live(
    alloc: Global,
    image: Image,
    translation: Translation,
    budget: u64,
    miss: u16,
    ranges: Vec<Range>,
    memory: LiveState,
    processors: Vec<Processor>,
    kept: &mut Kept,
)
    ensures { kept.new ≡ live_kept image translation budget miss ranges.items memory.contents processors.items }
{
    *kept = Kept {
        image: Some(image),
        input: Vec::new(alloc),
        memory: Some(KeptMemory::Live(memory)),
        processors,
        budget,
        limit: Limit::Puts(0),
        miss,
        translation: Some(translation),
        ranges,
    };
}
