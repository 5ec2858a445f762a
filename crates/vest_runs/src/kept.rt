// What is kept of a call that made a run.

use image_file::Image;
use memory_core::{Limit, LiveState, MemState};
use std::alloc::Global;
use std::marker::Model;
use system_model::{Range, Translation};
use tie_switch::Processor;

/// The memory that a run left.
#[derive(Drop)]
pub enum KeptMemory {
    Plain(MemState),
    /// Of a run that was talked with: it has the input and the limit, which grow while it runs.
    Live(LiveState),
}

/// The image, the input, the memory, with its history, and the ended processors of the last run, the numbers that it was made with: at
/// most `budget` steps of a processor, the limit of what is counted, and the miss number of store conditionals; and what ran: the
/// translation, and the addresses that threads interpreted all the same.
#[derive(Drop)]
pub struct Kept {
    pub image: Option<Image>,
    pub input: Vec<u8>,
    pub memory: Option<KeptMemory>,
    pub processors: Vec<Processor>,
    pub budget: u64,
    pub limit: Limit,
    pub miss: u16,
    pub translation: Option<Translation>,
    pub ranges: Vec<Range>,
}

impl Model for Kept {
    ghost use Rattle.vest_runs.specs.Kept.{KeptValue, history_of, input_in, limit_in};

    ghost Value = { KeptValue };

    ghost view = { λ k. record { image = k.image; input = input_in k.input.items k.memory; history = history_of k.memory; processors = k.processors.items; budget = k.budget; limit = limit_in k.limit k.memory; miss = k.miss; translation = k.translation; ranges = k.ranges.items } };
}

impl Kept {
    ghost use Rattle.std.specs.Prelude.{◌≡◌};
    ghost use Rattle.vest_runs.specs.Kept.{nothing_kept};

    /// Nothing is kept. It takes no memory.
    pub fn empty(alloc: Global) -> Kept
        ensures { result ≡ nothing_kept }
    {
        Kept {
            image: None,
            input: Vec::new(alloc),
            memory: None,
            processors: Vec::new(alloc),
            budget: 0,
            limit: Limit::Entries(0),
            miss: 0,
            translation: None,
            ranges: Vec::new(alloc),
        }
    }
}
