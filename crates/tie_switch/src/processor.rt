// A thread between its turns.
ghost use Rattle.std.specs.Prelude.{◌≡◌, ◌<◌, suc};
ghost use Rattle.image_file.specs.Start.{start_state};
ghost use Rattle.vax_form.specs.declared.pages.Pages.{Pages};
ghost use Rattle.system_model.specs.Processors.{begun};
ghost use Rattle.tie_switch.specs.declared.processor.Mode.TheVariants.{Runs};

use crate::interpreted::Interpreted;
use alpha_machine::Cpu;
use image_file::Start;
use std::marker::Model;
use vax_driven::End;
use vax_form::{Flags, VaxState};

#[derive(Clone, Copy, Debug)]
pub(crate) enum Mode {
    /// Before the first turn.
    New,
    /// In translated code.
    Runs(Cpu),
    /// At what is interpreted, with the reply to its last reference.
    Interprets(Interpreted, Option<u64>),
    Ended(End),
}

/// A processor, which runs one thread.
#[derive(Debug, Drop)]
pub struct Processor {
    pub(crate) thread: u8,
    pub(crate) mode: Mode,
    // The state at which the latest instruction began, or which an ended thread shows.
    pub(crate) boundary: VaxState,
    // The codes that stand in their registers whatever their rules.
    pub(crate) held: Flags,
    pub(crate) retired: u64,
    pub(crate) steps: u64,
    pub(crate) interpreted: u64,
    pub(crate) budget: u64,
}

impl Model for Processor {
    ghost use Rattle.tie_switch.specs.Processors.{ProcessorValue, processor_value, IsCounted};

    ghost Value = { ProcessorValue };

    ghost view = { processor_value };

    ghost invariant = { IsCounted };
}

impl Mode {
    /// It goes on in translated code. Registers that stand there are written in place.
    #[inline(always)]
    pub(crate) fn run(&mut self, cpu: &Cpu)
        ensures { self.new ≡ Runs cpu.now }
    {
        match self {
            Mode::Runs(place) => *place = *cpu,
            Mode::New | Mode::Interprets(..) | Mode::Ended(_) => *self = Mode::Runs(*cpu),
        }
    }
}

impl Processor {
    ghost use Rattle.tie_switch.specs.Processors.{processor_of, StandsFor, end_of};

    /// A processor before its first turn, which may make so many steps.
    pub fn new(thread: u8, start: &Start, budget: u64) -> Processor
        ensures stands { (pages : Pages) → StandsFor pages result (begun thread (start_state start.now)) }
        ensures budget { result.budget ≡ budget }
    {
        Processor {
            thread,
            mode: Mode::New,
            boundary: start.state(),
            held: Flags::ALL,
            retired: 0,
            steps: 0,
            interpreted: 0,
            budget,
        }
    }

    pub fn thread(&self) -> u8
        ensures { result ≡ self.now.thread }
    {
        self.thread
    }

    pub fn steps(&self) -> u64
        ensures { result ≡ self.now.steps }
    {
        self.steps
    }

    /// How many of the steps were interpreted.
    pub fn interpreted_steps(&self) -> u64
        ensures { result ≡ self.now.interpreted }
    {
        self.interpreted
    }

    /// How many instructions it has retired.
    pub fn retired(&self) -> u64
        ensures { result ≡ self.now.retired }
    {
        self.retired
    }

    /// How it ended, if it has.
    pub fn end(&self) -> Option<End>
        ensures { result ≡ end_of (processor_of self.now).mode }
    {
        match self.mode {
            Mode::Ended(end) => Some(end),
            Mode::New | Mode::Runs(_) | Mode::Interprets(..) => None,
        }
    }

    /// The state at its last boundary, or that of its end.
    pub fn shown(&self) -> VaxState
        ensures { result ≡ self.now.boundary }
    {
        self.boundary
    }
}
