// The lines that tell how far a processor has come, and where the next is due.
ghost use Rattle.std.specs.Prelude.{◌≡◌, ◌<◌, ◌+◌, ◌-◌, ◌^◌, ◌⊎◌, min, unwrap_or, if◌then◌else◌};
ghost use Rattle.report_text.specs.Offer.{Offers};
ghost use Rattle.tie_switch.specs.Processors.{processor_of};
ghost use Rattle.vest_core.specs.Progress.{is_due, line_if};

use report_text::{Offered, offer_progress};
use tie_switch::Processor;
use vt_outside::Sink;

/// A line is told each time that so many steps more were made.
#[derive(Clone, Copy, Debug)]
pub(crate) struct Progress {
    every: u64,
    // How many steps have to be made before the next line.
    due: u64,
}

impl Progress {
    /// Where none is told, none is due within any budget.
    pub(crate) fn new(every: Option<u64>) -> Progress
        ensures every { result.every ≡ unwrap_or every (2 ^ 64 - 1) }
        ensures due { result.due ≡ result.every }
    {
        let every = every.unwrap_or(u64::MAX);
        Progress { every, due: every }
    }

    /// How many turns may be made at once: behind all of them fewer steps than are due were made, or it is one turn.
    pub(crate) fn turns(&self, steps: u64) -> u64
        ensures some { 0 < result }
        ensures few { (result ≡ 1) ⊎ (steps + result < self.now.due) }
    {
        self.due.saturating_sub(steps).saturating_sub(1).max(1)
    }

    /// Offers the line of the processor, where it is due and the last turn retired an instruction.
    pub(crate) fn tell<E: Sink>(
        &mut self,
        retired: u64,
        processor: &Processor,
        report: &mut E,
    ) -> Offered
        ensures told { Offers result (E.meaning report.old) (E.meaning report.new) (line_if self.old.due retired (processor_of processor.now)) }
        ensures due { self.new.due ≡ (if is_due self.old.due retired (processor_of processor.now) then min (processor.now.steps + self.old.every) (2 ^ 64 - 1) else self.old.due) }
        ensures every { self.new.every ≡ self.old.every }
    {
        let steps = processor.steps();
        if steps < self.due || processor.retired() <= retired {
            return Offered::Written;
        }
        self.due = steps.saturating_add(self.every);
        offer_progress(
            processor.thread(),
            steps,
            processor.retired(),
            processor.shown().pc,
            report,
        )
    }
}
