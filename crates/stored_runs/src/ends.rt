//! What a replayed order gave, and how its threads ended.
ghost use Rattle.std.specs.Prelude.{◌≡◌, ◌≤◌, length};
ghost use Rattle.stored_runs.specs.Replay.{end_of, ends_from, Gives};

use crate::refusal::ReplayRefusal;
use run_files::OrderFile;
use std::alloc::Global;
use std::marker::Model;
use vax_driven::{End, ThreadRun};
use vax_form::VaxState;

/// What was put out, and of each thread its end, its state and its count of retired instructions.
#[derive(Debug, Drop)]
pub struct Replayed {
    pub output: Vec<u8>,
    pub ends: Vec<(End, VaxState, u64)>,
}

impl Model for Replayed {
    ghost use Rattle.stored_runs.specs.Replay.{ReplayedValue};

    ghost Value = { ReplayedValue };

    ghost view = { λ r. record { output = r.output.items; ends = r.ends.items } };
}

/// The ends of threads that came to their counts.
pub(crate) fn ends_of(
    alloc: Global,
    runs: &[ThreadRun],
    order: &OrderFile,
) -> Result<Vec<(End, VaxState, u64)>, ReplayRefusal>
    requires few { length runs.now ≤ 255 }
    requires spent { length order.now.spent ≡ length runs.now }
    requires counts { length order.now.counts ≡ length runs.now }
    ensures { Gives (λ ends. ends.items) result (ends_from 0 runs.now order.now.spent order.now.counts) }
{
    let mut ends = Vec::new(alloc);
    for (thread, run) in runs.iter().enumerate() {
        let Some(end) = end_of(order.spent[thread], run) else {
            let thread = thread as u8;
            return Err(ReplayRefusal::WrongEnd { thread });
        };
        ends.push((end, run.state, order.counts[thread]))?;
    }
    Ok(ends)
}

/// The end of a thread, by whether it is stored as spent.
fn end_of(spent: bool, run: &ThreadRun) -> Option<End>
    ensures { result ≡ end_of spent run.now }
{
    match (spent, run.exited) {
        (true, true) => None,
        (true, false) => Some(End::Spent),
        (false, true) => Some(End::Exit(run.state.register(0))),
        (false, false) => run.raised.map(End::Raised),
    }
}
