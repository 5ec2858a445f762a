// The command `run`.
ghost use Rattle.std.specs.Prelude.{◌≡◌, IfOk, IfErr};
ghost use Rattle.command_words.specs.Answers.{options_value};
ghost use Rattle.vest_stops.specs.Decided.{Decision};
ghost use Rattle.vest_runs.specs.Kept.{nothing_kept};
ghost use Rattle.vest_cli.specs.Lent.{lent};
ghost use Rattle.vest_cli.specs.Leaving.{LeavesAll};
ghost use Rattle.vest_cli.specs.Run.{DecidesRun, Runs};
ghost use Rattle.vest_cli.specs.Waiting.{HaltsRun, IsHaltDecided, WaitsReady};
ghost use Rattle.vest_cli.specs.Words.{AreBounded};

use crate::halt::Halt;
use crate::tasks::waiting_of;
use crate::waiting::run_or_wait;
use command_words::RunOptions;
use std::alloc::Global;
use vest_runs::Kept;
use vest_stops::Done;
use vt_outside::{Desk, Sink, Source};

/// Runs the image of a file on all the input, at most 65,536 bytes, by the options: within their limits; threads interpret their
/// ranges of addresses; a VAX image is translated for their target; the order of the run goes into their file behind output and
/// report, where these went out.
/// An image of several threads waits for them. It stops at the file, at its translation, at the input, or for want of memory: then the
/// sinks are as they were, and nothing is kept. From the first step on it takes no memory, and only a fault of a sink or of
/// that file is left, with which the run is kept all the same.
pub(crate) fn run<D: Desk, I: Source, K: Sink, E: Sink>(
    alloc: Global,
    name: &str,
    options: &RunOptions<'_>,
    desk: &mut D,
    input: &mut I,
    out: &mut K,
    report: &mut E,
    kept: &mut Kept,
) -> Result<Done, Halt>
    requires nothing { kept.old ≡ nothing_kept }
    requires few { AreBounded (options_value options.now) }
    ensures runs { IfOk result (λ done. Runs done name.now (options_value options.now)
        (lent (D.meaning desk.old) (I.meaning input.old) (K.meaning out.old) (E.meaning report.old))
        (lent (D.meaning desk.new) (I.meaning input.new) (K.meaning out.new) (E.meaning report.new))
        kept.new) }
    ensures why { IfErr result (λ halt. HaltsRun halt name.now (options_value options.now)
        (D.meaning desk.old) (D.meaning desk.new) (I.meaning input.old) (I.meaning input.new)) }
    ensures ready { IfErr result WaitsReady }
    ensures leaves { IfErr result (λ _. LeavesAll
        (lent (D.meaning desk.old) (I.meaning input.old) (K.meaning out.old) (E.meaning report.old))
        (lent (D.meaning desk.new) (I.meaning input.new) (K.meaning out.new) (E.meaning report.new))
        kept.new) }
    ensures decided { (decision : Decision) → DecidesRun (D.meaning desk.old).files name.now (I.meaning input.old).left decision
        → IsHaltDecided result decision }
{
    let waiting = waiting_of(alloc, name, options, desk, input)?;
    run_or_wait(alloc, waiting, desk, out, report, kept)
}
