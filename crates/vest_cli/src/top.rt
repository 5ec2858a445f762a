// The top call.
ghost use Rattle.std.specs.Prelude.{◌≡◌, ◌⊎◌, IfOk, IfErr, None};
ghost use Rattle.command_words.specs.Answers.{command_value};
ghost use Rattle.vest_stops.specs.Decided.{Decision};
ghost use Rattle.vest_cli.specs.Lent.{lent};
ghost use Rattle.vest_runs.specs.Kept.{nothing_kept};
ghost use Rattle.vest_cli.specs.Leaving.{LeavesAll};
ghost use Rattle.vest_cli.specs.Words.{CanBeObeyed, spelled};
ghost use Rattle.vest_cli.specs.Decided.{DecidesCall, DecidesOn, IsOrFault, IsOrWant, NoneFailed};
ghost use Rattle.vest_cli.specs.Vest.{Does, Ends};
ghost use Rattle.vest_cli.specs.Waiting.{CallWaits, HaltsAt, IsHaltDecided, WaitsReady};

use crate::conclude::{conclude, refuse_words};
use crate::generating::generate;
use crate::halt::{Halt, or_halt};
use crate::living::live;
use crate::replaying::replay;
use crate::running::run;
use crate::tasks::target_of;
use crate::waiting::Waiting;
use command_words::{Command, read_words};
use std::alloc::Global;
use std::sync::Wait;
use std::thread::Threads;
use vest_files::{list_file, translate_file};
use vest_runs::Kept;
use vest_stops::{Done, Status};
use vt_outside::{Desk, Gate, Sink, Source};

/// Obeys one command line without waiting for another thread: so it returns. `words` are the words after the program's name. It
/// ends every call but a run of several threads, which it gives back with all that it is to be run on.
pub fn begin<D: Desk, I: Source, K: Sink, E: Sink>(
    alloc: Global,
    words: &[String],
    desk: &mut D,
    input: &mut I,
    out: &mut K,
    report: &mut E,
    kept: &mut Kept,
) -> Result<Status, Waiting>
    ensures meaning { IfOk result (λ status. Ends (spelled words.now) status
        (lent (D.meaning desk.old) (I.meaning input.old) (K.meaning out.old) (E.meaning report.old))
        (lent (D.meaning desk.new) (I.meaning input.new) (K.meaning out.new) (E.meaning report.new))
        kept.new) }
    ensures waits { IfErr result (λ waiting. CallWaits (spelled words.now) waiting
        (lent (D.meaning desk.old) (I.meaning input.old) (K.meaning out.old) (E.meaning report.old))
        (lent (D.meaning desk.new) (I.meaning input.new) (K.meaning out.new) (E.meaning report.new))
        kept.new) }

    // What that says of the status.
    ensures usage { IfOk result (λ status. status ≡ Status.Usage → spelled words.now ≡ None) }
    ensures no_command { IfOk result (λ status. spelled words.now ≡ None → (status ≡ Status.Usage) ⊎ (status ≡ Status.WantOfMemory)) }
    ensures decided { IfOk result (λ status. (decision : Decision) → DecidesCall (spelled words.now) (D.meaning desk.old).files (I.meaning input.old).left decision
        → IsOrFault (spelled words.now) status decision) }
    ensures complete { IfOk result (λ status. (decision : Decision) → DecidesCall (spelled words.now) (D.meaning desk.old).files (I.meaning input.old).left decision
        → NoneFailed (lent (D.meaning desk.old) (I.meaning input.old) (K.meaning out.old) (E.meaning report.old))
        (lent (D.meaning desk.new) (I.meaning input.new) (K.meaning out.new) (E.meaning report.new))
        → IsOrWant (spelled words.now) status decision) }
{
    *kept = Kept::empty(alloc);
    match read_words(alloc, words) {
        Ok(command) => {
            let ended = obey(alloc, command, desk, input, out, report, kept);
            conclude(ended, report)
        }
        Err(fault) => Ok(refuse_words(fault, report)),
    }
}

/// Obeys one command line, as `begin` does, and a run of several threads by these: it then waits for them.
pub fn vest<R: Threads + Wait + Sync, D: Desk, I: Source, K: Sink, E: Sink, G: Gate + Sync>(
    rt: &R,
    alloc: Global,
    words: &[String],
    desk: &mut D,
    input: &mut I,
    out: &mut K,
    report: &mut E,
    gate: &G,
    kept: &mut Kept,
) -> Status
    ensures meaning { Ends (spelled words.now) result
        (lent (D.meaning desk.old) (I.meaning input.old) (K.meaning out.old) (E.meaning report.old))
        (lent (D.meaning desk.new) (I.meaning input.new) (K.meaning out.new) (E.meaning report.new))
        kept.new }

    // What that says of the status.
    ensures usage { result ≡ Status.Usage → spelled words.now ≡ None }
    ensures no_command { spelled words.now ≡ None → (result ≡ Status.Usage) ⊎ (result ≡ Status.WantOfMemory) }
    ensures decided { (decision : Decision) → DecidesCall (spelled words.now) (D.meaning desk.old).files (I.meaning input.old).left decision
        → IsOrFault (spelled words.now) result decision }
    ensures complete { (decision : Decision) → DecidesCall (spelled words.now) (D.meaning desk.old).files (I.meaning input.old).left decision
        → NoneFailed (lent (D.meaning desk.old) (I.meaning input.old) (K.meaning out.old) (E.meaning report.old))
        (lent (D.meaning desk.new) (I.meaning input.new) (K.meaning out.new) (E.meaning report.new))
        → IsOrWant (spelled words.now) result decision }
{
    match begin(alloc, words, desk, input, out, report, kept) {
        Ok(status) => status,
        Err(waiting) => waiting.run(rt, alloc, desk, out, report, gate, kept),
    }
}

// What the command does, or why it halts before it has written anything.
fn obey<D: Desk, I: Source, K: Sink, E: Sink>(
    alloc: Global,
    command: Command<'_>,
    desk: &mut D,
    input: &mut I,
    out: &mut K,
    report: &mut E,
    kept: &mut Kept,
) -> Result<Done, Halt>
    requires nothing { kept.old ≡ nothing_kept }
    requires few { CanBeObeyed (command_value command) }
    ensures does { IfOk result (λ done. Does (command_value command.entry) done
        (lent (D.meaning desk.old) (I.meaning input.old) (K.meaning out.old) (E.meaning report.old))
        (lent (D.meaning desk.new) (I.meaning input.new) (K.meaning out.new) (E.meaning report.new))
        kept.new) }
    ensures why { IfErr result (λ halt. HaltsAt (command_value command.entry) halt
        (D.meaning desk.old) (D.meaning desk.new) (I.meaning input.old) (I.meaning input.new)) }
    ensures ready { IfErr result WaitsReady }
    ensures leaves { IfErr result (λ _. LeavesAll
        (lent (D.meaning desk.old) (I.meaning input.old) (K.meaning out.old) (E.meaning report.old))
        (lent (D.meaning desk.new) (I.meaning input.new) (K.meaning out.new) (E.meaning report.new))
        kept.new) }
    ensures decided { (decision : Decision) → DecidesOn (command_value command.entry) (D.meaning desk.old).files (I.meaning input.old).left decision
        → IsHaltDecided result decision }
{
    match command {
        Command::Run { name, options } => {
            run(alloc, name, &options, desk, input, out, report, kept)
        }
        Command::Live { name, options } => {
            or_halt(live(alloc, name, &options, desk, input, out, report, kept))
        }
        Command::Translate {
            image,
            out: to,
            target,
            hints,
        } => or_halt(translate_file(alloc, image, hints, to, target_of(target), desk)),
        Command::List { name } => or_halt(list_file(alloc, name, desk, out)),
        Command::Generate { number } => generate(alloc, number, desk, out, report, kept),
        Command::Replay { name, file, hints } => {
            or_halt(replay(alloc, name, file, hints, desk, out, report))
        }
    }
}
