// Runs that are talked with.
use crate::call::{Left, Line, call};
use crate::lent::Lent;
use crate::replays::run_of;
use crate::trial::Trial;
use crate::unkept::is_plain;
use anyhow::Result;
use row_files::Files;
use std::alloc::Global;
use std::sync::Wait;
use std::thread::Threads;
use tie_switch::Processor;

/// The longest input of a run that reads it before its first step.
const MOST_INPUT: usize = 65_536;

/// Whether processors made the same steps.
fn are_same_steps(processors: &[Processor], others: &[Processor]) -> bool {
    for (processor, other) in processors.iter().zip(others) {
        if processor.retired() != other.retired()
            || processor.interpreted_steps() != other.interpreted_steps()
        {
            return false;
        }
    }
    processors.len() == others.len()
}

/// Whether that was left where a run that left `run` is talked with: the same, or a refusal where the image has not one thread.
fn is_same<R: Print>(rt: &R, alloc: Global, run: &Left, talk: &Left, wanted: &str) -> Result<bool> {
    match &run.kept.image {
        Some(image) if image.threads.len() != 1 => {
            Ok(talk.is_refused(alloc, "refused live 1", &[image.threads.len() as u64])?)
        }
        _ => Ok(
            talk.is_or_prints(rt, alloc, wanted)?
                && are_same_steps(&talk.kept.processors, &run.kept.processors),
        ),
    }
}

/// Where a call is to fail, or the input is longer than a run may read, a talk differs.
fn may_differ(lent: &Lent) -> bool {
    lent.may_fail() || lent.input.len() > MOST_INPUT
}

/// Whether a line, which left `run`, is no run without these options, or one that leaves the same where it is talked with; or the two may
/// differ.
pub fn is_same_live<R: Threads + Wait + Sync + Print>(
    rt: &R,
    alloc: Global,
    trial: &mut Trial,
    lent: &Lent,
    files: &Files,
    line: &str,
    wanted: &str,
    run: &Left,
) -> Result<bool> {
    let rest = match run_of(line) {
        Some(rest) if is_plain(rest) && !may_differ(lent) => rest,
        _ => return Ok(true),
    };
    let line = Line {
        before: "run --live",
        name: rest,
        behind: "",
    };
    trial.begin(alloc, files)?;
    call(rt, alloc, lent, &mut trial.files, &mut trial.last, line)?;
    is_same(rt, alloc, run, &trial.last, wanted)
}
