// Runs that keep no history.
use crate::call::{Line, call};
use crate::lent::Lent;
use crate::replays::run_of;
use crate::trial::Trial;
use anyhow::Result;
use row_files::Files;
use std::alloc::Global;
use std::sync::Wait;
use std::thread::Threads;

/// Whether a run has none of the options with which it leaves something else without a history or where it is talked with, or can't be
/// run so.
pub fn is_plain(options: &str) -> bool {
    !options.contains("--events") && !options.contains("--unkept") && !options.contains("--live")
}

/// Whether the run leaves the same status, output and report where it keeps no history.
fn is_same<R: Threads + Wait + Sync + Print>(
    rt: &R,
    alloc: Global,
    trial: &mut Trial,
    lent: &Lent,
    rest: &str,
    wanted: &str,
) -> Result<bool> {
    let line = Line {
        before: "run --unkept",
        name: rest,
        behind: "",
    };
    call(rt, alloc, lent, &mut trial.files, &mut trial.last, line)?;
    Ok(trial.last.is_or_prints(rt, alloc, wanted)? && trial.last.history().is_empty())
}

/// Whether a line is no run without these options, or one that leaves the same where it keeps no history.
pub fn is_same_unkept<R: Threads + Wait + Sync + Print>(
    rt: &R,
    alloc: Global,
    trial: &mut Trial,
    lent: &Lent,
    files: &Files,
    line: &str,
    wanted: &str,
) -> Result<bool> {
    match run_of(line) {
        Some(rest) if is_plain(rest) => {
            trial.begin(alloc, files)?;
            is_same(rt, alloc, trial, lent, rest, wanted)
        }
        _ => Ok(true),
    }
}
