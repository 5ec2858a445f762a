// Runs whose order is stored, and driven again.
use crate::call::{Left, Line, call};
use crate::lent::Lent;
use crate::trial::Trial;
use anyhow::Result;
use row_files::{Files, first_word};
use std::alloc::Global;
use std::sync::Wait;
use std::thread::Threads;

/// What stands before the words of a run, for its order to be stored.
const STORING: &str = "run --order order-of-the-run";

/// What stands behind a name, for that order to be driven again.
const AGAIN: &str = "order-of-the-run";

/// The same, for hints to be stored, too.
const AGAIN_WITH_HINTS: &str = "order-of-the-run --hints hints-of-the-run";

/// The name under which hints go.
const HINTS: &str = "hints-of-the-run";

/// The name of what is translated with them.
const HINTED: &str = "hinted";

/// What stands behind the name of an image, for it to be translated so.
const WITH_HINTS: &str = "hinted --hints hints-of-the-run";

/// A hint file without hints.
const NO_HINTS: &[u8; 12] = b"VXHT\x01\0\0\0\0\0\0\0";

/// The longest history of a run whose hints are looked for, too.
const MOST_HINTED: usize = 100_000;

/// The statuses of a run that came to an end.
fn has_come(left: &Left) -> bool {
    matches!(left.status, 0 | 4 | 5)
}

/// What stands behind `run`, where the line is one of a run that stores no order: its name, and its options.
pub fn run_of(line: &str) -> Option<&str> {
    let (verb, rest) = first_word(line);
    if verb == "run" && !rest.contains("--order") {
        Some(rest)
    } else {
        None
    }
}

/// Whether the order of the first run, of what stands under a name, is driven to the end that it had.
fn is_given<R: Threads + Wait + Sync>(
    rt: &R,
    alloc: Global,
    trial: &mut Trial,
    name: &str,
    behind: &str,
) -> Result<bool> {
    let line = Line {
        before: "replay",
        name,
        behind,
    };
    trial.call(rt, alloc, line)?;
    Ok(trial.last.is_as(&trial.first) && !trial.last.is_kept())
}

/// Whether the image of a name, translated with the hints, leaves none; or it is no image.
fn leaves_none<R: Threads + Wait + Sync>(
    rt: &R,
    alloc: Global,
    trial: &mut Trial,
    name: &str,
) -> Result<bool> {
    let line = Line {
        before: "translate",
        name,
        behind: WITH_HINTS,
    };
    trial.call(rt, alloc, line)?;
    if trial.last.status != 0 {
        return Ok(true);
    }
    Ok(
        is_given(rt, alloc, trial, HINTED, AGAIN_WITH_HINTS)?
            && trial.files.get(HINTS)? == NO_HINTS.as_slice(),
    )
}

/// Whether the first run, which came to its end, is what `replay` gives; and so with hints, where these are asked for, which leave
/// none where an image is translated with them.
fn is_given_again<R: Threads + Wait + Sync>(
    rt: &R,
    alloc: Global,
    trial: &mut Trial,
    name: &str,
    hints: bool,
) -> Result<bool> {
    let hints = hints && trial.first.history().len() <= MOST_HINTED;
    Ok(
        is_given(rt, alloc, trial, name, AGAIN)?
            && (!hints
                || is_given(rt, alloc, trial, name, AGAIN_WITH_HINTS)?
                    && leaves_none(rt, alloc, trial, name)?),
    )
}

/// Whether a run, with its order stored, is given again where it came to its end.
fn is_run_again<R: Threads + Wait + Sync>(
    rt: &R,
    alloc: Global,
    trial: &mut Trial,
    lent: &Lent,
    rest: &str,
    hints: bool,
) -> Result<bool> {
    let line = Line {
        before: STORING,
        name: rest,
        behind: "",
    };
    call(rt, alloc, lent, &mut trial.files, &mut trial.first, line)?;
    let (name, _) = first_word(rest);
    Ok(!has_come(&trial.first) || is_given_again(rt, alloc, trial, name, hints)?)
}

/// Whether a line is no run, or one that `replay` gives again where it comes to its end and no call is to fail; and so with hints, where
/// these are asked for.
pub fn is_replayed<R: Threads + Wait + Sync>(
    rt: &R,
    alloc: Global,
    trial: &mut Trial,
    lent: &Lent,
    files: &Files,
    line: &str,
    hints: bool,
) -> Result<bool> {
    match run_of(line) {
        Some(rest) if !lent.may_fail() => {
            trial.begin(alloc, files)?;
            is_run_again(rt, alloc, trial, lent, rest, hints)
        }
        _ => Ok(true),
    }
}
