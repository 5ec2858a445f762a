// Command lines in which each call of an object of the outside fails in turn.
use crate::call::{Left, Line, call};
use crate::lent::{Fault, Lent, Object};
use crate::trial::Trial;
use anyhow::Result;
use row_files::Files;
use row_tally::number;
use std::alloc::Global;
use std::sync::Wait;
use std::thread::Threads;

/// The status of a read that failed.
const READ_FAULT: u64 = 6;

/// The status of a write that failed.
const WRITE_FAULT: u64 = 7;

/// A command line, its files, and the object whose calls fail.
#[derive(Clone, Copy)]
pub struct Turns<'a> {
    pub files: &'a Files,
    pub object: Object,
    pub line: &'a str,
}

/// The first bytes, or all.
fn first(bytes: &[u8], count: u64) -> &[u8] {
    bytes.get(..count as usize).unwrap_or(bytes)
}

/// How many files a line reads before it writes one: `replay` reads two, and so does `translate` with hints.
fn reads_of(line: &str) -> u64 {
    let two = line.starts_with("replay ") || line.contains("--hints");
    if two { 2 } else { 1 }
}

/// What a failing call of an object leaves of a call that left `whole`, where sinks take one byte a call: what `out` took
/// before, and then nothing of the report; or all of it, and what the report took before; or all of both, where the write of a file
/// failed behind them; or nothing, and why.
fn is_cut(turns: Turns<'_>, number: u64, whole: &Left, left: &Left) -> bool {
    match turns.object {
        Object::Out => left.has(WRITE_FAULT, first(whole.out(), number), &[]),
        Object::Report => left.has(WRITE_FAULT, whole.out(), first(whole.report(), number)),
        Object::Desk if number >= reads_of(turns.line) => {
            left.has(WRITE_FAULT, whole.out(), whole.report())
        }
        Object::Desk | Object::Input => left.has(READ_FAULT, &[], b"read fault\n"),
    }
}

/// Whether a run is kept of it where that is due: a run that was made, and of which a write failed.
fn is_kept(whole: &Left, left: &Left) -> bool {
    left.is_kept() == (whole.is_kept() && left.status == WRITE_FAULT)
}

impl Turns<'_> {
    // What the line leaves where that call fails.
    fn fail<R: Threads + Wait + Sync>(
        self,
        rt: &R,
        alloc: Global,
        trial: &mut Trial,
        lent: &mut Lent,
        number: u64,
    ) -> Result<()> {
        let fault = Fault {
            object: self.object,
            call: number,
        };
        lent.fail_alone(fault)?;
        trial.begin(alloc, self.files)?;
        call(
            rt,
            alloc,
            lent,
            &mut trial.files,
            &mut trial.last,
            Line::of(self.line),
        )
    }

    // Whether it leaves what it has to where that call fails.
    fn is_cut_at<R: Threads + Wait + Sync>(
        self,
        rt: &R,
        alloc: Global,
        trial: &mut Trial,
        lent: &mut Lent,
        number: u64,
    ) -> Result<bool> {
        self.fail(rt, alloc, trial, lent, number)?;
        let (whole, left) = (&trial.first, &trial.last);
        Ok(trial.files == *self.files && is_cut(self, number, whole, left) && is_kept(whole, left))
    }

    // Whether each of so many calls is made and leaves what it has to where it fails, and no call is made behind them.
    fn are_cut<R: Threads + Wait + Sync>(
        self,
        rt: &R,
        alloc: Global,
        trial: &mut Trial,
        lent: &mut Lent,
        count: u64,
    ) -> Result<bool> {
        for number in 0..count {
            if !self.is_cut_at(rt, alloc, trial, lent, number)? {
                return Ok(false);
            }
        }
        self.fail(rt, alloc, trial, lent, count)?;
        Ok(trial.last.is_as(&trial.first))
    }

    // What it leaves where nothing fails.
    fn begin<R: Threads + Wait + Sync>(
        self,
        rt: &R,
        alloc: Global,
        trial: &mut Trial,
        lent: &Lent,
    ) -> Result<()> {
        trial.begin(alloc, self.files)?;
        call(
            rt,
            alloc,
            lent,
            &mut trial.files,
            &mut trial.first,
            Line::of(self.line),
        )
    }

    /// Whether COUNT calls of the object are made, or as many as `out` takes bytes for *, and each leaves what it has to where
    /// it fails, with the input that is lent.
    pub fn agree<R: Threads + Wait + Sync>(
        self,
        rt: &R,
        alloc: Global,
        trial: &mut Trial,
        lent: &mut Lent,
        count: &str,
    ) -> Result<bool> {
        lent.bytewise = true;
        self.begin(rt, alloc, trial, lent)?;
        let count = if count == "*" {
            trial.first.out().len() as u64
        } else {
            number(count)?
        };
        self.are_cut(rt, alloc, trial, lent, count)
    }
}
