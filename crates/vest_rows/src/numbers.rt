// What a call left, in numbers.
use crate::call::Left;
use anyhow::{Context, Result, bail};
use memory_core::{Entry, Kind};
use row_files::parted;
use row_tally::{number, words};
use std::alloc::Global;
use tie_switch::Processor;

/// Which entries of a history are counted: the loads that lock; or of a thread the stores that failed, those that are neither,
/// or the latter with how many instructions it had retired.
#[derive(Clone, Copy)]
enum Which {
    Locked,
    Failed(u64),
    Counted(u64),
    CountedAt(u64, u64),
}

fn is_of(entry: &Entry, thread: u64) -> bool {
    u64::from(entry.processor) == thread
}

// Whether an entry counts: it is no load that locks and no store that failed.
fn is_counted(entry: &Entry) -> bool {
    entry.success && entry.kind != Kind::LoadLocked
}

fn is_one(entry: &Entry, which: Which) -> bool {
    match which {
        Which::Locked => entry.kind == Kind::LoadLocked,
        Which::Failed(thread) => is_of(entry, thread) && !entry.success,
        Which::Counted(thread) => is_of(entry, thread) && is_counted(entry),
        Which::CountedAt(thread, retired) => {
            is_of(entry, thread) && is_counted(entry) && entry.retired == retired
        }
    }
}

fn lines(out: &[u8]) -> u64 {
    let mut count: u64 = 0;
    for byte in out {
        if *byte == b'\n' {
            count = count.saturating_add(1);
        }
    }
    count
}

// A number of the last entry.
fn of_last(last: &Entry, name: &str) -> Result<u64> {
    match name {
        "retired" => Ok(last.retired),
        "quad" => Ok(u64::from(last.quad)),
        "before" => Ok(last.before),
        "after" => Ok(last.after),
        _ => bail!("an unknown row"),
    }
}

// Whether a number is the wanted one, or greater than one behind >.
fn is_number(found: u64, wanted: &str) -> Result<bool> {
    match wanted.strip_prefix('>') {
        Some(below) => Ok(number(below)? < found),
        None => Ok(number(wanted)? == found),
    }
}

impl Left {
    fn count_of(&self, which: Which) -> u64 {
        let mut count: u64 = 0;
        for entry in self.history() {
            if is_one(entry, which) {
                count = count.saturating_add(1);
            }
        }
        count
    }

    fn processor(&self, thread: u64) -> Result<&Processor> {
        self.kept
            .processors
            .get(thread as usize)
            .context("a thread")
    }

    // A number of the call.
    fn of_call(&self, name: &str) -> Result<u64> {
        match name {
            "kept" => Ok(u64::from(self.is_kept())),
            "ranges" => Ok(self.kept.ranges.len() as u64),
            "unread" => Ok(self.unread),
            "lines" => Ok(lines(self.out())),
            "entries" => Ok(self.history().len() as u64),
            "locked" => Ok(self.count_of(Which::Locked)),
            _ => of_last(self.history().last().context("an entry")?, name),
        }
    }

    // A number of a thread.
    fn of_thread(&self, name: &str, thread: u64) -> Result<u64> {
        match name {
            "counted" => Ok(self.count_of(Which::Counted(thread))),
            "failed" => Ok(self.count_of(Which::Failed(thread))),
            "steps" => Ok(self.processor(thread)?.retired()),
            "interpreted" => Ok(self.processor(thread)?.interpreted_steps()),
            _ => bail!("an unknown row"),
        }
    }

    // The number that words stand for: a name alone, of a thread, or of a thread and how many instructions it had retired.
    fn number_of(&self, words: &[&str]) -> Result<u64> {
        match words {
            [name] => self.of_call(name),
            [name, thread] => self.of_thread(name, number(thread)?),
            [_, thread, retired] => {
                let which = Which::CountedAt(number(thread)?, number(retired)?);
                Ok(self.count_of(which))
            }
            _ => bail!("an unknown row"),
        }
    }

    /// WHAT: NUMBER, or WHAT: >NUMBER: whether it is that, or more than that.
    pub fn agrees(&self, rt: &impl Print, alloc: Global, text: &str) -> Result<bool> {
        let (what, wanted) = parted(text, ": ")?;
        let found = self.number_of(&words(alloc, what)?)?;
        let agrees = is_number(found, wanted)?;
        if !agrees {
            println!(rt; "found {found:X}")?;
        }
        Ok(agrees)
    }
}
