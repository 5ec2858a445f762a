// What a call left, beside what its rows say.
use crate::call::Left;
use anyhow::Result;
use memory_core::Entry;
use row_files::{first_word, lines_of};
use row_tally::{number, words};
use std::alloc::{AllocError, Global};
use vest_cli::KeptMemory;

/// Stands for anything.
const ANY: &str = "*";

/// The status of what is refused.
const REFUSED: u64 = 3;

// The bytes as digits, or - for none.
fn digits_of(alloc: Global, bytes: &[u8]) -> Result<String, AllocError> {
    if bytes.is_empty() {
        return String::from_str(alloc, "-");
    }
    hex::encode_upper(alloc, bytes)
}

// THREAD:KIND:RETIRED.
fn entry_text(alloc: Global, entry: &Entry) -> Result<String, AllocError> {
    format!(in alloc; "{}:{:?}:{}", entry.processor, entry.kind, entry.retired)
}

fn is_entry(alloc: Global, entry: &Entry, wanted: &str) -> Result<bool, AllocError> {
    Ok(entry_text(alloc, entry)?.as_str() == wanted)
}

fn push_numbers(line: &mut String, numbers: &[u64]) -> Result<(), AllocError> {
    for number in numbers {
        write!(line, " {number}")?;
    }
    line.push('\n')
}

// A line of words, with numbers behind them.
fn line_of(alloc: Global, words: &str, numbers: &[u64]) -> Result<String, AllocError> {
    let mut line = String::from_str(alloc, words)?;
    push_numbers(&mut line, numbers)?;
    Ok(line)
}

impl Left {
    /// Whether a run is kept.
    pub fn is_kept(&self) -> bool {
        self.kept.image.is_some()
    }

    /// The entries of its history, or none where it kept none.
    pub fn history(&self) -> &[Entry] {
        match &self.kept.memory {
            Some(KeptMemory::Plain(memory)) => memory.history().unwrap_or(&[]),
            Some(KeptMemory::Live(_)) | None => &[],
        }
    }

    pub fn has(&self, status: u64, out: &[u8], report: &[u8]) -> bool {
        self.status == status && self.out() == out && self.report() == report
    }

    /// Whether another call left the same status, output and report.
    pub fn is_as(&self, other: &Left) -> bool {
        self.has(other.status, other.out(), other.report())
    }

    /// Whether the call was refused with a line of these words and numbers.
    pub fn is_refused(
        &self,
        alloc: Global,
        words: &str,
        numbers: &[u64],
    ) -> Result<bool, AllocError> {
        let line = line_of(alloc, words, numbers)?;
        Ok(self.has(REFUSED, &[], line.as_bytes()) && !self.is_kept())
    }

    fn has_out(&self, alloc: Global, wanted: &str) -> Result<bool, AllocError> {
        Ok(wanted == ANY || digits_of(alloc, self.out())?.as_str() == wanted)
    }

    // Whether the report is that text.
    fn reports(&self, alloc: Global, text: &str) -> Result<bool> {
        Ok(self.report() == lines_of(alloc, text)?.as_slice())
    }

    // Whether the report is one of those that have " or " between.
    fn has_report(&self, alloc: Global, wanted: &str) -> Result<bool> {
        for text in wanted.split(" or ") {
            if self.reports(alloc, text)? {
                return Ok(true);
            }
        }
        Ok(wanted == ANY)
    }

    /// STATUS OUT REPORT: whether the call left that, and each hold ended because its access came.
    fn is(&self, alloc: Global, wanted: &str) -> Result<bool> {
        let (status, rest) = first_word(wanted);
        let (out, report) = first_word(rest);
        Ok(
            self.is_released()
                && self.status == number(status)?
                && self.has_out(alloc, out)?
                && self.has_report(alloc, report)?,
        )
    }

    /// The same, where what the call left otherwise is printed.
    pub fn is_or_prints(&self, rt: &impl Print, alloc: Global, wanted: &str) -> Result<bool> {
        let agrees = self.is(alloc, wanted)?;
        if !agrees {
            self.print(rt, alloc)?;
        }
        Ok(agrees)
    }

    fn print(&self, rt: &impl Print, alloc: Global) -> Result<()> {
        let out = digits_of(alloc, self.out())?;
        let report = String::from_utf8_lossy(alloc, self.report())?;
        println!(rt; "left {} {out} {report}", self.status)?;
        Ok(())
    }

    // Whether the history has entries as long as there are texts for them, and each is its text.
    fn begins_with(&self, alloc: Global, texts: &[&str]) -> Result<bool> {
        for (entry, text) in self.history().iter().zip(texts) {
            if !is_entry(alloc, entry, text)? {
                return Ok(false);
            }
        }
        Ok(self.history().len() == texts.len())
    }

    /// ENTRY ENTRY ..: whether the history has just these.
    pub fn has_history(&self, alloc: Global, wanted: &str) -> Result<bool> {
        self.begins_with(alloc, &words(alloc, wanted)?)
    }
}
