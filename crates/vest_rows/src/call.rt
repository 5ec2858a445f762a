// A call of `vest`, with what it is lent and what it leaves.
use crate::gates::Holds;
use crate::lent::{Lent, Object};
use anyhow::Result;
use row_files::Files;
use std::alloc::{AllocError, Global};
use std::sync::Wait;
use std::thread::Threads;
use vest_cli::{Kept, vest};
use vt_outside::{Got, MemoryDesk, MemorySink, MemorySource, Source};

/// The bytes of the input that are looked for behind a call.
const UNREAD: usize = 16;

/// What a call leaves beside the files: its status, what is kept of a run, how many bytes of the input are left, and what it was lent.
#[derive(Drop)]
pub struct Left {
    pub status: u64,
    pub kept: Kept,
    pub unread: u64,
    words: Vec<String>,
    desk: MemoryDesk,
    input: MemorySource,
    out: MemorySink,
    report: MemorySink,
    gate: Holds,
}

/// A command line in parts: what stands before a name, the name, and what stands behind it.
#[derive(Clone, Copy)]
pub struct Line<'a> {
    pub before: &'a str,
    pub name: &'a str,
    pub behind: &'a str,
}

impl<'a> Line<'a> {
    pub fn of(line: &'a str) -> Line<'a> {
        Line {
            before: line,
            name: "",
            behind: "",
        }
    }
}

fn push_words(alloc: Global, words: &mut Vec<String>, text: &str) -> Result<(), AllocError> {
    for word in text.split_whitespace() {
        words.push(String::from_str(alloc, word)?)?;
    }
    Ok(())
}

// How many of up to as many bytes another read gives.
fn unread(input: &mut MemorySource) -> u64 {
    let mut buffer = [0; UNREAD];
    match input.read(&mut buffer) {
        Got::Bytes(count) => count as u64,
        Got::End | Got::Failed => 0,
    }
}

impl Left {
    /// No call was made.
    pub fn nothing(alloc: Global) -> Left {
        Left {
            status: 0,
            kept: Kept::empty(alloc),
            unread: 0,
            words: Vec::new(alloc),
            desk: MemoryDesk::new(Vec::new(alloc), Vec::new(alloc)),
            input: MemorySource::new(Vec::new(alloc), Vec::new(alloc), 1),
            out: MemorySink::new(Vec::new(alloc), Vec::new(alloc)),
            report: MemorySink::new(Vec::new(alloc), Vec::new(alloc)),
            gate: Holds::nothing(alloc),
        }
    }

    /// What `out` took.
    pub fn out(&self) -> &[u8] {
        self.out.bytes()
    }

    /// What the report took.
    pub fn report(&self) -> &[u8] {
        self.report.bytes()
    }

    /// Whether each hold ended because its access came.
    pub fn is_released(&self) -> bool {
        self.gate.are_released()
    }

    fn lend(&mut self, alloc: Global, lent: &Lent, files: &Files) -> Result<(), AllocError> {
        self.desk = files.desk(alloc, lent.fails_of(alloc, Object::Desk)?)?;
        self.input = lent.source(alloc)?;
        self.out = lent.sink(alloc, Object::Out)?;
        self.report = lent.sink(alloc, Object::Report)?;
        self.gate = lent.gate(alloc)?;
        Ok(())
    }

    fn spell(&mut self, alloc: Global, line: Line<'_>) -> Result<(), AllocError> {
        self.words = Vec::new(alloc);
        push_words(alloc, &mut self.words, line.before)?;
        push_words(alloc, &mut self.words, line.name)?;
        push_words(alloc, &mut self.words, line.behind)
    }

    fn obey<R: Threads + Wait + Sync>(&mut self, rt: &R, alloc: Global) {
        let status = vest(
            rt,
            alloc,
            &self.words,
            &mut self.desk,
            &mut self.input,
            &mut self.out,
            &mut self.report,
            &self.gate,
            &mut self.kept,
        );
        self.status = u64::from(status.number());
        self.unread = unread(&mut self.input);
    }
}

/// Calls `vest` with the words of a line. The files are then those of the desk.
pub fn call<R: Threads + Wait + Sync>(
    rt: &R,
    alloc: Global,
    lent: &Lent,
    files: &mut Files,
    left: &mut Left,
    line: Line<'_>,
) -> Result<()> {
    left.lend(alloc, lent, files)?;
    left.spell(alloc, line)?;
    left.obey(rt, alloc);
    files.take(alloc, &mut left.desk, &left.words)
}
