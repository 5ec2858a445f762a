// Command lines in which each call of a stream fails in turn.
use crate::call::{Left, Lent, call};
use anyhow::{Result, bail};
use row_files::Files;
use std::alloc::Global;

/// The status of a write that failed.
const WRITE_FAULT: u64 = 7;

/// A stream of which a call fails.
#[derive(Clone, Copy)]
pub enum Stream {
    Out,
    Report,
}

pub fn stream_of(name: &str) -> Result<Stream> {
    match name {
        "out" => Ok(Stream::Out),
        "report" => Ok(Stream::Report),
        _ => bail!("an unknown stream"),
    }
}

/// What a call of a line is lent, where sinks take one byte a call and that call of the stream fails.
fn lent_of(alloc: Global, stream: Stream, number: u64) -> Result<Lent> {
    let mut lent = Lent::sound(alloc);
    lent.bytewise = true;
    match stream {
        Stream::Out => lent.out_fails.push(number)?,
        Stream::Report => lent.report_fails.push(number)?,
    }
    Ok(lent)
}

/// The first bytes.
fn first(bytes: &[u8], count: usize) -> &[u8] {
    bytes.get(..count).unwrap_or(bytes)
}

/// Of `out` the status is another, and the report takes nothing; of the report the status is the same.
fn is_cut(stream: Stream, count: usize, whole: &Left, left: &Left) -> bool {
    match stream {
        Stream::Out => left.has(WRITE_FAULT, first(whole.out.bytes(), count), &[]),
        Stream::Report => left.has(
            whole.status,
            whole.out.bytes(),
            first(whole.report.bytes(), count),
        ),
    }
}

fn bytes_of(stream: Stream, whole: &Left) -> usize {
    match stream {
        Stream::Out => whole.out.bytes().len(),
        Stream::Report => whole.report.bytes().len(),
    }
}

/// A line, of which a call of the stream fails, over these files.
#[derive(Clone, Copy)]
pub struct Turns<'a> {
    pub files: &'a Files,
    pub stream: Stream,
    pub line: &'a str,
}

impl Turns<'_> {
    /// Whether the line, where that call of the stream fails, leaves the files, and what the stream took before.
    fn is_cut_at(&self, alloc: Global, count: usize, whole: &Left) -> Result<bool> {
        let lent = lent_of(alloc, self.stream, count as u64)?;
        let mut files = self.files.copy(alloc)?;
        let left = call(alloc, &lent, &mut files, self.line)?;
        Ok(files == *self.files && is_cut(self.stream, count, whole, &left))
    }

    /// The same of each call of the stream in turn.
    pub fn are_cut(&self, alloc: Global) -> Result<bool> {
        let whole = call(
            alloc,
            &Lent::sound(alloc),
            &mut self.files.copy(alloc)?,
            self.line,
        )?;
        for count in 0..bytes_of(self.stream, &whole) {
            if !self.is_cut_at(alloc, count, &whole)? {
                return Ok(false);
            }
        }
        Ok(true)
    }
}
