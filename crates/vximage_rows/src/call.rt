// A call of `vximage`, with what it is lent, and what it left.
ghost use Rattle.std.specs.Prelude.{◌≤◌};

use anyhow::Result;
use row_files::{Files, words_of};
use std::alloc::{AllocError, Global};
use vt_outside::{MemoryDesk, MemorySink};
use vximage_cli::vximage;

/// The bytes that a sink has room for.
const ROOM: usize = 1_048_576;

/// The most bytes that a call of a sink takes, where it is not one.
const MOST: usize = 4096;

/// The calls that fail, of the desk, of `out` and of the report, and whether sinks take one byte a call.
#[derive(Drop)]
pub struct Lent {
    pub desk_fails: Vec<u64>,
    pub out_fails: Vec<u64>,
    pub report_fails: Vec<u64>,
    pub bytewise: bool,
}

impl Lent {
    /// Nothing fails.
    pub fn sound(alloc: Global) -> Lent {
        Lent {
            desk_fails: Vec::new(alloc),
            out_fails: Vec::new(alloc),
            report_fails: Vec::new(alloc),
            bytewise: false,
        }
    }

    fn most(&self) -> usize
        ensures { 1 ≤ result }
    {
        if self.bytewise { 1 } else { MOST }
    }

    fn desk(&self, alloc: Global, files: &Files) -> Result<MemoryDesk, AllocError> {
        files.desk(alloc, self.desk_fails.as_slice().to_vec(alloc)?)
    }

    fn sink(&self, alloc: Global, fails: &[u64]) -> Result<MemorySink, AllocError> {
        let room = Vec::with_capacity(alloc, ROOM)?;
        Ok(MemorySink::slow(room, fails.to_vec(alloc)?, self.most()))
    }
}

/// The status, and the sinks with what they took.
#[derive(Drop)]
pub struct Left {
    pub status: u64,
    pub out: MemorySink,
    pub report: MemorySink,
}

impl Left {
    pub fn has(&self, status: u64, out: &[u8], report: &[u8]) -> bool {
        self.status == status && self.out.bytes() == out && self.report.bytes() == report
    }
}

/// Calls `vximage` with these words.
fn call_over(
    alloc: Global,
    lent: &Lent,
    words: &[String],
    desk: &mut MemoryDesk,
) -> Result<Left, AllocError> {
    let mut out = lent.sink(alloc, &lent.out_fails)?;
    let mut report = lent.sink(alloc, &lent.report_fails)?;
    let status = vximage(alloc, words, desk, &mut out, &mut report);
    Ok(Left {
        status: u64::from(status.number()),
        out,
        report,
    })
}

/// Calls `vximage` with the words of a line. The files are then those of the desk.
pub fn call(alloc: Global, lent: &Lent, files: &mut Files, line: &str) -> Result<Left> {
    let words = words_of(alloc, line)?;
    let mut desk = lent.desk(alloc, files)?;
    let left = call_over(alloc, lent, &words, &mut desk)?;
    files.take(alloc, &mut desk, &words)?;
    Ok(left)
}
