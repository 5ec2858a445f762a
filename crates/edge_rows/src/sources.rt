// Bytes that come in.
use anyhow::Result;
use row_tally::Tally;
use std::alloc::{AllocError, Global};
use vt_outside::{Got, MemorySource, Source};

/// Whether a read of at most two bytes gives just these, and what it answers.
pub fn gives<S: Source>(source: &mut S, wanted: &[u8]) -> (bool, Got) {
    let mut buffer = [0; 2];
    let got = source.read(&mut buffer);
    let same = match got {
        Got::Bytes(count) => &buffer[..count] == wanted,
        Got::End | Got::Failed => wanted.is_empty(),
    };
    (same, got)
}

/// Reads, one after the other: the bytes and the answer.
pub fn check<S: Source>(
    rt: &impl Print,
    tally: &mut Tally,
    source: &mut S,
    rows: &[(&[u8], Got)],
) -> Result<()> {
    for (bytes, answer) in rows {
        let found = gives(source, bytes);
        tally.check(rt, "read", &found, &(true, *answer))?;
    }
    Ok(())
}

/// The calls 2 and 4 fail, and the byte of the third comes behind the first failure.
const FAILING: &[(&[u8], Got)] = &[
    (b"a", Got::Bytes(1)),
    (b"b", Got::Bytes(1)),
    (b"", Got::Failed),
    (b"c", Got::Bytes(1)),
    (b"", Got::Failed),
    (b"", Got::End),
];

fn failing_source(alloc: Global) -> Result<MemorySource, AllocError> {
    Ok(MemorySource::new(b"abc".to_vec(alloc)?, [2, 4].to_vec(alloc)?, 1))
}

pub fn memory_source(rt: &(impl Print + AllocGlobal)) -> Result<Tally> {
    let mut tally = Tally::NONE;
    check(rt, &mut tally, &mut failing_source(rt.alloc())?, FAILING)?;
    tally.print(rt, "a source in memory")?;
    Ok(tally)
}
