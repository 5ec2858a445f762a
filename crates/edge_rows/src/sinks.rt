// Bytes that go out.
use anyhow::Result;
use row_tally::Tally;
use std::alloc::{AllocError, Global};
use vt_outside::{MemorySink, Put, Sink};

/// Writes, one after the other: the bytes and the answer.
pub fn check<K: Sink>(
    rt: &impl Print,
    tally: &mut Tally,
    sink: &mut K,
    rows: &[(&[u8], Put)],
) -> Result<()> {
    for (bytes, answer) in rows {
        if !bytes.is_empty() {
            let found = sink.write(bytes);
            tally.check(rt, "write", &found, answer)?;
        }
    }
    Ok(())
}

// A sink with room for three bytes, of which these calls fail.
fn with_room(alloc: Global, fails: &[u64]) -> Result<MemorySink, AllocError> {
    Ok(MemorySink::new(Vec::with_capacity(alloc, 3)?, fails.to_vec(alloc)?))
}

/// The second call fails, and then no room is left.
const FULL: &[(&[u8], Put)] = &[
    (b"a--", Put::Took(3)),
    (b"b", Put::Failed),
    (b"c", Put::Failed),
];

/// The first and the third call fail.
const BETWEEN: &[(&[u8], Put)] = &[
    (b"a", Put::Failed),
    (b"bc", Put::Took(2)),
    (b"d", Put::Failed),
    (b"ef", Put::Took(1)),
];

/// At most two bytes are taken a call, the third call fails, and no room is left.
const SLOW: &[(&[u8], Put)] = &[
    (b"abc", Put::Took(2)),
    (b"c", Put::Took(1)),
    (b"d", Put::Failed),
    (b"d", Put::Failed),
];

fn check_between(rt: &(impl Print + AllocGlobal), tally: &mut Tally) -> Result<()> {
    let mut sink = with_room(rt.alloc(), &[0, 2])?;
    check(rt, tally, &mut sink, BETWEEN)?;
    tally.check(rt, "taken", &sink.bytes(), &b"bce".as_slice())
}

fn slow_sink(alloc: Global) -> Result<MemorySink, AllocError> {
    let room = Vec::with_capacity(alloc, 3)?;
    Ok(MemorySink::slow(room, [2].to_vec(alloc)?, 2))
}

fn check_slow(rt: &(impl Print + AllocGlobal), tally: &mut Tally) -> Result<()> {
    let mut sink = slow_sink(rt.alloc())?;
    check(rt, tally, &mut sink, SLOW)?;
    tally.check(rt, "taken slowly", &sink.bytes(), &b"abc".as_slice())
}

pub fn memory_sinks(rt: &(impl Print + AllocGlobal)) -> Result<Tally> {
    let mut tally = Tally::NONE;
    check(rt, &mut tally, &mut with_room(rt.alloc(), &[1])?, FULL)?;
    check_between(rt, &mut tally)?;
    check_slow(rt, &mut tally)?;
    tally.print(rt, "sinks in memory")?;
    Ok(tally)
}
