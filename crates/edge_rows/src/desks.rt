// Files under names.
use anyhow::Result;
use row_tally::Tally;
use std::alloc::{AllocError, Global};
use std::fs::{self, Files};
use vt_outside::{Desk, DeskRead, DeskWrite, FileDesk, MemoryDesk};

/// What a read of a file answers, without its bytes.
#[derive(Clone, Copy, Debug, PartialEq, Eq)]
enum Seen {
    Same,
    Other,
    Absent,
    TooLong,
    Failed,
    WantOfMemory,
}

/// What is asked of a desk.
#[derive(Clone, Copy)]
struct Calls<'a> {
    desk: &'a str,
    /// The name, the bytes, and the answer.
    writes: &'a [(&'a str, &'a [u8], DeskWrite)],
    /// What is read is compared with.
    wanted: &'a [u8],
    /// The name, the limit, and the answer.
    reads: &'a [(&'a str, usize, Seen)],
}

/// Reads and writes are numbered together: the calls 1, 4 and 6 fail.
const IN_MEMORY: Calls<'static> = Calls {
    desk: "a desk in memory",
    writes: &[
        ("a", b"xyz", DeskWrite::Done),
        ("a", b"w", DeskWrite::Failed),
    ],
    wanted: b"xyz",
    reads: &[
        ("a", 3, Seen::Same),
        ("a", 2, Seen::TooLong),
        ("b", 9, Seen::Failed),
        ("c", 9, Seen::Absent),
        ("a", 3, Seen::Failed),
        ("b", 9, Seen::Other),
    ],
};

const FAILING: [u64; 3] = [1, 4, 6];

/// A file that is written is cut first. A folder is no file, and none is made in a folder that isn't there.
const OF_THE_SYSTEM: Calls<'static> = Calls {
    desk: "files of the system",
    writes: &[
        ("empty", b"to be cut", DeskWrite::Done),
        ("empty", b"", DeskWrite::Done),
        ("file", b"longer than the next", DeskWrite::Done),
        ("file", b"hello", DeskWrite::Done),
        (".", b"hello", DeskWrite::Failed),
        ("none/none", b"hello", DeskWrite::Failed),
    ],
    wanted: b"hello",
    reads: &[
        ("file", 6, Seen::Same),
        ("file", 5, Seen::Same),
        ("file", 4, Seen::TooLong),
        ("empty", 0, Seen::Other),
        ("none", 4, Seen::Absent),
        (".", 4, Seen::Failed),
        ("/dev/zero", 4, Seen::TooLong),
    ],
};

fn see<D: Desk>(alloc: Global, desk: &mut D, name: &str, limit: usize, wanted: &[u8]) -> Seen {
    match desk.read(alloc, name, limit) {
        DeskRead::Bytes(bytes) if bytes.as_slice() == wanted => Seen::Same,
        DeskRead::Bytes(_) => Seen::Other,
        DeskRead::Absent => Seen::Absent,
        DeskRead::TooLong => Seen::TooLong,
        DeskRead::Failed => Seen::Failed,
        DeskRead::WantOfMemory => Seen::WantOfMemory,
    }
}

fn check_writes<D: Desk>(
    rt: &impl Print,
    tally: &mut Tally,
    desk: &mut D,
    calls: &Calls<'_>,
) -> Result<()> {
    for (name, bytes, wanted) in calls.writes {
        let found = desk.write(name, bytes);
        tally.check(rt, name, &found, wanted)?;
    }
    Ok(())
}

fn check_reads<D: Desk>(
    rt: &(impl Print + AllocGlobal),
    tally: &mut Tally,
    desk: &mut D,
    calls: &Calls<'_>,
) -> Result<()> {
    for (name, limit, wanted) in calls.reads {
        let found = see(rt.alloc(), desk, name, *limit, calls.wanted);
        tally.check(rt, name, &found, wanted)?;
    }
    Ok(())
}

fn file_of(alloc: Global) -> Result<(String, Vec<u8>), AllocError> {
    Ok((String::from_str(alloc, "b")?, b"y".to_vec(alloc)?))
}

fn one_file(alloc: Global) -> Result<Vec<(String, Vec<u8>)>, AllocError> {
    let mut files = Vec::new(alloc);
    files.push(file_of(alloc)?)?;
    Ok(files)
}

fn check_desk<D: Desk>(
    rt: &(impl Print + AllocGlobal),
    desk: &mut D,
    calls: &Calls<'_>,
) -> Result<Tally> {
    let mut tally = Tally::NONE;
    check_writes(rt, &mut tally, desk, calls)?;
    check_reads(rt, &mut tally, desk, calls)?;
    tally.print(rt, calls.desk)?;
    Ok(tally)
}

fn desk_of(alloc: Global) -> Result<MemoryDesk, AllocError> {
    Ok(MemoryDesk::new(one_file(alloc)?, FAILING.to_vec(alloc)?))
}

pub fn memory_desk(rt: &(impl Print + AllocGlobal)) -> Result<Tally> {
    check_desk(rt, &mut desk_of(rt.alloc())?, &IN_MEMORY)
}

pub fn file_desk<R: Files + Print + AllocGlobal>(rt: &R) -> Result<Tally> {
    let tally = check_desk(rt, &mut FileDesk::new(rt), &OF_THE_SYSTEM)?;
    fs::remove_file(rt, "file")?;
    fs::remove_file(rt, "empty")?;
    Ok(tally)
}
