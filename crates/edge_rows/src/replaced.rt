// Files of the system that a desk writes over, and names that no file can have.
use anyhow::Result;
use row_tally::Tally;
use std::alloc::{AllocError, Global};
use std::fs::{self, Files, Permissions};
use std::io;
use std::os::unix::fs::{PermissionsExt, symlink};
use vt_outside::{Desk, DeskRead, DeskWrite, FileDesk};

const OLD: &[u8] = b"old";

const NEW: &[u8] = b"longer than the old";

/// The permissions of a file that keeps them.
const MODE: u32 = 0o640;

/// What is read of a file, without its bytes.
#[derive(Clone, Copy, Debug, PartialEq, Eq)]
enum Has {
    Old,
    New,
    Other,
    Nothing,
    NotRead,
}

/// What a write answers, and what the name then has.
type Written = (DeskWrite, Has);

const DONE: Written = (DeskWrite::Done, Has::New);

const WITHOUT: Written = (DeskWrite::Failed, Has::Nothing);

const OVER_OLD: Written = (DeskWrite::Failed, Has::Old);

const NOT_READ: Written = (DeskWrite::Failed, Has::NotRead);

/// A text so often, and what stands behind it.
struct Long {
    text: &'static str,
    times: u32,
    last: &'static str,
}

/// The longest name of a file.
const LONGEST: Long = Long {
    text: "n",
    times: 255,
    last: "",
};

const LONGER: Long = Long {
    text: "n",
    times: 256,
    last: "",
};

/// The longest path to a file beside which there is room for that of a new one.
const ROOM: Long = Long {
    text: "./",
    times: 2_042,
    last: "x",
};

const NO_ROOM: Long = Long {
    text: "./",
    times: 2_043,
    last: "x",
};

/// It is longer than any path.
const TOO_LONG: Long = Long {
    text: "./",
    times: 2_048,
    last: "x",
};

/// What is done to a name, or asked of it, which is a row.
enum Step {
    /// It has the old bytes.
    Put(&'static str),
    /// It has those permissions.
    Restrict(&'static str),
    /// It is a link to the first name.
    Link(&'static str, &'static str),
    Remove(&'static str),
    RemoveLong(Long),
    /// The new bytes are written.
    Write(&'static str, &'static str, Written),
    WriteLong(&'static str, Long, Written),
    /// What it has.
    Has(&'static str, &'static str, Has),
    HasLong(&'static str, Long, Has),
    IsRestricted(&'static str, &'static str),
    IsLink(&'static str, &'static str),
}

/// A file keeps its permissions. A link stays one, and what it leads to is written, also where that is not there yet.
const KEPT: &[Step] = &[
    Step::Put("kept"),
    Step::Restrict("kept"),
    Step::Write("a file", "kept", DONE),
    Step::IsRestricted("its permissions", "kept"),
    Step::Remove("kept"),
    Step::Put("target"),
    Step::Link("target", "link"),
    Step::Write("a link", "link", DONE),
    Step::IsLink("it stays", "link"),
    Step::Has("target", "target", Has::New),
    Step::Remove("link"),
    Step::Remove("target"),
    Step::Link("made", "link"),
    Step::Write("a link", "link", DONE),
    Step::IsLink("it stays", "link"),
    Step::Has("made", "made", Has::New),
    Step::Remove("link"),
    Step::Remove("made"),
];

/// Where a new file has no name left nothing is written, and each part file stays as it is; where one is left all is.
const PARTS: &[Step] = &[
    Step::Put("whole"),
    Step::Put(".vest-part0"),
    Step::Put(".vest-part1"),
    Step::Put(".vest-part2"),
    Step::Put(".vest-part3"),
    Step::Put(".vest-part4"),
    Step::Put(".vest-part5"),
    Step::Put(".vest-part6"),
    Step::Put(".vest-part7"),
    Step::Write("no part is free", "whole", OVER_OLD),
    Step::Write("a part", ".vest-part7", OVER_OLD),
    Step::Remove(".vest-part3"),
    Step::Write("one is free", "whole", DONE),
    Step::Has("it is free again", ".vest-part3", Has::Nothing),
    Step::Write("its own name", ".vest-part3", WITHOUT),
    Step::Has(".vest-part0", ".vest-part0", Has::Old),
    Step::Remove(".vest-part0"),
    Step::Has(".vest-part1", ".vest-part1", Has::Old),
    Step::Remove(".vest-part1"),
    Step::Has(".vest-part2", ".vest-part2", Has::Old),
    Step::Remove(".vest-part2"),
    Step::Has(".vest-part4", ".vest-part4", Has::Old),
    Step::Remove(".vest-part4"),
    Step::Has(".vest-part5", ".vest-part5", Has::Old),
    Step::Remove(".vest-part5"),
    Step::Has(".vest-part6", ".vest-part6", Has::Old),
    Step::Remove(".vest-part6"),
    Step::Has(".vest-part7", ".vest-part7", Has::Old),
    Step::Remove(".vest-part7"),
    Step::Write("a part's name", ".vest-part0", DONE),
    Step::Remove(".vest-part0"),
    Step::Remove("whole"),
];

/// A device is written where it stands. Where no file can be made nothing is.
const OTHERS: &[Step] = &[
    Step::Write("a device", "/dev/null", (DeskWrite::Done, Has::Other)),
    Step::Write("a full one", "/dev/full", NOT_READ),
    Step::Write("a closed folder", "/proc/none", WITHOUT),
    Step::Write("no folder", "none/none", WITHOUT),
    Step::Write("a folder", ".", NOT_READ),
];

/// The longest names: of a file, and of a path beside which there is room for that of a new file. A file is no folder, and a loop of
/// links leads nowhere.
const NAMES: &[Step] = &[
    Step::WriteLong("255 bytes", LONGEST, DONE),
    Step::RemoveLong(LONGEST),
    Step::WriteLong("256 bytes", LONGER, WITHOUT),
    Step::Put("x"),
    Step::WriteLong("no room", NO_ROOM, OVER_OLD),
    Step::WriteLong("room", ROOM, DONE),
    Step::HasLong("too long a path", TOO_LONG, Has::Nothing),
    Step::Write("a file as a folder", "x/y", WITHOUT),
    Step::Remove("x"),
    Step::Link("loop", "loop"),
    Step::Write("a loop", "loop", WITHOUT),
    Step::Write("behind a loop", "loop/y", WITHOUT),
    Step::Remove("loop"),
];

fn what<R: Files>(rt: &R, alloc: Global, name: &str) -> Has {
    match FileDesk::new(rt).read(alloc, name, 4_096) {
        DeskRead::Bytes(bytes) if bytes.as_slice() == OLD => Has::Old,
        DeskRead::Bytes(bytes) if bytes.as_slice() == NEW => Has::New,
        DeskRead::Bytes(_) => Has::Other,
        DeskRead::Absent => Has::Nothing,
        DeskRead::TooLong | DeskRead::Failed | DeskRead::WantOfMemory => Has::NotRead,
    }
}

fn push_long(text: &mut String, long: &Long) -> Result<(), AllocError> {
    for _ in 0..long.times {
        text.push_str(long.text)?;
    }
    text.push_str(long.last)
}

fn spelled(alloc: Global, long: &Long) -> Result<String, AllocError> {
    let mut text = String::new(alloc);
    push_long(&mut text, long)?;
    Ok(text)
}

fn mode_of(rt: &impl Files, name: &str) -> io::Result<u32> {
    Ok(fs::symlink_metadata(rt, name)?.permissions().mode() & 0o777)
}

fn is_link(rt: &impl Files, name: &str) -> io::Result<bool> {
    Ok(fs::symlink_metadata(rt, name)?.is_symlink())
}

fn check_what<R: Files + Print + AllocGlobal>(
    rt: &R,
    tally: &mut Tally,
    row: &str,
    name: &str,
    wanted: Has,
) -> Result<()> {
    tally.check(rt, row, &what(rt, rt.alloc(), name), &wanted)
}

/// The new bytes are written under the name, and both the answer and what the name then has are those that stand here.
fn check_write<R: Files + Print + AllocGlobal>(
    rt: &R,
    tally: &mut Tally,
    row: &str,
    name: &str,
    wanted: Written,
) -> Result<()> {
    let answer = FileDesk::new(rt).write(name, NEW);
    let found = (answer, what(rt, rt.alloc(), name));
    tally.check(rt, row, &found, &wanted)
}

/// Asks what a step asks.
fn ask<R: Files + Print + AllocGlobal>(rt: &R, tally: &mut Tally, step: &Step) -> Result<()> {
    match step {
        Step::Write(row, name, wanted) => check_write(rt, tally, row, name, *wanted),
        Step::WriteLong(row, long, wanted) => {
            check_write(rt, tally, row, spelled(rt.alloc(), long)?.as_str(), *wanted)
        }
        Step::Has(row, name, wanted) => check_what(rt, tally, row, name, *wanted),
        Step::HasLong(row, long, wanted) => {
            check_what(rt, tally, row, spelled(rt.alloc(), long)?.as_str(), *wanted)
        }
        Step::IsRestricted(row, name) => tally.check(rt, row, &mode_of(rt, name)?, &MODE),
        Step::IsLink(row, name) => tally.check(rt, row, &is_link(rt, name)?, &true),
        _ => Ok(()),
    }
}

/// Does what a step does that asks nothing.
fn make<R: Files + AllocGlobal>(rt: &R, step: &Step) -> io::Result<()> {
    match step {
        Step::Put(name) => fs::write(rt, *name, OLD),
        Step::Restrict(name) => fs::set_permissions(rt, *name, Permissions::from_mode(MODE)),
        Step::Link(to, name) => symlink(rt, *to, *name),
        Step::Remove(name) => fs::remove_file(rt, *name),
        Step::RemoveLong(long) => fs::remove_file(rt, spelled(rt.alloc(), long)?.as_str()),
        _ => Ok(()),
    }
}

fn go<R: Files + Print + AllocGlobal>(rt: &R, tally: &mut Tally, steps: &[Step]) -> Result<()> {
    for step in steps {
        make(rt, step)?;
        ask(rt, tally, step)?;
    }
    Ok(())
}

pub fn replaced_files<R: Files + Print + AllocGlobal>(rt: &R) -> Result<Tally> {
    let mut tally = Tally::NONE;
    go(rt, &mut tally, KEPT)?;
    go(rt, &mut tally, PARTS)?;
    go(rt, &mut tally, OTHERS)?;
    go(rt, &mut tally, NAMES)?;
    tally.print(rt, "files that are replaced")?;
    Ok(tally)
}
