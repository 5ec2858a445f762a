// The program over the files and the streams of the system.
use anyhow::Result;
use row_files::words_of;
use row_tally::Tally;
use std::fs;
use std::io::{Stderr, Stdin, Stdout};
use std::process::ExitCode;
use std::rt::Files;
use std::sync::Wait;
use std::thread::Threads;
use vest_cli::program;

/// The file of an image, and the words of its run.
const NAME: &str = "first.img";

const WORDS: &str = "run first.img";

/// One thread and a writable page, with MOVL #5,R0; CHMK #2; CHMK #1: the byte 05 is put out.
const IMAGE: &[u8] = b"VXIM\x01\0\x01\0\x02\0\0\0\
\0\x02\0\0\0\x12\0\0\
\0\x02\0\0\0\x02\0\0\x07\0\0\0\0\0\0\0\
\0\x10\0\0\0\x02\0\0\0\0\0\0\x01\0\0\0\
\xD0\x05\x50\xBC\x02\xBC\x01";

/// Calls the program as the system does: its file is read, its byte goes out, and it ends with status 0.
pub fn standard_streams<R: Threads + Wait + Sync + Files + AllocGlobal + Print>(
    rt: &R,
    input: Stdin,
    out: Stdout,
    report: Stderr,
) -> Result<Tally> {
    let mut tally = Tally::NONE;
    fs::write(rt, NAME, IMAGE)?;
    let words = words_of(rt.alloc(), WORDS)?;
    let ended = program(rt, Ok(words), input, out, report);
    fs::remove_file(rt, NAME)?;
    tally.check(rt, WORDS, &ended, &ExitCode::SUCCESS)?;
    tally.print(rt, "the program over the system")?;
    Ok(tally)
}
