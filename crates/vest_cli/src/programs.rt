// The program: what `main` does with the objects that it makes.
ghost use Rattle.vest_cli.specs.Lent.{lent};
ghost use Rattle.vest_cli.specs.Program.{Answers, AnswersSomehow, AreBehindName, IsCalled, no_files, spelled_in, untaken, unread};

use crate::top::vest;
use exact_lists::list_of;
use std::alloc::Global;
use std::env::Args;
use std::io::{self, ErrorKind, Read, Write};
use std::process::ExitCode;
use std::rt::Files;
use std::sync::Wait;
use std::thread::Threads;
use vest_ends::refuse;
use vest_runs::Kept;
use vest_stops::{Status, Stop};
use vt_outside::{Desk, FileDesk, Gate, InSource, OpenGate, OutSink, Sink, Source};

// Obeys the words that were read. A word that is no text spells no command.
fn obey_read<R: Threads + Wait + Sync, D: Desk, I: Source, K: Sink, E: Sink, G: Gate + Sync>(
    rt: &R,
    alloc: Global,
    words: &io::Result<Vec<String>>,
    desk: &mut D,
    input: &mut I,
    out: &mut K,
    report: &mut E,
    gate: &G,
    kept: &mut Kept,
) -> Status
    ensures { IsCalled (spelled_in words.now) result
        (lent (D.meaning desk.old) (I.meaning input.old) (K.meaning out.old) (E.meaning report.old))
        (lent (D.meaning desk.new) (I.meaning input.new) (K.meaning out.new) (E.meaning report.new))
        kept.new }
{
    match words {
        Ok(words) => vest(rt, alloc, &words, desk, input, out, report, gate, kept),
        Err(error) if error.kind() == ErrorKind::OutOfMemory => {
            *kept = Kept::empty(alloc);
            refuse(&Stop::WantOfMemory, report)
        }
        Err(_) => vest(rt, alloc, &[], desk, input, out, report, gate, kept),
    }
}

/// Calls `vest` with the words that were read and with these objects; the exit code is the number of its status.
pub fn answer<R: Threads + Wait + Sync, D: Desk, I: Source, K: Sink, E: Sink, G: Gate + Sync>(
    rt: &R,
    alloc: Global,
    words: io::Result<Vec<String>>,
    desk: &mut D,
    input: &mut I,
    out: &mut K,
    report: &mut E,
    gate: &G,
    kept: &mut Kept,
) -> ExitCode
    ensures { Answers (spelled_in words) result
        (lent (D.meaning desk.old) (I.meaning input.old) (K.meaning out.old) (E.meaning report.old))
        (lent (D.meaning desk.new) (I.meaning input.new) (K.meaning out.new) (E.meaning report.new))
        kept.new }
{
    let status = obey_read(rt, alloc, &words, desk, input, out, report, gate, kept);
    ExitCode::from(status.number())
}

/// The words behind the program's name, of the arguments that the system gave. An error is that of reading them, or want of memory.
pub fn words_of(alloc: Global, arguments: io::Result<Args>) -> io::Result<Vec<String>>
    ensures { AreBehindName arguments result }
{
    let arguments = arguments?;
    match list_of(alloc, arguments.len(), arguments.skip(1)) {
        Ok(words) => Ok(words),
        Err(_) => Err(ErrorKind::OutOfMemory.into()),
    }
}

/// Calls `vest` with the words that were read, with the files of the system and with these streams: the whole program.
pub fn program<
    R: Threads + Wait + Sync + Files + AllocGlobal,
    I: Read + Drop,
    K: Write + Drop,
    E: Write + Drop,
>(rt: &R, words: io::Result<Vec<String>>, input: I, out: K, report: E) -> ExitCode
    ensures { AnswersSomehow (spelled_in words) result (lent no_files (unread (I.remaining input)) (untaken (K.contents out)) (untaken (E.contents report))) }
{
    let mut desk = FileDesk::new(rt);
    let mut input = InSource::new(input);
    let mut out = OutSink::new(out);
    let mut report = OutSink::new(report);
    let mut kept = Kept::empty(rt.alloc());
    answer(
        rt,
        rt.alloc(),
        words,
        &mut desk,
        &mut input,
        &mut out,
        &mut report,
        &OpenGate,
        &mut kept,
    )
}
