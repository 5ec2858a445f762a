// The program: what `main` does with the objects that it makes.
ghost use Rattle.vximage_cli.specs.Program.{Answers, AnswersSomehow, AreBehindName, no_files, untaken};
ghost use Rattle.vximage_cli.specs.Vximage.{Ends, lent};

use crate::halt::{Halt, say};
use crate::top::vximage;
use exact_lists::list_of;
use std::alloc::Global;
use std::env::Args;
use std::io::{self, ErrorKind, Write};
use std::process::ExitCode;
use std::rt::Files;
use vest_stops::{Status, Stop};
use vt_outside::{Desk, FileDesk, OutSink, Sink};

// Obeys no words, since reading them failed. A word that is no text spells no command.
fn obey_unread<D: Desk, K: Sink, E: Sink>(
    alloc: Global,
    error: &io::Error,
    desk: &mut D,
    out: &mut K,
    report: &mut E,
) -> Status
    ensures { Ends result
        (lent (D.meaning desk.old) (K.meaning out.old) (E.meaning report.old))
        (lent (D.meaning desk.new) (K.meaning out.new) (E.meaning report.new)) }
{
    if error.kind() == ErrorKind::OutOfMemory {
        say(&Halt::from(Stop::WantOfMemory), report);
        Status::WantOfMemory
    } else {
        vximage(alloc, &[], desk, out, report)
    }
}

// Obeys the words that were read.
fn obey_read<D: Desk, K: Sink, E: Sink>(
    alloc: Global,
    words: io::Result<Vec<String>>,
    desk: &mut D,
    out: &mut K,
    report: &mut E,
) -> Status
    ensures { Ends result
        (lent (D.meaning desk.old) (K.meaning out.old) (E.meaning report.old))
        (lent (D.meaning desk.new) (K.meaning out.new) (E.meaning report.new)) }
{
    match words {
        Ok(words) => vximage(alloc, &words, desk, out, report),
        Err(error) => obey_unread(alloc, &error, desk, out, report),
    }
}

/// Calls `vximage` with the words that were read and with these objects; the exit code is the number of its status.
pub fn answer<D: Desk, K: Sink, E: Sink>(
    alloc: Global,
    words: io::Result<Vec<String>>,
    desk: &mut D,
    out: &mut K,
    report: &mut E,
) -> ExitCode
    ensures { Answers result
        (lent (D.meaning desk.old) (K.meaning out.old) (E.meaning report.old))
        (lent (D.meaning desk.new) (K.meaning out.new) (E.meaning report.new)) }
{
    let status = obey_read(alloc, words, desk, out, report);
    ExitCode::from(status.number())
}

/// The words behind the program's name, of the arguments that the system gave. An error is that of reading them, or want of memory.
pub fn words_of(alloc: Global, arguments: io::Result<Args>) -> io::Result<Vec<String>>
    ensures { AreBehindName arguments result }
{
    let arguments = arguments?;
    match list_of(alloc, arguments.len(), arguments.skip(1)) {
        Ok(words) => Ok(words),
        Err(_) => Err(ErrorKind::OutOfMemory.into()),
    }
}

/// Calls `vximage` with the words that were read, with the files of the system and with these streams: the whole program.
pub fn program<R: Files + AllocGlobal, K: Write + Drop, E: Write + Drop>(
    rt: &R,
    words: io::Result<Vec<String>>,
    out: K,
    report: E,
) -> ExitCode
    ensures { AnswersSomehow result (lent no_files (untaken (K.contents out)) (untaken (E.contents report))) }
{
    let mut desk = FileDesk::new(rt);
    let mut out = OutSink::new(out);
    let mut report = OutSink::new(report);
    answer(rt.alloc(), words, &mut desk, &mut out, &mut report)
}
