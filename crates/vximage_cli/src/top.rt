// The top call.
ghost use Rattle.vt_outside.specs.Desk.{DeskMeaning};
ghost use Rattle.vximage_words.specs.Commands.{command_value};
ghost use Rattle.vximage_cli.specs.Vximage.{Ends, Obeys, TellsEnd, TellsFault, lent};

use crate::halt::{Fault, Halt, say, say_bad_name};
use crate::listing::list;
use crate::making::{make_elf, make_parts};
use crate::showing::{send, show};
use std::alloc::Global;
use vest_stops::{Done, Status, Stop};
use vt_outside::{Desk, Sink, write_all};
use vximage_words::{Command, Told, read_words};

// The status of how a command ended. The report is told why it stopped.
fn ended<E: Sink>(end: Result<Done, Halt<'_>>, report: &mut E) -> Status
    ensures { TellsEnd end.entry result (E.meaning report.old) (E.meaning report.new) }
{
    match end {
        Ok(done) => done.status(),
        Err(halt) => {
            say(&halt, report);
            halt.stop.status()
        }
    }
}

// The same of a command that reads names.
fn listing_ended<E: Sink>(end: Result<Done, Fault<'_>>, report: &mut E) -> Status
    ensures { TellsFault end.entry result (E.meaning report.old) (E.meaning report.new) }
{
    match end {
        Ok(done) => ended(Ok(done), report),
        Err(Fault::Halted(halt)) => ended(Err(halt), report),
        Err(Fault::BadName { line }) => {
            say_bad_name(line, report);
            Status::Refused
        }
    }
}

/// Obeys a command.
pub fn obey<D: Desk, K: Sink, E: Sink>(
    alloc: Global,
    command: &Command<'_>,
    desk: &mut D,
    out: &mut K,
    report: &mut E,
) -> Status
    ensures { Obeys (command_value command.now) result
        (lent (D.meaning desk.old) (K.meaning out.old) (E.meaning report.old))
        (lent (D.meaning desk.new) (K.meaning out.new) (E.meaning report.new)) }
{
    match command {
        Command::MakeParts { out: name, parts } => {
            ended(make_parts(alloc, name, parts, desk), report)
        }
        Command::MakeElf {
            out: name,
            file,
            options,
        } => ended(make_elf(alloc, name, file, options, desk), report),
        Command::Show { name } => ended(show(alloc, name, desk, out), report),
        Command::List { name, asked } => {
            listing_ended(list(alloc, name, asked, desk, out), report)
        }
    }
}

// Obeys a command that nothing needs any more.
fn obey_last<D: Desk, K: Sink, E: Sink>(
    alloc: Global,
    command: Command<'_>,
    desk: &mut D,
    out: &mut K,
    report: &mut E,
) -> Status
    ensures { Obeys (command_value command.entry) result
        (lent (D.meaning desk.old) (K.meaning out.old) (E.meaning report.old))
        (lent (D.meaning desk.new) (K.meaning out.new) (E.meaning report.new)) }
{
    obey(alloc, &command, desk, out, report)
}

// Help goes to `out`, and why no command was read to the report.
fn tell<K: Sink, E: Sink>(told: &Told, out: &mut K, report: &mut E) -> Status
    ensures { (desk : DeskMeaning) → Ends result (lent desk (K.meaning out.old) (E.meaning report.old)) (lent desk (K.meaning out.new) (E.meaning report.new)) }
{
    match told {
        Told::Help(text) => send(out, text.as_bytes()).status(),
        Told::Fault(text) => {
            let _ = write_all(report, text.as_bytes());
            Status::Usage
        }
        Told::WantOfMemory => {
            say(&Halt::from(Stop::WantOfMemory), report);
            Status::WantOfMemory
        }
    }
}

// Tells what nothing needs any more.
fn tell_last<K: Sink, E: Sink>(told: Told, out: &mut K, report: &mut E) -> Status
    ensures { (desk : DeskMeaning) → Ends result (lent desk (K.meaning out.old) (E.meaning report.old)) (lent desk (K.meaning out.new) (E.meaning report.new)) }
{
    tell(&told, out, report)
}

/// Obeys one command line. `words` are the words after the program's name.
pub fn vximage<D: Desk, K: Sink, E: Sink>(
    alloc: Global,
    words: &[String],
    desk: &mut D,
    out: &mut K,
    report: &mut E,
) -> Status
    ensures { Ends result
        (lent (D.meaning desk.old) (K.meaning out.old) (E.meaning report.old))
        (lent (D.meaning desk.new) (K.meaning out.new) (E.meaning report.new)) }
{
    match read_words(alloc, words) {
        Ok(command) => obey_last(alloc, command, desk, out, report),
        Err(told) => tell_last(told, out, report),
    }
}
