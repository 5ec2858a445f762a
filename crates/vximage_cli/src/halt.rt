// Why a command stops before it has written anything, and the line that says so.
ghost use Rattle.std.specs.Prelude.{◌≡◌, ◌++◌, [], ◌∷◌, IfErr, IfOk, None, OnErr, OnOk};
ghost use Rattle.vt_outside.specs.Taking.{TookAll, TookSome};
ghost use Rattle.vest_files.specs.Stages.{IsFile, StopsWhere};
ghost use Rattle.vest_stops.specs.Files.{SameFiles};
ghost use Rattle.vest_stops.specs.declared.stop.Stop.TheVariants.{WantOfMemory as NoMemory};
ghost use Rattle.vximage_cli.specs.Listing.{names_line};
ghost use Rattle.vximage_cli.specs.Named.{name_told};
ghost use Rattle.vximage_cli.specs.Stopping.{IsTold, Says, StopsAtNamed, line_of, subject_of};

use image_parts::{Judge, MakeRefusal};
use report_text::{Line, Subject};
use std::alloc::{AllocError, AllocFailed, Global};
use vest_files::read_file;
use vest_stops::{Refusal, Stop};
use vt_outside::{Desk, Failed, Sink, write_all};

/// Why a command stops, and the file at which it does, if it is at one.
#[derive(Drop)]
pub struct Halt<'a> {
    pub stop: Stop,
    pub name: Option<&'a str>,
}

impl From<Stop> for Halt<'_> {
    ghost from_gives = { λ stop halt. halt ≡ record { stop = stop; name = None } };

    fn from(stop: Stop) -> Self {
        Halt { stop, name: None }
    }
}

impl From<AllocError> for Halt<'_> {
    ghost from_gives = { λ _ halt. halt ≡ record { stop = NoMemory; name = None } };

    fn from(_: AllocError) -> Self {
        Halt::from(Stop::WantOfMemory)
    }
}

impl<T: Drop> From<AllocFailed<T>> for Halt<'_> {
    ghost from_gives = { λ _ halt. halt ≡ record { stop = NoMemory; name = None } };

    fn from(_: AllocFailed<T>) -> Self {
        Halt::from(Stop::WantOfMemory)
    }
}

/// Why a command stops that reads names.
#[derive(Drop)]
pub enum Fault<'a> {
    Halted(Halt<'a>),
    /// The line, from 1, of the file of names begins with no address.
    BadName { line: u64 },
}

impl<'a> From<Halt<'a>> for Fault<'a> {
    ghost use Rattle.vximage_cli.specs.declared.halt.Fault.TheVariants.{Halted};

    ghost from_gives = { λ halt fault. fault ≡ Halted halt };

    fn from(halt: Halt<'a>) -> Self {
        Fault::Halted(halt)
    }
}

/// The bytes of a file.
pub fn read_named<'a, D: Desk>(
    alloc: Global,
    desk: &mut D,
    name: &'a str,
) -> Result<Vec<u8>, Halt<'a>>
    ensures ok { IfOk result (λ bytes. IsFile (D.meaning desk.old).files name.entry.now bytes.items) }
    ensures err { IfErr result (λ halt. StopsAtNamed halt.stop (name_told halt) name.entry.now (D.meaning desk.old) (D.meaning desk.new)) }
    ensures stays { SameFiles (D.meaning desk.old) (D.meaning desk.new) }
{
    match read_file(alloc, desk, name) {
        Ok(bytes) => Ok(bytes),
        Err(stop) => Err(Halt {
            stop,
            name: Some(name),
        }),
    }
}

fn subject_of(judge: Judge) -> Subject
    ensures { result ≡ subject_of judge }
{
    match judge {
        Judge::OfElf => Subject::Elf,
        Judge::OfParts => Subject::Parts,
        Judge::OfImage => Subject::Image,
    }
}

/// Why a command stops whose image is not made.
pub fn refused(cause: MakeRefusal) -> Stop
    ensures { StopsWhere (IsTold cause) result }
{
    match cause.judge() {
        Some(judge) => Stop::Refused(Refusal::new(subject_of(judge), cause.numbers().as_slice())),
        None => Stop::WantOfMemory,
    }
}

// A text, a name and a line end.
#[tactic(auto, using(vt_outside::proofs::Taking::took_both, vt_outside::proofs::Taking::took_some_first, vt_outside::proofs::Taking::took_some_second))]
fn say_name<E: Sink>(text: &[u8], name: &str, report: &mut E) -> Result<(), Failed>
    ensures ok { OnOk result (TookAll (E.meaning report.old) (E.meaning report.new) (text.now ++ name.now ++ 10 ∷ [])) }
    ensures err { OnErr result (TookSome (E.meaning report.old) (E.meaning report.new) (text.now ++ name.now ++ 10 ∷ [])) }
{
    write_all(report, text)?;
    write_all(report, name.as_bytes())?;
    write_all(report, b"\n")?;
    Ok(())
}

/// Says why a command stops. It takes no memory.
pub fn say<E: Sink>(halt: &Halt<'_>, report: &mut E)
    ensures { Says (line_of halt.now.stop (name_told halt.now)) (E.meaning report.old) (E.meaning report.new) }
{
    let _ = match (&halt.stop, halt.name) {
        (Stop::Absent, Some(name)) => say_name(b"absent ", name, report),
        (Stop::ReadFault, Some(name)) => say_name(b"read fault ", name, report),
        (Stop::TooLong, Some(name)) => say_name(b"too long ", name, report),
        (stop, _) => write_all(report, stop.line().as_slice()),
    };
}

/// Says that a line of the file of names begins with no address. It takes no memory.
pub fn say_bad_name<E: Sink>(line: u64, report: &mut E)
    ensures { Says (names_line line) (E.meaning report.old) (E.meaning report.new) }
{
    let mut text = Line::new();
    text.push_text(b"refused names");
    text.push_spaced(line);
    text.push(b'\n');
    let _ = write_all(report, text.as_slice());
}
