// Readers and writers of the system.
ghost use Rattle.std.specs.Prelude.{◌≡◌, None};

use crate::{sinks, sources};
use anyhow::Result;
use row_tally::Tally;
use std::fs::{self, Files};
use std::rt::{Stderr, Stdin, Stdout};
use vt_outside::{Gate, Got, InSource, OpenGate, OutSink, Put, Sink, Source, write_all};

const NAME: &str = "stream";

fn pass<G: Gate + Sync>(gate: &G) {
    gate.before(1, 0);
}

/// The reads of the file.
const WHOLE: &[(&[u8], Got)] = &[
    (b"ab", Got::Bytes(2)),
    (b"c", Got::Bytes(1)),
    (b"", Got::End),
];

const NOT_WRITTEN: &[(&[u8], Put)] = &[(b"f", Put::Failed)];

const NOT_READ: &[(&[u8], Got)] = &[(b"", Got::Failed)];

/// A file is written.
fn check_written(rt: &(impl Files + Print), tally: &mut Tally) -> Result<()> {
    let mut sink = OutSink::new(fs::create(rt, NAME)?);
    let whole = write_all(&mut sink, b"abc").is_ok();
    tally.check(rt, "written", &whole, &true)
}

/// What a name gives that is opened for reading.
fn check_read(
    rt: &(impl Files + Print),
    tally: &mut Tally,
    name: &str,
    rows: &[(&[u8], Got)],
) -> Result<()> {
    let mut source = InSource::new(fs::open(rt, name)?);
    sources::check(rt, tally, &mut source, rows)
}

fn check_not_written(rt: &(impl Files + Print), tally: &mut Tally) -> Result<()> {
    let mut sink = OutSink::new(fs::open(rt, NAME)?);
    sinks::check(rt, tally, &mut sink, NOT_WRITTEN)
}

/// A file that was written is read; one that was opened for reading can't be written, and a folder can't be read.
pub fn files(rt: &(impl Files + Print)) -> Result<Tally> {
    let mut tally = Tally::NONE;
    check_written(rt, &mut tally)?;
    check_read(rt, &mut tally, NAME, WHOLE)?;
    check_not_written(rt, &mut tally)?;
    check_read(rt, &mut tally, ".", NOT_READ)?;
    pass(&OpenGate);
    fs::remove_file(rt, NAME)?;
    tally.print(rt, "streams of the system")?;
    Ok(tally)
}

/// A full writer takes a prefix, and then nothing.
pub fn buffer(rt: &impl Print) -> Result<Tally> {
    let mut tally = Tally::NONE;
    let mut room = [0; 2];
    let mut sink = OutSink::new(room.as_mut_slice());
    let whole = write_all(&mut sink, b"abc").is_ok();
    tally.check(rt, "a full writer", &whole, &false)?;
    tally.check(rt, "its bytes", &room, b"ab")?;
    tally.print(rt, "a buffer")?;
    Ok(tally)
}

// The standard streams tell nothing of what they hold.
fn standard_input(stdin: Stdin) -> InSource<Stdin>
    ensures { ⟦<InSource<Stdin> as Source>⟧.meaning result ≡ record { left = None; faults = 0 } }
{
    InSource::new(stdin)
}

fn standard_output(stdout: Stdout) -> OutSink<Stdout>
    ensures { ⟦<OutSink<Stdout> as Sink>⟧.meaning result ≡ record { taken = None; faults = 0 } }
{
    OutSink::new(stdout)
}

fn standard_error(stderr: Stderr) -> OutSink<Stderr>
    ensures { ⟦<OutSink<Stderr> as Sink>⟧.meaning result ≡ record { taken = None; faults = 0 } }
{
    OutSink::new(stderr)
}

const NOTHING: &[(&[u8], Got)] = &[(b"", Got::End)];

const LINE: &[(&[u8], Put)] = &[(b"\n", Put::Took(1))];

/// The standard streams are lent: nothing comes in, and a byte goes out by each.
pub fn standard_streams(rt: &HostRuntime) -> Result<Tally> {
    let mut tally = Tally::NONE;
    sources::check(rt, &mut tally, &mut standard_input(rt.stdin()), NOTHING)?;
    sinks::check(rt, &mut tally, &mut standard_output(rt.stdout()), LINE)?;
    sinks::check(rt, &mut tally, &mut standard_error(rt.stderr()), LINE)?;
    tally.print(rt, "standard streams")?;
    Ok(tally)
}
