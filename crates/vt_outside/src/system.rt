// Files and streams of the system. They tell no contents of their own.
ghost use Rattle.std.specs.Prelude.{◌≡◌, ◌≤◌, ◌+◌, length, take, None, IfOk, IfSome};
ghost use Rattle.std.specs.Io.{ReadsAtMost, WritesAtMost};
ghost use Rattle.std.specs.Io.KnownBytes.{ReadConsumes, WriteAppends};
ghost use Rattle.vt_outside.specs.Causes.{Rose};
ghost use Rattle.vt_outside.specs.Desk.{IfRead};
ghost use Rattle.vt_outside.specs.Disk.{HasBytes, HasMoreBytes, StillTold, is_absence};
ghost use Rattle.vt_outside.specs.Replacing.{Unwritten, Written};

use crate::desk::{Desk, DeskRead, DeskWrite};
use crate::disk::Disk;
use crate::files::SystemDisk;
use crate::memory::calls::count_up;
use crate::replacing::put_file;
use crate::sink::{Put, Sink};
use crate::source::{Got, Source};
use std::alloc::{AllocError, Global};
use std::io::{self, ErrorKind, Read, Write};
use std::rt::Files;

/// Files under names, by the calls of a disk. It tells no contents of its own: what is said of them is said of the disk's.
#[derive(Drop)]
pub struct FileDesk<D: Disk> {
    disk: D,
    read_faults: u64,
    write_faults: u64,
}

impl<'a, R: Files> FileDesk<SystemDisk<'a, R>> {
    pub fn new(rt: &'a R) -> Self
        ensures { ⟦<FileDesk<SystemDisk<'a, R>> as Desk>⟧.meaning result ≡ record { files = None; read_faults = 0; write_faults = 0 } }
    {
        FileDesk::over(SystemDisk::new(rt))
    }
}

impl<D: Disk> FileDesk<D> {
    pub fn over(disk: D) -> Self
        ensures meaning { ⟦<FileDesk<D> as Desk>⟧.meaning result ≡ record { files = None; read_faults = 0; write_faults = 0 } }
        ensures disk { result.disk ≡ disk }
    {
        FileDesk {
            disk,
            read_faults: 0,
            write_faults: 0,
        }
    }
}

// The first bytes of a file, one more than `limit` where there are so many.
fn first_bytes<F: Read + Drop>(file: F, alloc: Global, limit: usize) -> io::Result<Vec<u8>>
    ensures { IfOk result (λ bytes. IfSome (F.remaining file) (λ all. bytes.items ≡ take (limit + 1) all)) }
{
    let mut bytes = Vec::new(alloc);
    file.take((limit as u64).saturating_add(1))
        .read_to_end(&mut bytes)?;
    Ok(bytes)
}

// No file has the name, or none can have it: it is too long, or a file or a loop of links stands where a folder should.
fn is_absence(kind: ErrorKind) -> bool
    ensures { result ≡ is_absence kind }
{
    matches!(
        kind,
        ErrorKind::NotFound
            | ErrorKind::NotADirectory
            | ErrorKind::InvalidFilename
            | ErrorKind::FilesystemLoop
    )
}

impl<D: Disk> Desk for FileDesk<D> {
    ghost use Rattle.std.specs.Prelude.{None};

    ghost meaning = { λ d. record { files = None; read_faults = d.read_faults; write_faults = d.write_faults } };

    /// A file that is not there is `Absent` and no fault. Of a longer file `limit` and one bytes are read.
    fn read(&mut self, alloc: Global, name: &str, limit: usize) -> DeskRead
        ensures within_limit { IfRead result (λ bytes. length bytes ≤ limit) }
        ensures contents { IfRead result (λ bytes. IfSome (D.meaning self.old.disk) (λ disk. HasBytes (disk.now name.now) bytes)) }
        ensures absent { result ≡ DeskRead.Absent → IfSome (D.meaning self.old.disk) (λ disk. disk.now name.now ≡ None) }
        ensures too_long { result ≡ DeskRead.TooLong → IfSome (D.meaning self.old.disk) (λ disk. HasMoreBytes (disk.now name.now) limit) }
        ensures disk_stays { self.new.disk ≡ self.old.disk }

        ensures failed_has_cause { result ≡ DeskRead.Failed → Rose self.old.read_faults self.new.read_faults }
        ensures count_never_falls { self.old.read_faults ≤ self.new.read_faults }
        ensures other_count_stays { self.new.write_faults ≡ self.old.write_faults }
    {
        let read = match self.disk.open(name) {
            Ok(file) => first_bytes(file, alloc, limit),
            Err(error) if is_absence(error.kind()) => return DeskRead::Absent,
            Err(error) => Err(error),
        };
        match read {
            Ok(bytes) if bytes.len() > limit => DeskRead::TooLong,
            Ok(bytes) => DeskRead::Bytes(bytes),
            Err(error) if error.kind() == ErrorKind::OutOfMemory => DeskRead::WantOfMemory,
            Err(_) => {
                count_up(&mut self.read_faults);
                DeskRead::Failed
            }
        }
    }

    /// Writes the bytes into a new file beside it, which then takes its place: where that fails, a plain file has what it had.
    fn write(&mut self, name: &str, bytes: &[u8]) -> DeskWrite
        ensures done { result ≡ DeskWrite.Done → StillTold (D.meaning self.old.disk) (D.meaning self.new.disk) (Written name.now bytes.now) }
        ensures failed { result ≡ DeskWrite.Failed → StillTold (D.meaning self.old.disk) (D.meaning self.new.disk) (Unwritten name.now bytes.now) }

        ensures failed_has_cause { result ≡ DeskWrite.Failed → Rose self.old.write_faults self.new.write_faults }
        ensures count_never_falls { self.old.write_faults ≤ self.new.write_faults }
        ensures other_count_stays { self.new.read_faults ≡ self.old.read_faults }
    {
        match put_file(&mut self.disk, name, bytes) {
            Ok(()) => DeskWrite::Done,
            Err(_) => {
                count_up(&mut self.write_faults);
                DeskWrite::Failed
            }
        }
    }
}

// A call that a signal cut off is made again.
#[tactic(auto, using(crate::proofs::Known::kept_read, crate::proofs::Known::kept_again))]
fn read_through<R: Read>(reader: &mut R, into: &mut [u8]) -> io::Result<usize>
    ensures bound { ReadsAtMost result into.new }
    ensures bytes { ReadConsumes (R.remaining reader.old) (R.remaining reader.new) result into.new }
{
    for _ in 0..u64::MAX {
        match reader.read(into) {
            Err(error) if error.kind() == ErrorKind::Interrupted => {}
            read => return read,
        }
    }
    Err(io::Error::from(ErrorKind::Interrupted))
}

#[tactic(auto, using(crate::proofs::Known::kept_written, crate::proofs::Known::kept_again))]
fn write_through<W: Write>(writer: &mut W, bytes: &[u8]) -> io::Result<usize>
    ensures bound { WritesAtMost result bytes.now }
    ensures bytes { WriteAppends (W.contents writer.old) (W.contents writer.new) result bytes.now }
{
    for _ in 0..u64::MAX {
        match writer.write(bytes) {
            Err(error) if error.kind() == ErrorKind::Interrupted => {}
            written => return written,
        }
    }
    Err(io::Error::from(ErrorKind::Interrupted))
}

/// A reader of std. It tells what the reader tells: standard input tells nothing.
#[derive(Drop)]
pub struct InSource<R: Read + Drop> {
    reader: R,
    faults: u64,
}

impl<R: Read + Drop> InSource<R> {
    pub fn new(reader: R) -> Self
        ensures { ⟦<InSource<R> as Source>⟧.meaning result ≡ record { left = R.remaining reader; faults = 0 } }
    {
        InSource { reader, faults: 0 }
    }
}

impl<R: Read + Drop> Source for InSource<R> {
    ghost meaning = { λ s. record { left = R.remaining s.reader; faults = s.faults } };

    #[tactic(auto, using(crate::proofs::Known::consumes_none))]
    fn read(&mut self, into: &mut [u8]) -> Got {
        match read_through(&mut self.reader, into) {
            Ok(0) => Got::End,
            Ok(count) => Got::Bytes(count),
            Err(_) => {
                count_up(&mut self.faults);
                Got::Failed
            }
        }
    }
}

/// A writer of std. It tells what the writer tells: standard output and standard error tell nothing.
#[derive(Drop)]
pub struct OutSink<W: Write + Drop> {
    writer: W,
    faults: u64,
}

impl<W: Write + Drop> OutSink<W> {
    pub fn new(writer: W) -> Self
        ensures { ⟦<OutSink<W> as Sink>⟧.meaning result ≡ record { taken = W.contents writer; faults = 0 } }
    {
        OutSink { writer, faults: 0 }
    }
}

impl<W: Write + Drop> Sink for OutSink<W> {
    ghost meaning = { λ s. record { taken = W.contents s.writer; faults = s.faults } };

    /// It failed also where the writer took nothing.
    fn write(&mut self, bytes: &[u8]) -> Put {
        match write_through(&mut self.writer, bytes) {
            Ok(count) if count > 0 => Put::Took(count),
            _ => {
                count_up(&mut self.faults);
                Put::Failed
            }
        }
    }
}
