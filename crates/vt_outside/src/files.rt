// The files of the system. Each call hands its names and bytes to the runtime's calls of the same meaning, of which the library states
// nothing: so this disk tells nothing, and what it calls is to be read here.
ghost use Rattle.std.specs.Prelude.{◌≡◌, None, OnOk};
ghost use Rattle.std.specs.Io.KnownBytes.{Appends};

use crate::disk::{Disk, Found, Made, Readers};
use std::fs::{self, OpenFile, OpenOptions, Permissions};
use std::io::{self, ErrorKind, Write};
use std::os::unix::fs::OpenOptionsExt;
use std::rt::Files;

/// The mode of a new file that is its owner's alone, and of one that the system's mask alone bounds.
const OWNER_ALONE: u32 = 0o600;

const ALL_BUT_RUNNING: u32 = 0o666;

/// The files of the system. It tells nothing.
#[derive(Drop)]
pub struct SystemDisk<'a, R: Files> {
    rt: &'a R,
}

impl<'a, R: Files> SystemDisk<'a, R> {
    pub fn new(rt: &'a R) -> Self {
        SystemDisk { rt }
    }
}

// The file takes the bytes in their order, and the system keeps them: a fault of a full or a far disk is told here.
fn fill<F: Write + OpenFile>(file: &mut F, bytes: &[u8]) -> io::Result<()>
    ensures { OnOk result (Appends (F.contents file.old) (F.contents file.new) bytes.now) }
{
    file.write_all(bytes)?;
    file.sync_all()
}

impl<'a, R: Files> Disk for SystemDisk<'a, R> {
    ghost use Rattle.std.specs.Prelude.{None};

    type File = R::File;

    ghost meaning = { λ d. None };

    fn find(&self, name: &str) -> io::Result<Found> {
        match fs::symlink_metadata(self.rt, name) {
            Ok(found) if found.is_file() => Ok(Found::Plain(found.permissions())),
            Ok(_) => Ok(Found::Other),
            Err(error) if error.kind() == ErrorKind::NotFound => Ok(Found::Nothing),
            Err(error) => Err(error),
        }
    }

    fn open(&self, name: &str) -> io::Result<R::File> {
        fs::open(self.rt, name)
    }

    fn make(&mut self, name: &str, readers: Readers, bytes: &[u8]) -> Made {
        let mode = match readers {
            Readers::Usual => ALL_BUT_RUNNING,
            Readers::Owner => OWNER_ALONE,
        };
        let opened = OpenOptions::new()
            .write(true)
            .create_new(true)
            .mode(mode)
            .open(self.rt, name);
        match opened {
            Ok(mut file) => match fill(&mut file, bytes) {
                Ok(()) => Made::Whole,
                Err(_) => Made::Part,
            },
            Err(error) if error.kind() == ErrorKind::AlreadyExists => Made::Taken,
            Err(_) => Made::Refused,
        }
    }

    fn set_permissions(&mut self, name: &str, permissions: Permissions) -> io::Result<()> {
        fs::set_permissions(self.rt, name, permissions)
    }

    fn rename(&mut self, from: &str, to: &str) -> io::Result<()> {
        fs::rename(self.rt, from, to)
    }

    fn remove(&mut self, name: &str) -> io::Result<()> {
        fs::remove_file(self.rt, name)
    }

    fn write_over(&mut self, name: &str, bytes: &[u8]) -> io::Result<()> {
        fs::write(self.rt, name, bytes)
    }
}
