// The calls by which named files are reached.
ghost use Rattle.std.specs.Prelude.{◌≡◌, None, Option, IfErr, IfOk, IfSome};
ghost use Rattle.std.specs.IoError.{error_kind};
ghost use Rattle.std.specs.Fs.{permissions_mode};
ghost use Rattle.vt_outside.specs.Disk.{DiskMeaning, Gives, IsAbsence, IsFound, Makes, OrNothing, OrTouches, Permits, Removes, Renames, StillTold, WritesOver};

use std::fs::Permissions;
use std::io::{self, Read};

/// What stands under a name. A link is told as a link, whatever it leads to.
#[derive(Clone, PartialEq, Eq, Drop)]
pub enum Found {
    Nothing,
    /// A plain file, with its permissions.
    Plain(Permissions),
    /// A folder, a link, a device, a pipe or a socket.
    Other,
}

/// How far a new file came.
#[derive(Clone, Copy, Debug, PartialEq, Eq)]
pub enum Made {
    /// It has all the bytes, and the system keeps them.
    Whole,
    /// It was made, and a call failed before it had all the bytes.
    Part,
    /// Something had the name, and stays.
    Taken,
    /// None was made.
    Refused,
}

/// Who may read and write a new file.
#[derive(Clone, Copy, Debug, PartialEq, Eq)]
pub enum Readers {
    /// Whom the system's own rule for new files lets.
    Usual,
    /// Its owner alone.
    Owner,
}

/// Files under names, by the calls that a system has for them. Where it tells what stands under its names, it tells that of each
/// moment, so that a caller can say what a call that is cut off leaves.
pub trait Disk {
    type File: Read + Drop;

    ghost meaning: { Self → Option DiskMeaning };

    /// What stands under the name itself.
    fn find(&self, name: &str) -> io::Result<Found>
        ensures found { IfOk result (λ found. IfSome (meaning self.now) (λ disk. IsFound found (disk.now name.now))) };

    /// Opens what the name leads to, to be read from its first byte.
    fn open(&self, name: &str) -> io::Result<Self::File>
        ensures bytes { IfOk result (λ file. IfSome (meaning self.now) (λ disk. Gives (Self.File.remaining file) (disk.now name.now))) }
        ensures absent { IfErr result (λ error. IsAbsence (error_kind error)
            → IfSome (meaning self.now) (λ disk. disk.now name.now ≡ None)) };

    /// Makes a new file, and no other, and writes the bytes to it in their order until the system keeps them.
    fn make(&mut self, name: &str, readers: Readers, bytes: &[u8]) -> Made
        ensures { StillTold (meaning self.old) (meaning self.new) (Makes result name.now bytes.now) };

    fn set_permissions(&mut self, name: &str, permissions: Permissions) -> io::Result<()>
        ensures { StillTold (meaning self.old) (meaning self.new)
            (OrTouches result name.now (Permits name.now (permissions_mode permissions))) };

    /// Puts the first name's file under the second in the place of what stood there, at one moment.
    fn rename(&mut self, from: &str, to: &str) -> io::Result<()>
        ensures { StillTold (meaning self.old) (meaning self.new) (OrNothing result (Renames from.now to.now)) };

    fn remove(&mut self, name: &str) -> io::Result<()>
        ensures { StillTold (meaning self.old) (meaning self.new) (OrNothing result (Removes name.now)) };

    /// Writes the bytes to what the name leads to, which is cut to nothing first.
    fn write_over(&mut self, name: &str, bytes: &[u8]) -> io::Result<()>
        ensures { StillTold (meaning self.old) (meaning self.new) (OrTouches result name.now (WritesOver name.now bytes.now)) };
}
