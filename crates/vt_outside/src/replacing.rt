// A file's contents, put in the place of what the file had by a new file beside it.
ghost use Rattle.std.specs.Prelude.{◌≡◌};
ghost use Rattle.vt_outside.specs.Disk.{StillTold};
ghost use Rattle.vt_outside.specs.Replacing.{PlacesBytes, SettlesBy, WritesFile};

use crate::disk::{Disk, Found, Made, Readers};
use arrayvec::ArrayString;
use std::fs::Permissions;
use std::io::{self, ErrorKind};

/// The most bytes of a new file's name: the system opens no longer one.
const NAME_ROOM: usize = 4_095;

type Beside = ArrayString<NAME_ROOM>;

/// The names that a new file may have in the folder of another, tried one after the other until nothing has it.
const PARTS: [&str; 8] = [
    ".vest-part0",
    ".vest-part1",
    ".vest-part2",
    ".vest-part3",
    ".vest-part4",
    ".vest-part5",
    ".vest-part6",
    ".vest-part7",
];

/// Puts the bytes in the place of what a plain file had, or makes the file: whole, or it has what it had. What is no plain file, as
/// a link or a device, is written where it stands.
#[tactic(auto, using(crate::proofs::Settling::writes_new, crate::proofs::Settling::writes_plain, crate::proofs::Settling::writes_other, crate::proofs::Settling::writes_nothing))]
pub fn put_file<D: Disk>(disk: &mut D, name: &str, bytes: &[u8]) -> io::Result<()>
    ensures { StillTold (D.meaning disk.old) (D.meaning disk.new) (WritesFile result name.now bytes.now) }
{
    match disk.find(name)? {
        Found::Nothing => replace(disk, name, bytes, None),
        Found::Plain(permissions) => replace(disk, name, bytes, Some(permissions)),
        Found::Other => disk.write_over(name, bytes),
    }
}

// A file in the place of one whose permissions are given is its owner's alone until it has these.
fn replace<D: Disk>(
    disk: &mut D,
    name: &str,
    bytes: &[u8],
    permissions: Option<Permissions>,
) -> io::Result<()>
    ensures { StillTold (D.meaning disk.old) (D.meaning disk.new) (SettlesBy result name.now bytes.now permissions) }
{
    let readers = match permissions {
        Some(_) => Readers::Owner,
        None => Readers::Usual,
    };
    for part in &PARTS {
        let beside = beside(name, part)?;
        if beside.as_str() == name {
            continue;
        }
        match disk.make(beside.as_str(), readers, bytes) {
            Made::Whole => return take_place(disk, beside.as_str(), name, permissions),
            Made::Part => {
                let _ = disk.remove(beside.as_str());
                return Err(io::Error::from(ErrorKind::Other));
            }
            Made::Refused => return Err(io::Error::from(ErrorKind::Other)),
            Made::Taken => {}
        }
    }
    Err(io::Error::from(ErrorKind::AlreadyExists))
}

// Puts the new file in the place of what the name has. Where that fails, it is removed.
fn take_place<D: Disk>(
    disk: &mut D,
    beside: &str,
    name: &str,
    permissions: Option<Permissions>,
) -> io::Result<()>
    ensures { StillTold (D.meaning disk.old) (D.meaning disk.new) (PlacesBytes result name.now beside.now permissions) }
{
    let placed = place(disk, beside, name, permissions);
    if placed.is_err() {
        let _ = disk.remove(beside);
    }
    placed
}

fn place<D: Disk>(
    disk: &mut D,
    beside: &str,
    name: &str,
    permissions: Option<Permissions>,
) -> io::Result<()>
    ensures { StillTold (D.meaning disk.old) (D.meaning disk.new) (PlacesBytes result name.now beside.now permissions) }
{
    match permissions {
        Some(permissions) => {
            disk.set_permissions(beside, permissions)?;
            disk.rename(beside, name)
        }
        None => disk.rename(beside, name),
    }
}

// A name in the folder of another name.
fn beside(name: &str, part: &str) -> io::Result<Beside> {
    let mut beside = Beside::new();
    let put = match name.rsplit_once('/') {
        Some((folder, _)) => {
            beside.try_push_str(folder).is_ok()
                && beside.try_push_str("/").is_ok()
                && beside.try_push_str(part).is_ok()
        }
        None => beside.try_push_str(part).is_ok(),
    };
    if put {
        Ok(beside)
    } else {
        Err(io::Error::from(ErrorKind::InvalidFilename))
    }
}
