// A script under way: its state, its pages and the replies that are left.
ghost use Rattle.std.specs.Prelude.{◌≡◌, ℕ, ◌+◌, ◌*◌, ◌%◌, ◌^◌, ◌<◌, ◌≤◌};

use vax_form::{Exception, Pages, Reference, Stop, VaxState};

/// Where a script stands: the state so far, and the replies that are left.
#[derive(Drop)]
pub struct Cursor<'a> {
    pub state: VaxState,
    pub pages: &'a Pages,
    pub replies: &'a [u64],
}

impl<'a> Cursor<'a> {
    ghost use Rattle.vax_form.specs.Script.{ask, read_code};
    ghost use Rattle.vax_meaning.specs.Play.{Plays, Uses};

    /// Makes a reference.
    pub fn ask(&mut self, reference: Reference) -> Result<u64, Stop>
        ensures plays { Plays (ask reference) self.old result self.new }
        ensures few { Uses 1 self.old result self.new }
    {
        match self.replies {
            [] => Err(Stop::Wants(reference)),
            [first, rest @ ..] => {
                let reply = *first;
                self.replies = rest;
                Ok(reply)
            }
        }
    }

    /// A byte of the code.
    pub fn read_code(&mut self, address: u32) -> Result<u8, Stop>
        ensures plays { Plays (read_code address) self.old result self.new }
        ensures few { Uses 0 self.old result self.new }
    {
        match self.pages.code_byte(address) {
            Some(byte) => Ok(byte),
            None => {
                let write = false;
                Err(Stop::Fails(Exception::AccessViolation { address, write }))
            }
        }
    }
}
