// The operand specifiers of an instruction, one after the other.
ghost use Rattle.std.specs.Prelude.{◌≡◌, ◌<◌};

use vax_form::{Instr, Row, Stop};
use vax_meaning::{Cursor, Evaluated, Location, find, obtain};

/// An instruction, and how its operands are used.
#[derive(Clone, Copy, Debug, PartialEq, Eq)]
pub struct Specifiers {
    pub row: Row,
    pub instr: Instr,
}

impl Specifiers {
    ghost use Rattle.vax_meaning.specs.Play.{Uses};
    ghost use Rattle.tie_operands.specs.Rest.{PassesFinding, PassesObtaining};

    /// Finds the operand of a place, where it is not found.
    pub(crate) fn find(
        &self,
        cursor: &mut Cursor,
        place: usize,
        found: Option<Location>,
    ) -> Result<Location, Stop>
        requires { place < 6 }
        ensures passes { PassesFinding self.now place found cursor.old result cursor.new }
        ensures few { Uses 2 cursor.old result cursor.new }
    {
        match found {
            Some(location) => Ok(location),
            None => find(
                cursor,
                self.row.access[place],
                self.row.size[place],
                self.instr.operands[place],
            ),
        }
    }

    /// Obtains the operand of a place, which was found.
    pub(crate) fn obtain(
        &self,
        cursor: &mut Cursor,
        place: usize,
        location: Location,
    ) -> Result<Evaluated, Stop>
        requires { place < 6 }
        ensures passes { PassesObtaining self.now place location cursor.old result cursor.new }
        ensures few { Uses 2 cursor.old result cursor.new }
    {
        obtain(
            cursor,
            self.row.access[place],
            self.row.size[place],
            self.instr.operands[place],
            location,
        )
    }
}
