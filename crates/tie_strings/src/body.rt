// Calls, lists of registers and INDEX: what they do behind their operands.
ghost use Rattle.std.specs.Prelude.{◌≡◌, ◌<◌, length};
ghost use Rattle.tie_operands.specs.Replies.{replies_of};

use tie_operands::{Replies, TieStep};
use vax_form::{End, Instr, Stop, VaxState};
use vax_long::{call_general, call_stack, index, pop_by_mask, push_by_mask, return_from_procedure};
use vax_meaning::{Cursor, Evaluated};

/// What comes behind the operands uses so many replies at most.
const REPLIES_OF_BODY: usize = 36;

/// A long operation without strings.
#[derive(Clone, Copy, Debug, PartialEq, Eq)]
pub enum Plain {
    Index,
    CallGeneral,
    CallStack,
    Return,
    PushRegisters,
    PopRegisters,
}

impl Plain {
    ghost use Rattle.vax_meaning.specs.Play.{Plays, Uses};
    ghost use Rattle.vax_long.specs.Instructions.{long_body};
    ghost use Rattle.tie_strings.specs.Bodies.{long_of};

    /// Does what it does once its operands are evaluated.
    #[tactic(auto, unfolding(vax_long::specs::Instructions::long_body))]
    pub(crate) fn run(
        self,
        cursor: &mut Cursor,
        instr: &Instr,
        values: &[Evaluated; 6],
    ) -> Result<End, Stop>
        ensures plays { Plays (long_body (long_of self) instr.now values.now) cursor.old result cursor.new }
        ensures few { Uses 36 cursor.old result cursor.new }
    {
        match self {
            Plain::Index => index(cursor, instr, values),
            Plain::CallGeneral => call_general(cursor, instr, values),
            Plain::CallStack => call_stack(cursor, instr, values),
            Plain::Return => return_from_procedure(cursor),
            Plain::PushRegisters => push_by_mask(cursor, instr, values),
            Plain::PopRegisters => pop_by_mask(cursor, instr, values),
        }
    }
}

/// What such an operation does once its operands are evaluated.
#[derive(Clone, Copy, Debug, PartialEq, Eq)]
pub(crate) struct Body {
    pub(crate) operation: Plain,
    pub(crate) instr: Instr,
    pub(crate) values: [Evaluated; 6],
    /// The state behind the operands, and the replies that came since.
    pub(crate) state: VaxState,
    pub(crate) kept: Replies<REPLIES_OF_BODY>,
    ghost room: { length (replies_of kept) < 36 },
}

impl Body {
    ghost use Rattle.vax_meaning.specs.Play.{Uses};
    ghost use Rattle.tie_operands.specs.Steps.{Shows, IfWant, Passes};
    ghost use Rattle.tie_strings.specs.Bodies.{body_rest, body_at};

    /// Goes through it once.
    fn run(&self, cursor: &mut Cursor, before: &VaxState) -> Result<End, Stop>
        ensures passes { Passes before.now (body_at self.now cursor.old) result cursor.new.state }
        ensures few { Uses 36 cursor.old result cursor.new }
    {
        self.operation.run(cursor, &self.instr, &self.values)
    }

    /// Goes on until a reference has no reply, or to the end.
    pub(crate) fn close(&mut self, cursor: &mut Cursor, before: &VaxState) -> TieStep
        ensures shows { Shows before.now (body_at self.old cursor.old) result }
        ensures rest { IfWant result (body_rest cursor.old.pages.now self.new ≡ body_at self.old cursor.old) }
    {
        let (state, replies) = (cursor.state, cursor.replies);
        match self.run(cursor, before) {
            Ok(end) => TieStep::ended(end, &cursor.state),
            Err(Stop::Wants(reference)) => {
                self.state = state;
                self.kept = Replies::of(replies);
                TieStep::Want(reference)
            }
            Err(Stop::Fails(exception)) => TieStep::Raised(exception, *before),
        }
    }
}
