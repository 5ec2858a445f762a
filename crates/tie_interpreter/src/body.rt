// What an operation does behind its operands, a reference at a time.
ghost use Rattle.std.specs.Prelude.{◌≡◌, ◌<◌, length};
ghost use Rattle.tie_operands.specs.Replies.{replies_of};

use tie_operands::{Replies, TieStep};
use vax_form::{End, Instr, Operation, Stop, VaxState};
use vax_meaning::{Cursor, Evaluated, body};

/// What comes behind the operands uses so many replies at most.
pub(crate) const REPLIES_OF_BODY: usize = 4;

/// What an operation does once its operands are evaluated.
#[derive(Clone, Copy, Debug, PartialEq, Eq)]
pub(crate) struct Body {
    pub(crate) operation: Operation,
    pub(crate) instr: Instr,
    pub(crate) thread: u8,
    pub(crate) values: [Evaluated; 6],
    /// The state behind the operands, and the replies that came since.
    pub(crate) state: VaxState,
    pub(crate) kept: Replies<REPLIES_OF_BODY>,
    ghost room: { length (replies_of kept) < 4 },
}

impl Body {
    ghost use Rattle.vax_meaning.specs.Play.{Uses};
    ghost use Rattle.tie_operands.specs.Steps.{Shows, IfWant};
    ghost use Rattle.tie_interpreter.specs.Rest.{body_rest, body_at, PassesBody};

    /// Goes through it once.
    fn run(&self, cursor: &mut Cursor, before: &VaxState) -> Result<End, Stop>
        ensures passes { PassesBody before.now self.now cursor.old result cursor.new }
        ensures few { Uses 4 cursor.old result cursor.new }
    {
        body(
            cursor,
            self.operation,
            &self.instr,
            self.thread,
            &self.values,
        )
    }

    /// Goes on until a reference has no reply, or to the end.
    pub(crate) fn close(&mut self, cursor: &mut Cursor, before: &VaxState) -> TieStep
        ensures shows { Shows before.now (body_at self.old cursor.old) result }
        ensures rest { IfWant result (body_rest cursor.old.pages.now self.new ≡ body_at self.old cursor.old) }
    {
        let (state, replies) = (cursor.state, cursor.replies);
        match self.run(cursor, before) {
            Ok(end) => TieStep::ended(end, &cursor.state),
            Err(Stop::Wants(reference)) => {
                self.state = state;
                self.kept = Replies::of(replies);
                TieStep::Want(reference)
            }
            Err(Stop::Fails(exception)) => TieStep::Raised(exception, *before),
        }
    }
}
