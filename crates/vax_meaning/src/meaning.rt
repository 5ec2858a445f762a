// What an instruction does for some replies.
ghost use Rattle.std.specs.Prelude.{◌≡◌, false};
ghost use Rattle.vax_form.specs.Row.{is_long_at};
ghost use Rattle.vax_form.specs.Script.{Moment, run};
ghost use Rattle.vax_form.specs.Tree.{run_outcome};
ghost use Rattle.vax_meaning.specs.Play.{Within};
ghost use Rattle.vax_meaning.specs.Instructions.{script_of, next_of};

use crate::cursor::Cursor;
use crate::instructions::operation_run;
use vax_form::{End, Exception, Instr, Outcome, Pages, Stop, VaxState, operation_of};

/// Goes through the script of an instruction.
fn played(state: &VaxState, instr: &Instr, pages: &Pages, thread: u8, replies: &[u64]) -> Outcome
    ensures value { result ≡ run_outcome state.now (run (script_of instr.now thread) (record { state = state.now; pages = pages.now; replies = replies.now })) }
    ensures few { Within 28 replies.now result }
{
    let Some(operation) = operation_of(instr.opcode) else {
        return Outcome::Raises(Exception::ReservedInstruction, *state);
    };
    let mut cursor = Cursor {
        state: *state,
        pages,
        replies,
    };
    match operation_run(&mut cursor, operation, instr, thread) {
        Ok(End::Done) => Outcome::Done(cursor.state),
        Ok(End::Exits) => Outcome::Exits(cursor.state),
        Ok(End::Traps(kind)) => Outcome::Raises(Exception::Arithmetic(kind), cursor.state),
        Err(Stop::Wants(reference)) => Outcome::Wants(reference),
        Err(Stop::Fails(exception)) => Outcome::Raises(exception, *state),
    }
}

/// What an instruction that is not long (`vax_form::is_long`) comes to with the replies to its references so far. Replies
/// that are not wanted are ignored.
pub fn next(state: &VaxState, instr: &Instr, pages: &Pages, thread: u8, replies: &[u64]) -> Outcome
    requires short { is_long_at instr.now.opcode ≡ false }
    ensures value { result ≡ next_of state.now instr.now pages.now thread replies.now }
    ensures few { Within 28 replies.now result }
{
    played(state, instr, pages, thread, replies)
}
