// What a long instruction does for some replies.
ghost use Rattle.std.specs.Prelude.{◌≡◌};
ghost use Rattle.vax_form.specs.Script.{Moment, run};
ghost use Rattle.vax_form.specs.Tree.{run_outcome};
ghost use Rattle.vax_meaning.specs.Play.{Within};
ghost use Rattle.vax_long.specs.Instructions.{long_script_of, next_long_of};
ghost use Rattle.vax_long.specs.Seen.{seen_of};

use crate::instructions::{long_operation_of, long_operation_run};
use vax_form::{End, Exception, Instr, Outcome, Pages, Stop, VaxState};
use vax_meaning::Cursor;

/// Goes through the script of a long instruction.
fn played(state: &VaxState, instr: &Instr, pages: &Pages, replies: &[u64]) -> Outcome
    ensures value { result ≡ run_outcome state.now (run (long_script_of instr.now) (record { state = state.now; pages = pages.now; replies = replies.now })) }
    ensures few { Within 131094 replies.now result }
{
    let Some(operation) = long_operation_of(instr.opcode) else {
        return Outcome::Raises(Exception::ReservedInstruction, *state);
    };
    let mut cursor = Cursor {
        state: *state,
        pages,
        replies,
    };
    let run = long_operation_run(&mut cursor, operation, instr);
    seen_of(state, &cursor.state, run)
}

/// What is seen of a script that was run from one state to another.
pub(crate) fn seen_of(before: &VaxState, after: &VaxState, run: Result<End, Stop>) -> Outcome
    ensures { result ≡ seen_of before.now after.now run }
{
    match run {
        Ok(End::Done) => Outcome::Done(*after),
        Ok(End::Exits) => Outcome::Exits(*after),
        Ok(End::Traps(kind)) => Outcome::Raises(Exception::Arithmetic(kind), *after),
        Err(Stop::Wants(reference)) => Outcome::Wants(reference),
        Err(Stop::Fails(exception)) => Outcome::Raises(exception, *before),
    }
}

/// What a long instruction comes to with the replies to its references so far. Replies that are not wanted are
/// ignored, and so is the thread's number.
pub fn next_long(
    state: &VaxState,
    instr: &Instr,
    pages: &Pages,
    _thread: u8,
    replies: &[u64],
) -> Outcome
    ensures value { result ≡ next_long_of state.now instr.now pages.now replies.now }
    ensures few { Within 131094 replies.now result }
{
    played(state, instr, pages, replies)
}
