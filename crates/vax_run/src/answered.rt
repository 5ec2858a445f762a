// What an instruction comes to, with the replies that there are.
ghost use Rattle.std.specs.Prelude.{◌≡◌, ◌≤◌, length};
ghost use Rattle.vax_form.specs.Moments.{handled};
ghost use Rattle.vax_form.specs.Tree.{answer, instruction_tree};
ghost use Rattle.vax_meaning.specs.Play.{Plays};
ghost use Rattle.vax_long.specs.Instructions.{any_script_of, script_at, tree_at};
ghost use Rattle.vax_long.specs.Pending.{delivery, moment_at, resume};
ghost use Rattle.vax_run.specs.Answered.{answer_of, answer_to, handled_answer, IsWithin};

use vax_decode::{Decoded, decode_at};
use vax_form::{End, Exception, Instr, Pages, Pending, Reference, Stop, VaxState, operation_of};
use vax_long::{frame_is_allowed, long_operation_of, long_operation_run, push_exception, resume};
use vax_meaning::{Cursor, operation_run};

/// What a thread comes to at a state with some replies.
#[derive(Drop)]
pub(crate) enum Answer {
    /// The next reference has no reply.
    Wants(Reference),
    Fails(Exception),
    /// Its end with the state, and how many replies it took.
    Comes(End, VaxState, usize),
}

/// What a thread comes to at a state: by its instruction, or by what is pending.
pub(crate) fn answered(pages: &Pages, state: &VaxState, thread: u8, replies: &[u64]) -> Answer
    ensures value { answer_to replies.now result ≡ answer pages.now (moment_at pages.now thread state.now) replies.now }
    ensures within { IsWithin (length replies.now) result }
{
    match state.pending {
        Pending::Nothing => instruction_answered(pages, state, thread, replies),
        Pending::Deliver(exception) => delivery_answered(pages, state, exception, replies),
        Pending::Resume => resumption_answered(pages, state, replies),
    }
}

fn instruction_answered(pages: &Pages, state: &VaxState, thread: u8, replies: &[u64]) -> Answer
    ensures value { answer_to replies.now result ≡ answer pages.now (handled pages.now state.now (tree_at pages.now thread state.now)) replies.now }
    ensures within { IsWithin (length replies.now) result }
{
    let mut cursor = Cursor {
        state: *state,
        pages,
        replies,
    };
    let end = played(&mut cursor, thread);
    let taken = replies.len().saturating_sub(cursor.replies.len());
    handled_answer(state, cursor.state, end, taken)
}

fn delivery_answered(
    pages: &Pages,
    state: &VaxState,
    exception: Exception,
    replies: &[u64],
) -> Answer
    ensures value { answer_to replies.now result ≡ answer pages.now (delivery pages.now exception state.now) replies.now }
    ensures within { IsWithin (length replies.now) result }
{
    if !frame_is_allowed(state, pages) {
        return Answer::Fails(exception);
    }
    let mut cursor = Cursor {
        state: *state,
        pages,
        replies,
    };
    let end = push_exception(&mut cursor, exception);
    let taken = replies.len().saturating_sub(cursor.replies.len());
    answer_of(end, cursor.state, taken)
}

fn resumption_answered(pages: &Pages, state: &VaxState, replies: &[u64]) -> Answer
    ensures value { answer_to replies.now result ≡ answer pages.now (handled pages.now state.now (instruction_tree pages.now resume state.now)) replies.now }
    ensures within { IsWithin (length replies.now) result }
{
    let mut cursor = Cursor {
        state: *state,
        pages,
        replies,
    };
    let end = resume(&mut cursor);
    let taken = replies.len().saturating_sub(cursor.replies.len());
    handled_answer(state, cursor.state, end, taken)
}

fn answer_of(end: Result<End, Stop>, state: VaxState, taken: usize) -> Answer
    ensures { result ≡ answer_of end state taken }
{
    match end {
        Ok(end) => Answer::Comes(end, state, taken),
        Err(Stop::Wants(reference)) => Answer::Wants(reference),
        Err(Stop::Fails(exception)) => Answer::Fails(exception),
    }
}

/// The same where the handler takes exceptions.
fn handled_answer(
    before: &VaxState,
    state: VaxState,
    end: Result<End, Stop>,
    taken: usize,
) -> Answer
    ensures { result ≡ handled_answer before.now state end taken }
{
    match end {
        Ok(End::Traps(kind)) => {
            if state.has_handler() {
                let exception = Exception::Arithmetic(kind);
                Answer::Comes(End::Done, state.delivering(exception), taken)
            } else {
                Answer::Comes(End::Traps(kind), state, taken)
            }
        }
        Err(Stop::Fails(exception)) => {
            if before.has_handler() {
                Answer::Comes(End::Done, before.delivering(exception), taken)
            } else {
                Answer::Fails(exception)
            }
        }
        end => answer_of(end, state, taken),
    }
}

/// Goes through the script of what stands at the cursor's PC: an instruction, or a fault where there is none.
fn played(cursor: &mut Cursor, thread: u8) -> Result<End, Stop>
    ensures plays { Plays (script_at cursor.old.pages.now thread cursor.old.state) cursor.old result cursor.new }
{
    match decode_at(cursor.pages, cursor.state.pc) {
        Decoded::Instr(instr) => instruction_played(cursor, &instr, thread),
        Decoded::Reserved => Err(Stop::Fails(Exception::ReservedInstruction)),
        Decoded::BadMode => Err(Stop::Fails(Exception::ReservedMode)),
        Decoded::Past(address) => {
            let write = false;
            Err(Stop::Fails(Exception::AccessViolation { address, write }))
        }
    }
}

/// Goes through the script of an instruction, long or not.
fn instruction_played(cursor: &mut Cursor, instr: &Instr, thread: u8) -> Result<End, Stop>
    ensures plays { Plays (any_script_of instr.now thread) cursor.old result cursor.new }
{
    if let Some(operation) = long_operation_of(instr.opcode) {
        return long_operation_run(cursor, operation, instr);
    }
    match operation_of(instr.opcode) {
        Some(operation) => operation_run(cursor, operation, instr, thread),
        None => Err(Stop::Fails(Exception::ReservedInstruction)),
    }
}
