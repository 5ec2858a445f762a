// What is pending: the delivery of an exception to the handler, and a resumption.
ghost use Rattle.std.specs.Prelude.{◌≡◌, ◌≢◌, ℕ, is_none, true};
ghost use Rattle.vax_form.specs.Moments.{settled};
ghost use Rattle.vax_form.specs.Pages.{first_bad};
ghost use Rattle.vax_form.specs.Tree.{answer, instruction_tree, outcome};
ghost use Rattle.vax_meaning.specs.Play.{Plays, Uses, Within};
ghost use Rattle.vax_long.specs.Pending.{frame_address, frame_bytes, go_on, push_exception, delivery, is_user_psl, resume, moment_at};

use crate::bytes::{check_string, first_bad};
use crate::meaning::seen_of;
use crate::registers::{pop_checked, push_checked};
use vax_form::{End, Exception, Outcome, Pages, Pending, SP, Stop, USER_MODE, VaxState};
use vax_meaning::{Cursor, go_to, register_of};

/// The frame of an exception: five longwords.
const FRAME_BYTES: u16 = 20;

/// Whether the frame of an exception may be written below a state's SP.
pub fn frame_is_allowed(state: &VaxState, pages: &Pages) -> bool
    ensures { result ≡ is_none (first_bad pages.now true (frame_address state.now) frame_bytes) }
{
    let frame = state.register(SP).wrapping_sub(FRAME_BYTES as u32);
    first_bad(pages, frame, FRAME_BYTES, true).is_none()
}

/// Goes on at an address with that PSW, and nothing pending.
#[tactic(auto, unfolding(crate::specs::Pending::go_on))]
fn go_on(cursor: &mut Cursor, pc: u32, psw: u16) -> Result<End, Stop>
    ensures plays { Plays (go_on pc psw) cursor.old result cursor.new }
    ensures few { Uses 0 cursor.old result cursor.new }
{
    cursor.state.psw = psw;
    cursor.state.pending = Pending::Nothing;
    go_to(cursor, pc)
}

/// Pushes the frame of an exception, whose place was checked, and goes on at the handler.
#[tactic(auto, unfolding(crate::specs::Pending::push_exception))]
pub fn push_exception(cursor: &mut Cursor, exception: Exception) -> Result<End, Stop>
    ensures plays { Plays (push_exception exception) cursor.old result cursor.new }
    ensures few { Uses 10 cursor.old result cursor.new }
{
    let state = cursor.state;
    push_checked(cursor, state.psl())?;
    push_checked(cursor, state.pc)?;
    push_checked(cursor, exception.intent())?;
    push_checked(cursor, exception.parameter())?;
    push_checked(cursor, exception.vector() as u32)?;
    go_on(cursor, state.handler, 0)
}

/// User mode, and a low word whose high byte is 0.
fn is_user_psl(psl: u32) -> bool
    ensures { result ≡ is_user_psl psl }
{
    psl / 256 * 256 == USER_MODE
}

/// Goes on as the frame at SP says.
#[tactic(auto, unfolding(crate::specs::Pending::resume))]
pub fn resume(cursor: &mut Cursor) -> Result<End, Stop>
    ensures plays { Plays resume cursor.old result cursor.new }
    ensures few { Uses 10 cursor.old result cursor.new }
{
    let frame = register_of(cursor, SP);
    check_string(cursor, frame, FRAME_BYTES, false)?;
    pop_checked(cursor)?;
    pop_checked(cursor)?;
    pop_checked(cursor)?;
    let pc = pop_checked(cursor)?;
    let psl = pop_checked(cursor)?;
    if is_user_psl(psl) {
        go_on(cursor, pc, (psl % 256) as u16)
    } else {
        Err(Stop::Fails(Exception::ReservedOperand))
    }
}

/// Delivers an exception to the handler, where its frame may be written; else raises it.
fn delivered(state: &VaxState, pages: &Pages, exception: Exception, replies: &[u64]) -> Outcome
    ensures value { result ≡ outcome state.now (answer pages.now (delivery pages.now exception state.now) replies.now) }
    ensures few { Within 10 replies.now result }
{
    if !frame_is_allowed(state, pages) {
        return Outcome::Raises(exception, *state);
    }
    let mut cursor = Cursor {
        state: *state,
        pages,
        replies,
    };
    let end = push_exception(&mut cursor, exception);
    seen_of(state, &cursor.state, end)
}

/// Resumes, whoever takes its exceptions.
fn resumption(state: &VaxState, pages: &Pages, replies: &[u64]) -> Outcome
    ensures value { result ≡ outcome state.now (answer pages.now (instruction_tree pages.now resume state.now) replies.now) }
    ensures few { Within 10 replies.now result }
{
    let mut cursor = Cursor {
        state: *state,
        pages,
        replies,
    };
    let end = resume(&mut cursor);
    seen_of(state, &cursor.state, end)
}

/// What a thread comes to at a state where something is pending, with the replies to its references so far: a delivery
/// of the exception to its handler, or a resumption, whose exceptions the handler takes. Replies that are not wanted are
/// ignored.
pub fn next_pending(state: &VaxState, pages: &Pages, replies: &[u64]) -> Outcome
    requires pending { state.now.pending ≢ Pending.Nothing }
    ensures value { (thread : ℕ) → result ≡ outcome state.now (answer pages.now (moment_at pages.now thread state.now) replies.now) }
    ensures few { Within 10 replies.now result }
{
    match state.pending {
        Pending::Deliver(exception) => delivered(state, pages, exception, replies),
        Pending::Resume => settle(resumption(state, pages, replies)),
        Pending::Nothing => Outcome::Done(*state),
    }
}

/// What is seen where the handler takes exceptions: one that is raised in a state that has a handler is done, and is
/// delivered next; every other outcome stays.
pub fn settle(outcome: Outcome) -> Outcome
    ensures { result ≡ settled outcome }
{
    match outcome {
        Outcome::Raises(exception, state) => {
            if state.has_handler() {
                Outcome::Done(state.delivering(exception))
            } else {
                outcome
            }
        }
        _ => outcome,
    }
}
