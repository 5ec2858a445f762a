// Call frames as a whole: whether one may be pushed, and which longword of one is written or read next.
ghost use Rattle.std.specs.Prelude.{◌≡◌, ◌≤◌, ◌<◌, ◌+◌, ◌*◌, ◌-◌, ◌%◌, ◌^◌, IfSome, IfNone, [], Err, None, true, length, slice_index, suc};
ghost use Rattle.vax_form.specs.Script.{run};
ghost use Rattle.vax_form.specs.Pages.{first_bad};
ghost use Rattle.vax_form.specs.declared.pages.Pages.{Pages};
ghost use Rattle.vax_form.specs.State.{register};
ghost use Rattle.vax_form.specs.declared.state.VaxState.{VaxState};
ghost use Rattle.vax_form.specs.declared.script.Stop.TheVariants.{Wants};
ghost use Rattle.vt_words.specs.Values.{bit};
ghost use Rattle.vax_long.specs.Calls.{frame_values, longwords_in, longwords_of, push_frame, return_from_procedure, saved_values};
ghost use Rattle.vax_long.specs.Registers.{registers_in};

use crate::bytes::first_bad;
use crate::calls::{aligned, frame_status};
use crate::registers::is_in_mask;
use vax_form::{AP, FP, Pages, RefKind, Reference, SP, VaxState};
use vax_meaning::low_bytes;

/// A frame has these longwords besides the saved registers: the PC, FP, AP, the status and the handler.
const OTHER_LONGWORDS: u32 = 5;

/// A call saves R0 to R11.
const SAVED_REGISTERS: u8 = 12;

fn bit(is_set: bool) -> u32
    ensures { result ≡ bit is_set }
{
    u32::from(is_set)
}

/// How many of R0 to R11 are in the mask.
fn saved_registers(mask: u32) -> u32
    ensures count { result ≡ registers_in 12 0 mask }
    ensures few { result ≤ 12 }
{
    let mut count = 0;
    for number in 0..SAVED_REGISTERS {
        count += bit(is_in_mask(number, mask));
    }
    count
}

/// Whether all longwords of a call frame that ends below that top may be written.
pub(crate) fn may_push_frame(pages: &Pages, mask: u32, top: u32) -> bool
    ensures { result ≡ true → first_bad pages.now true ((top + (2 ^ 32 - 4 * (registers_in 12 0 mask + 5))) % 2 ^ 32) (4 * (registers_in 12 0 mask + 5)) ≡ None }
{
    let bytes = 4 * (saved_registers(mask) + OTHER_LONGWORDS);
    first_bad(pages, top.wrapping_sub(bytes), bytes as u16, true).is_none()
}

/// How many longwords RET reads one behind the other, from the status on.
fn longwords_in(status: u32) -> u32
    ensures count { result ≡ longwords_in status }
    ensures few { result ≤ 17 }
{
    let counted = status / 0x2000_0000 == 1;
    4 + saved_registers(status / 0x1_0000) + bit(counted)
}

/// How many longwords RET reads one behind the other, by those that it read.
fn longwords_of(replies: &[u64]) -> usize
    ensures count { result ≡ longwords_of replies.now }
    ensures few { result ≤ 17 }
{
    match replies {
        [] => 1,
        [longword, ..] => {
            let status = low_bytes(4, *longword) as u32;
            if status / 256 % 256 == 0 {
                longwords_in(status) as usize
            } else {
                0
            }
        }
    }
}

/// It does nothing, and brings that a state has fifteen registers.
fn all_registers(state: &VaxState)
    ensures { length state.now.r ≡ 15 }
{
    let _ = &state.r;
}

/// The longword that RET wants behind those that it read, where its frame is aligned and it may be read.
pub fn longword_wanted(state: &VaxState, pages: &Pages, replies: &[u64]) -> Option<Reference>
    ensures wanted { IfSome result (λ reference. run return_from_procedure (record { state = state.now; pages = pages.now; replies = replies.now }) ≡ Err (Wants reference, [])) }
    ensures few { IfSome result (λ reference. length replies.now < 34) }
{
    all_registers(state);
    let frame = state.register(FP).wrapping_add(4);
    let made = replies.len();
    if frame % 4 != 0 || made >= longwords_of(replies) {
        return None;
    }
    let bytes = 4 * made as u16;
    if first_bad(pages, frame, bytes + 4, false).is_some() {
        return None;
    }
    Some(Reference {
        address: frame.wrapping_add(u32::from(bytes)),
        count: 4,
        kind: RefKind::Read,
    })
}

/// How many registers are left to pass behind one, unless it is the one that is looked for.
fn left_behind(number: u8, mask: u32, left: usize) -> Option<usize>
    requires { number < 32 }
    ensures here { IfNone result ((state : VaxState) → slice_index (saved_values (suc number) mask state) left ≡ register number state) }
    ensures behind { IfSome result (λ rest. (state : VaxState) → slice_index (saved_values (suc number) mask state) left ≡ slice_index (saved_values number mask state) rest) }
{
    if !is_in_mask(number, mask) {
        return Some(left);
    }
    if left == 0 {
        return None;
    }
    Some(left - 1)
}

/// The value of the saved register that is pushed behind so many others, highest first.
fn saved_value(state: &VaxState, mask: u32, place: usize) -> u32
    ensures { result ≡ slice_index (saved_values 12 mask state.now) place }
{
    let mut left = place;
    for done in 0..SAVED_REGISTERS {
        let number = SAVED_REGISTERS - (done + 1);
        match left_behind(number, mask, left) {
            Some(rest) => left = rest,
            None => return state.register(number),
        }
    }
    0
}

/// The longword of a call frame that is pushed behind so many others.
fn frame_value(state: &VaxState, pc: u32, stack: bool, mask: u32, place: usize) -> u32
    ensures { result ≡ slice_index (frame_values pc stack mask state.now) place }
{
    let saved = saved_registers(mask) as usize;
    if place < saved {
        return saved_value(state, mask, place);
    }
    match place - saved {
        0 => pc,
        1 => state.register(FP),
        2 => state.register(AP),
        3 => frame_status(state.register(SP) % 4, stack, mask, state.psw),
        _ => 0,
    }
}

/// The push of a call frame behind so many others, where it has as many.
pub(crate) fn push_wanted(
    state: &VaxState,
    pc: u32,
    stack: bool,
    mask: u32,
    replies: &[u64],
) -> Option<Reference>
    ensures wanted { IfSome result (λ reference. (pages : Pages) → run (push_frame pc stack mask) (record { state = state.now; pages = pages; replies = replies.now }) ≡ Err (Wants reference, [])) }
    ensures few { IfSome result (λ reference. length replies.now < 34) }
{
    all_registers(state);
    let made = replies.len();
    if made >= (saved_registers(mask) + OTHER_LONGWORDS) as usize {
        return None;
    }
    let top = aligned(state.register(SP));
    let value = frame_value(state, pc, stack, mask, made);
    Some(Reference {
        address: top.wrapping_sub(4 * (made as u32 + 1)),
        count: 4,
        kind: RefKind::Write(low_bytes(4, u64::from(value))),
    })
}
