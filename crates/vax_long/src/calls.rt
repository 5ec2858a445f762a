// Procedure calls: CALLG, CALLS and RET.
ghost use Rattle.std.specs.Prelude.{◌≡◌, ◌<◌};
ghost use Rattle.vax_form.specs.Script.{changed};
ghost use Rattle.vax_meaning.specs.Play.{Plays, Uses, view};
ghost use Rattle.vax_long.specs.Calls.{aligned, is_entry_mask, entry_mask, check_frame, frame_status, push_frame, entry_psw, enter, call_general, call_stack, with_released, release_arguments, leave, return_from_procedure};

use crate::frames::{longword_wanted, may_push_frame, push_wanted};
use crate::registers::{
    check_push, check_registers, is_in_mask, pop, pop_register, pop_registers, push_checked,
    push_registers,
};
use vax_form::{AP, End, Exception, FP, Instr, SP, Size, Stop};
use vax_meaning::{
    Cursor, Evaluated, code_word, fetch, go_to, low_bytes, register_of, set_register_of,
    value_of_place,
};

/// The longword in which an address lies.
pub fn aligned(address: u32) -> u32
    ensures { result ≡ aligned address }
{
    address / 4 * 4
}

/// Whether bits 13:12 of an entry mask are 0.
pub fn is_entry_mask(mask: u32) -> bool
    ensures { result ≡ is_entry_mask mask }
{
    mask / 4096 % 4 == 0
}

/// The entry mask at a procedure's address.
#[tactic(auto, unfolding(crate::specs::Calls::entry_mask))]
pub fn entry_mask(cursor: &mut Cursor, destination: u32) -> Result<u32, Stop>
    ensures plays { Plays (entry_mask destination) cursor.old result cursor.new }
    ensures few { Uses 0 cursor.old result cursor.new }
{
    let mask = code_word(cursor, destination)?;
    if is_entry_mask(mask) {
        Ok(mask)
    } else {
        Err(Stop::Fails(Exception::ReservedOperand))
    }
}

/// Checks the pushes of a call frame one by one.
#[tactic(auto, unfolding(crate::specs::Calls::check_frame))]
fn check_each_push(cursor: &mut Cursor, mask: u32, top: u32) -> Result<(), Stop>
    ensures plays { Plays (check_frame mask top) cursor.old result cursor.new }
    ensures few { Uses 0 cursor.old result cursor.new }
{
    let saved = check_registers(cursor, 12, mask, top)?;
    let pc = check_push(cursor, saved)?;
    let fp = check_push(cursor, pc)?;
    let ap = check_push(cursor, fp)?;
    let status = check_push(cursor, ap)?;
    check_push(cursor, status)?;
    Ok(())
}

/// Checks the pushes of a call frame: at once, where all of it may be written.
pub fn check_frame(cursor: &mut Cursor, mask: u32, top: u32) -> Result<(), Stop>
    ensures plays { Plays (check_frame mask top) cursor.old result cursor.new }
    ensures few { Uses 0 cursor.old result cursor.new }
{
    if may_push_frame(cursor.pages, mask, top) {
        Ok(())
    } else {
        check_each_push(cursor, mask, top)
    }
}

/// The status in a frame: how far SP was aligned, whether the arguments are on the stack, the mask and the PSW.
pub fn frame_status(low: u32, stack: bool, mask: u32, psw: u16) -> u32
    requires { low < 4 }
    ensures { result ≡ frame_status low stack mask psw }
{
    low * 0x4000_0000 + stack as u32 * 0x2000_0000 + mask % 4096 * 0x1_0000 + psw as u32 / 32 * 32
}

/// Aligns SP, and pushes a call frame longword by longword.
#[tactic(auto, unfolding(crate::specs::Calls::push_frame))]
fn push_each(cursor: &mut Cursor, pc: u32, stack: bool, mask: u32) -> Result<(), Stop>
    ensures plays { Plays (push_frame pc stack mask) cursor.old result cursor.new }
    ensures few { Uses 34 cursor.old result cursor.new }
{
    let state = cursor.state;
    let top = state.register(SP);
    set_register_of(cursor, SP, aligned(top));
    push_registers(cursor, 12, mask, &state)?;
    push_checked(cursor, pc)?;
    push_checked(cursor, state.register(FP))?;
    push_checked(cursor, state.register(AP))?;
    push_checked(cursor, frame_status(top % 4, stack, mask, state.psw))?;
    push_checked(cursor, 0)
}

/// Aligns SP, and pushes a call frame. What it wants is told by how many replies there are.
fn push_frame(cursor: &mut Cursor, pc: u32, stack: bool, mask: u32) -> Result<(), Stop>
    ensures plays { Plays (push_frame pc stack mask) cursor.old result cursor.new }
    ensures few { Uses 34 cursor.old result cursor.new }
{
    match push_wanted(&cursor.state, pc, stack, mask, cursor.replies) {
        Some(reference) => {
            cursor.replies = &[];
            Err(Stop::Wants(reference))
        }
        None => push_each(cursor, pc, stack, mask),
    }
}

/// The PSW in a procedure.
pub fn entry_psw(mask: u32, psw: u16) -> u16
    ensures { result ≡ entry_psw mask psw }
{
    let decimal = (mask / 0x8000 % 2) as u16;
    let integer = (mask / 0x4000 % 2) as u16;
    psw / 256 * 256 + decimal * 128 + integer * 32 + psw / 16 % 2 * 16
}

/// Enters a procedure behind its mask.
#[tactic(auto, unfolding(crate::specs::Calls::enter))]
pub fn enter(cursor: &mut Cursor, destination: u32, mask: u32, list: u32) -> Result<End, Stop>
    ensures plays { Plays (enter destination mask list) cursor.old result cursor.new }
    ensures few { Uses 0 cursor.old result cursor.new }
{
    let frame = register_of(cursor, SP);
    set_register_of(cursor, FP, frame);
    set_register_of(cursor, AP, list);
    cursor.state.psw = entry_psw(mask, cursor.state.psw);
    go_to(cursor, destination.wrapping_add(2))
}

/// CALLG.
#[tactic(auto, unfolding(crate::specs::Calls::call_general))]
pub fn call_general(
    cursor: &mut Cursor,
    instr: &Instr,
    values: &[Evaluated; 6],
) -> Result<End, Stop>
    ensures plays { Plays (call_general instr.now values.now) cursor.old result cursor.new }
    ensures few { Uses 34 cursor.old result cursor.new }
{
    let destination = value_of_place(values, 1, Size::Long) as u32;
    let mask = entry_mask(cursor, destination)?;
    let top = register_of(cursor, SP);
    check_frame(cursor, mask, aligned(top))?;
    push_frame(cursor, instr.after, false, mask)?;
    let list = value_of_place(values, 0, Size::Long) as u32;
    enter(cursor, destination, mask, list)
}

/// CALLS.
#[tactic(auto, unfolding(crate::specs::Calls::call_stack))]
pub fn call_stack(cursor: &mut Cursor, instr: &Instr, values: &[Evaluated; 6]) -> Result<End, Stop>
    ensures plays { Plays (call_stack instr.now values.now) cursor.old result cursor.new }
    ensures few { Uses 36 cursor.old result cursor.new }
{
    let destination = value_of_place(values, 1, Size::Long) as u32;
    let mask = entry_mask(cursor, destination)?;
    let top = register_of(cursor, SP);
    let list = check_push(cursor, top)?;
    check_frame(cursor, mask, aligned(list))?;
    push_checked(cursor, value_of_place(values, 0, Size::Long) as u32)?;
    push_frame(cursor, instr.after, true, mask)?;
    enter(cursor, destination, mask, list)
}

/// Raises SP.
pub fn release(cursor: &mut Cursor, bytes: u32)
    ensures { view cursor.new ≡ changed (with_released bytes) (view cursor.old) }
{
    let top = register_of(cursor, SP);
    set_register_of(cursor, SP, top.wrapping_add(bytes));
}

/// Takes the argument list of CALLS off the stack.
#[tactic(auto, unfolding(crate::specs::Calls::release_arguments))]
fn release_arguments(cursor: &mut Cursor, stack: bool) -> Result<(), Stop>
    ensures plays { Plays (release_arguments stack) cursor.old result cursor.new }
    ensures few { Uses 2 cursor.old result cursor.new }
{
    if stack {
        let count = pop(cursor)?;
        release(cursor, count % 256 * 4);
    }
    Ok(())
}

/// Leaves a frame by its status.
#[tactic(auto, unfolding(crate::specs::Calls::leave))]
fn leave(cursor: &mut Cursor, frame: u32, status: u32) -> Result<End, Stop>
    ensures plays { Plays (leave frame status) cursor.old result cursor.new }
    ensures few { Uses 32 cursor.old result cursor.new }
{
    set_register_of(cursor, SP, frame.wrapping_add(8));
    pop_register(cursor, AP)?;
    pop_register(cursor, FP)?;
    let pc = pop(cursor)?;
    pop_registers(cursor, 12, status / 0x1_0000)?;
    release(cursor, status / 0x4000_0000);
    release_arguments(cursor, is_in_mask(29, status))?;
    cursor.state.psw = (status % 0x1_0000) as u16;
    go_to(cursor, pc)
}

/// Goes through RET.
#[tactic(auto, unfolding(crate::specs::Calls::return_from_procedure))]
fn returned(cursor: &mut Cursor) -> Result<End, Stop>
    ensures plays { Plays return_from_procedure cursor.old result cursor.new }
    ensures few { Uses 34 cursor.old result cursor.new }
{
    let frame = register_of(cursor, FP);
    let longword = fetch(cursor, frame.wrapping_add(4), 4)?;
    let status = low_bytes(4, longword) as u32;
    if status / 256 % 256 == 0 {
        leave(cursor, frame, status)
    } else {
        Err(Stop::Fails(Exception::ReservedOperand))
    }
}

/// RET. What it wants of an aligned frame is told by how many replies there are.
pub fn return_from_procedure(cursor: &mut Cursor) -> Result<End, Stop>
    ensures plays { Plays return_from_procedure cursor.old result cursor.new }
    ensures few { Uses 34 cursor.old result cursor.new }
{
    match longword_wanted(&cursor.state, cursor.pages, cursor.replies) {
        Some(reference) => {
            cursor.replies = &[];
            Err(Stop::Wants(reference))
        }
        None => returned(cursor),
    }
}
