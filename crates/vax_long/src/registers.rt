// Lists of registers on the stack: PUSHR and POPR.
ghost use Rattle.std.specs.Prelude.{◌≡◌, ◌<◌, ◌≤◌, ◌+◌, ◌*◌};
ghost use Rattle.vax_form.specs.Script.{pure, when◌then◌else◌};
ghost use Rattle.vax_meaning.specs.Play.{Plays, Uses};
ghost use Rattle.vax_long.specs.Registers.{is_in_mask, below, check_push, check_registers, push_checked, push_registers, pop_checked, pop, pop_register, pop_registers, push_by_mask, pop_by_mask};

use vax_form::{End, Instr, SP, Size, Stop, VaxState};
use vax_meaning::{
    Cursor, Evaluated, check, go_to, low_bytes, read, register_of, set_register_of, value_of_place,
    write,
};

/// Whether the bit of that number is set.
pub fn is_in_mask(number: u8, mask: u32) -> bool
    requires { number < 32 }
    ensures { result ≡ is_in_mask number mask }
{
    (mask >> number) % 2 == 1
}

/// Checks the longword below the top of the stack, and gives its address, the next top.
#[tactic(auto, unfolding(crate::specs::Registers::check_push))]
pub fn check_push(cursor: &mut Cursor, top: u32) -> Result<u32, Stop>
    ensures plays { Plays (check_push top) cursor.old result cursor.new }
    ensures few { Uses 0 cursor.old result cursor.new }
{
    let next = top.wrapping_sub(4);
    check(cursor, next, 4, true)?;
    Ok(next)
}

/// Does so where a register is in the mask.
fn check_push_if(cursor: &mut Cursor, wanted: bool, top: u32) -> Result<u32, Stop>
    ensures plays { Plays (when wanted then check_push top else pure top) cursor.old result cursor.new }
    ensures few { Uses 0 cursor.old result cursor.new }
{
    if wanted {
        check_push(cursor, top)
    } else {
        Ok(top)
    }
}

/// Checks the pushes of the registers below that number by a mask, and gives the top behind them.
#[tactic(auto, unfolding(crate::specs::Registers::check_registers))]
pub fn check_registers(cursor: &mut Cursor, number: u8, mask: u32, top: u32) -> Result<u32, Stop>
    requires { number < 32 }
    ensures plays { Plays (check_registers number mask top) cursor.old result cursor.new }
    ensures few { Uses 0 cursor.old result cursor.new }
{
    let mut next = top;
    for done in 0..number {
        let wanted = is_in_mask(number - (done + 1), mask);
        next = check_push_if(cursor, wanted, next)?;
    }
    Ok(next)
}

/// Pushes a longword whose place was checked.
#[tactic(auto, unfolding(crate::specs::Registers::push_checked))]
pub fn push_checked(cursor: &mut Cursor, value: u32) -> Result<(), Stop>
    ensures plays { Plays (push_checked value) cursor.old result cursor.new }
    ensures few { Uses 2 cursor.old result cursor.new }
{
    let top = register_of(cursor, SP).wrapping_sub(4);
    write(cursor, top, 4, value as u64)?;
    set_register_of(cursor, SP, top);
    Ok(())
}

/// Does so where a register is in the mask.
fn push_checked_if(cursor: &mut Cursor, wanted: bool, value: u32) -> Result<(), Stop>
    ensures plays { Plays (when wanted then push_checked value else pure tt) cursor.old result cursor.new }
    ensures few { Uses 2 cursor.old result cursor.new }
{
    if wanted {
        push_checked(cursor, value)
    } else {
        Ok(())
    }
}

/// Pushes the registers below that number by a mask, highest first, with the values that a state has.
#[tactic(auto, unfolding(crate::specs::Registers::push_registers))]
pub fn push_registers(
    cursor: &mut Cursor,
    number: u8,
    mask: u32,
    values: &VaxState,
) -> Result<(), Stop>
    requires { number < 32 }
    ensures plays { Plays (push_registers number mask values.now) cursor.old result cursor.new }
    ensures few { Uses (2 * number) cursor.old result cursor.new }
{
    for done in 0..number {
        let next = number - (done + 1);
        push_checked_if(cursor, is_in_mask(next, mask), values.register(next))?;
    }
    Ok(())
}

/// Pops a longword whose place was checked.
#[tactic(auto, unfolding(crate::specs::Registers::pop_checked))]
pub fn pop_checked(cursor: &mut Cursor) -> Result<u32, Stop>
    ensures plays { Plays pop_checked cursor.old result cursor.new }
    ensures few { Uses 2 cursor.old result cursor.new }
{
    let top = register_of(cursor, SP);
    let value = read(cursor, top, 4)?;
    set_register_of(cursor, SP, top.wrapping_add(4));
    Ok(low_bytes(4, value) as u32)
}

/// Checks and pops a longword.
#[tactic(auto, unfolding(crate::specs::Registers::pop))]
pub fn pop(cursor: &mut Cursor) -> Result<u32, Stop>
    ensures plays { Plays pop cursor.old result cursor.new }
    ensures few { Uses 2 cursor.old result cursor.new }
{
    check(cursor, register_of(cursor, SP), 4, false)?;
    pop_checked(cursor)
}

/// Pops into a register.
#[tactic(auto, unfolding(crate::specs::Registers::pop_register))]
pub fn pop_register(cursor: &mut Cursor, number: u8) -> Result<(), Stop>
    ensures plays { Plays (pop_register number) cursor.old result cursor.new }
    ensures few { Uses 2 cursor.old result cursor.new }
{
    let value = pop(cursor)?;
    set_register_of(cursor, number, value);
    Ok(())
}

/// Does so where a register is in the mask.
fn pop_register_if(cursor: &mut Cursor, wanted: bool, number: u8) -> Result<(), Stop>
    ensures plays { Plays (when wanted then pop_register number else pure tt) cursor.old result cursor.new }
    ensures few { Uses 2 cursor.old result cursor.new }
{
    if wanted {
        pop_register(cursor, number)
    } else {
        Ok(())
    }
}

/// Pops the registers below that number by a mask, lowest first.
#[tactic(auto, unfolding(crate::specs::Registers::pop_registers))]
pub fn pop_registers(cursor: &mut Cursor, count: u8, mask: u32) -> Result<(), Stop>
    requires { count < 32 }
    ensures plays { Plays (pop_registers count 0 mask) cursor.old result cursor.new }
    ensures few { Uses (2 * count) cursor.old result cursor.new }
{
    for number in 0..count {
        pop_register_if(cursor, is_in_mask(number, mask), number)?;
    }
    Ok(())
}

/// PUSHR.
#[tactic(auto, unfolding(crate::specs::Registers::push_by_mask))]
pub fn push_by_mask(
    cursor: &mut Cursor,
    instr: &Instr,
    values: &[Evaluated; 6],
) -> Result<End, Stop>
    ensures plays { Plays (push_by_mask instr.now values.now) cursor.old result cursor.new }
    ensures few { Uses 30 cursor.old result cursor.new }
{
    let mask = value_of_place(values, 0, Size::Word) as u32;
    let state = cursor.state;
    check_registers(cursor, 15, mask, state.register(SP))?;
    push_registers(cursor, 15, mask, &state)?;
    go_to(cursor, instr.after)
}

/// POPR.
#[tactic(auto, unfolding(crate::specs::Registers::pop_by_mask))]
pub fn pop_by_mask(cursor: &mut Cursor, instr: &Instr, values: &[Evaluated; 6]) -> Result<End, Stop>
    ensures plays { Plays (pop_by_mask instr.now values.now) cursor.old result cursor.new }
    ensures few { Uses 30 cursor.old result cursor.new }
{
    let mask = value_of_place(values, 0, Size::Word) as u32;
    pop_registers(cursor, 15, mask)?;
    go_to(cursor, instr.after)
}
