// The condition codes, and how an instruction ends.
ghost use Rattle.std.specs.Prelude.{◌≡◌};
ghost use Rattle.vax_form.specs.State.{with_pc};
ghost use Rattle.vax_form.specs.Script.{changed};
ghost use Rattle.vax_meaning.specs.Play.{Plays, Uses, view};
ghost use Rattle.vax_meaning.specs.Codes.{with_codes, with_all, with_three, with_result, sign_of, carry_of, negative_of, zero_of, overflow_of, trap_enabled, go_to, finish};

use crate::cursor::Cursor;
use vax_form::{End, Size, Stop};
use vt_words::Coded;

/// The carry code.
pub fn carry_of(cursor: &Cursor) -> bool
    ensures { result ≡ carry_of cursor.now.state }
{
    cursor.state.psw % 2 == 1
}

/// The overflow code.
pub fn overflow_of(cursor: &Cursor) -> bool
    ensures { result ≡ overflow_of cursor.now.state }
{
    cursor.state.psw / 2 % 2 == 1
}

/// The zero code.
pub fn zero_of(cursor: &Cursor) -> bool
    ensures { result ≡ zero_of cursor.now.state }
{
    cursor.state.psw / 4 % 2 == 1
}

/// The negative code.
pub fn negative_of(cursor: &Cursor) -> bool
    ensures { result ≡ negative_of cursor.now.state }
{
    cursor.state.psw / 8 % 2 == 1
}

/// Whether integer overflow traps.
pub fn trap_enabled(cursor: &Cursor) -> bool
    ensures { result ≡ trap_enabled cursor.now.state }
{
    cursor.state.psw / 32 % 2 == 1
}

/// Sets the four codes.
pub fn set_codes(cursor: &mut Cursor, n: bool, z: bool, v: bool, c: bool)
    ensures { view cursor.new ≡ changed (with_codes n z v c) (view cursor.old) }
{
    let codes = n as u16 * 8 + z as u16 * 4 + v as u16 * 2 + c as u16;
    cursor.state.psw = cursor.state.psw / 16 * 16 + codes;
}

/// Sets the four codes as arithmetic gave them.
pub fn set_all(cursor: &mut Cursor, coded: Coded)
    ensures { view cursor.new ≡ changed (with_all coded) (view cursor.old) }
{
    set_codes(cursor, coded.n, coded.z, coded.v, coded.c);
}

/// Sets N, Z and V as arithmetic gave them, and keeps C.
pub fn set_three(cursor: &mut Cursor, coded: Coded)
    ensures { view cursor.new ≡ changed (with_three coded) (view cursor.old) }
{
    let c = carry_of(cursor);
    set_codes(cursor, coded.n, coded.z, coded.v, c);
}

/// The sign of a value of that size.
pub fn sign_of(size: Size, value: u64) -> bool
    ensures { result ≡ sign_of size value }
{
    match size {
        Size::Byte => value >= 0x80,
        Size::Word => value >= 0x8000,
        Size::Long => value >= 0x8000_0000,
        Size::Quad => value >= 0x8000_0000_0000_0000,
    }
}

/// Sets N and Z by a value, clears V and keeps C.
pub fn set_by_result(cursor: &mut Cursor, size: Size, value: u64)
    ensures { view cursor.new ≡ changed (with_result size value) (view cursor.old) }
{
    let c = carry_of(cursor);
    set_codes(cursor, sign_of(size, value), value == 0, false, c);
}

/// Sets the PC.
pub fn set_pc(cursor: &mut Cursor, pc: u32)
    ensures { view cursor.new ≡ changed (with_pc pc) (view cursor.old) }
{
    cursor.state.pc = pc;
}

/// Goes on at an address.
pub fn go_to(cursor: &mut Cursor, pc: u32) -> Result<End, Stop>
    ensures plays { Plays (go_to pc) cursor.old result cursor.new }
    ensures few { Uses 0 cursor.old result cursor.new }
{
    set_pc(cursor, pc);
    Ok(End::Done)
}

/// Goes on at an address, or traps where the instruction overflowed and integer overflow is enabled.
#[tactic(auto, unfolding(crate::specs::Codes::finish))]
pub fn finish(cursor: &mut Cursor, pc: u32) -> Result<End, Stop>
    ensures plays { Plays (finish pc) cursor.old result cursor.new }
    ensures few { Uses 0 cursor.old result cursor.new }
{
    set_pc(cursor, pc);
    if overflow_of(cursor) && trap_enabled(cursor) {
        Ok(End::Traps(1))
    } else {
        Ok(End::Done)
    }
}
