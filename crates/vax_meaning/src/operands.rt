// Where operands are, and how they are read and stored.
ghost use Rattle.std.specs.Prelude.{◌≡◌, ℕ, ◌+◌, ◌-◌, ◌*◌, ◌%◌, ◌^◌, ◌<◌, ◌≤◌, IfOk};
ghost use Rattle.vax_form.specs.Size.{bytes_of};
ghost use Rattle.vax_form.specs.State.{register, with_register};
ghost use Rattle.vax_form.specs.Script.{changed};
ghost use Rattle.vax_meaning.specs.Play.{Plays, Uses, view};
ghost use Rattle.vax_meaning.specs.Operands.{base_address, through, place_address, register_value, locate, modify_at, put, store};

use crate::cursor::Cursor;
use crate::memory::{check, fetch, low_bytes, read, write};
use vax_form::{Base, Operand, Size, Stop};

/// Where an operand is that is written.
#[derive(Clone, Copy, Debug, PartialEq, Eq)]
pub enum Location {
    InRegister(u8),
    InMemory(u32),
}

/// A register, or 0 where there is none of that number.
pub fn register_of(cursor: &Cursor, number: u8) -> u32
    ensures { result ≡ register number cursor.now.state }
{
    cursor.state.register(number)
}

/// Changes a register.
pub fn set_register_of(cursor: &mut Cursor, number: u8, value: u32)
    ensures { view cursor.new ≡ changed (with_register number value) (view cursor.old) }
{
    cursor.state.set_register(number, value);
}

/// The address itself, or the one that the longword there has.
fn through(cursor: &mut Cursor, address: u32, deferred: bool) -> Result<u32, Stop>
    ensures plays { Plays (through address deferred) cursor.old result cursor.new }
    ensures few { Uses 2 cursor.old result cursor.new }
{
    if deferred {
        let longword = fetch(cursor, address, 4)?;
        Ok(low_bytes(4, longword) as u32)
    } else {
        Ok(address)
    }
}

/// The address of a base, with its side effect.
#[tactic(auto, unfolding(crate::specs::Operands::base_address))]
fn base_address(cursor: &mut Cursor, base: Base, size: u32) -> Result<u32, Stop>
    requires { size ≤ 8 }
    ensures plays { Plays (base_address base size) cursor.old result cursor.new }
    ensures few { Uses 2 cursor.old result cursor.new }
{
    match base {
        Base::Deferred(register) => Ok(register_of(cursor, register)),
        Base::Decrement(register) => {
            let address = register_of(cursor, register).wrapping_sub(size);
            set_register_of(cursor, register, address);
            Ok(address)
        }
        Base::Increment(register) => {
            let address = register_of(cursor, register);
            set_register_of(cursor, register, address.wrapping_add(size));
            Ok(address)
        }
        Base::IncrementDeferred(register) => {
            let address = register_of(cursor, register);
            set_register_of(cursor, register, address.wrapping_add(4));
            through(cursor, address, true)
        }
        Base::Offset {
            register,
            offset,
            deferred,
        } => {
            let address = register_of(cursor, register).wrapping_add(offset);
            through(cursor, address, deferred)
        }
        Base::Fixed { address, deferred } => through(cursor, address, deferred),
    }
}

/// The address of an operand in memory, with the side effect of its base.
#[tactic(auto, unfolding(crate::specs::Operands::place_address))]
fn place_address(cursor: &mut Cursor, base: Base, index: Option<u8>, size: u32) -> Result<u32, Stop>
    requires { size ≤ 8 }
    ensures plays { Plays (place_address base index size) cursor.old result cursor.new }
    ensures few { Uses 2 cursor.old result cursor.new }
{
    let address = base_address(cursor, base, size)?;
    match index {
        None => Ok(address),
        Some(register) => {
            let steps = register_of(cursor, register).wrapping_mul(size);
            Ok(address.wrapping_add(steps))
        }
    }
}

/// What a register operand has.
pub fn register_value(cursor: &Cursor, number: u8, size: u32) -> u64
    requires { size ≤ 8 }
    ensures { result ≡ register_value number size cursor.now.state }
{
    let first = register_of(cursor, number) as u64;
    if size < 8 {
        low_bytes(size, first)
    } else {
        let second = register_of(cursor, number.saturating_add(1)) as u64;
        first + second * 0x1_0000_0000
    }
}

/// Finds where an operand is.
#[tactic(auto, unfolding(crate::specs::Operands::locate))]
pub fn locate(cursor: &mut Cursor, operand: Operand, size: Size) -> Result<Location, Stop>
    ensures plays { Plays (locate operand size) cursor.old result cursor.new }
    ensures few { Uses 2 cursor.old result cursor.new }
{
    match operand {
        Operand::Register(number) => Ok(Location::InRegister(number)),
        Operand::Place { base, index } => {
            let address = place_address(cursor, base, index, size.bytes())?;
            Ok(Location::InMemory(address))
        }
        Operand::Unused | Operand::Value(_) | Operand::Target(_) => Ok(Location::InMemory(0)),
    }
}

/// Checks with write intent, and reads, what is at a place.
#[tactic(auto, unfolding(crate::specs::Operands::modify_at))]
pub fn modify_at(cursor: &mut Cursor, location: Location, size: Size) -> Result<u64, Stop>
    ensures plays { Plays (modify_at location size) cursor.old result cursor.new }
    ensures few { Uses 2 cursor.old result cursor.new }
    ensures bound { IfOk result (λ value. value < 2 ^ (8 * bytes_of size)) }
{
    let bytes = size.bytes();
    match location {
        Location::InRegister(number) => Ok(low_bytes(bytes, register_value(cursor, number, bytes))),
        Location::InMemory(address) => {
            check(cursor, address, bytes, true)?;
            let value = read(cursor, address, bytes)?;
            Ok(low_bytes(bytes, value))
        }
    }
}

/// Puts a value where an operand is, which was checked.
#[tactic(auto, unfolding(crate::specs::Operands::put))]
pub fn put(cursor: &mut Cursor, location: Location, size: Size, value: u64) -> Result<(), Stop>
    ensures plays { Plays (put location size value) cursor.old result cursor.new }
    ensures few { Uses 2 cursor.old result cursor.new }
{
    match location {
        Location::InRegister(number) => {
            let old = register_of(cursor, number) as u64;
            let new = match size {
                Size::Byte => old / 256 * 256 + value % 256,
                Size::Word => old / 65536 * 65536 + value % 65536,
                Size::Long | Size::Quad => value % 0x1_0000_0000,
            };
            set_register_of(cursor, number, new as u32);
            if size == Size::Quad {
                let second = value / 0x1_0000_0000;
                set_register_of(cursor, number.saturating_add(1), second as u32);
            }
            Ok(())
        }
        Location::InMemory(address) => write(cursor, address, size.bytes(), value),
    }
}

/// Checks where an operand is, and puts a value there.
#[tactic(auto, unfolding(crate::specs::Operands::store))]
pub fn store(cursor: &mut Cursor, location: Location, size: Size, value: u64) -> Result<(), Stop>
    ensures plays { Plays (store location size value) cursor.old result cursor.new }
    ensures few { Uses 2 cursor.old result cursor.new }
{
    match location {
        Location::InRegister(_) => put(cursor, location, size, value),
        Location::InMemory(address) => {
            check(cursor, address, size.bytes(), true)?;
            put(cursor, location, size, value)
        }
    }
}
