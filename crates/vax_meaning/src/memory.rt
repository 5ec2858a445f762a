// Checks and references of operands in memory.
ghost use Rattle.std.specs.Prelude.{◌≡◌, ℕ, ◌+◌, ◌-◌, ◌*◌, ◌%◌, ◌^◌, ◌<◌, ◌≤◌, IfOk};
ghost use Rattle.vax_form.specs.Script.{ask};
ghost use Rattle.vax_meaning.specs.Play.{Plays, Uses};
ghost use Rattle.vax_meaning.specs.Memory.{front_count, next_part, low_bytes, check, read_part, read, write_part, write, fetch, lock, code_word};

use crate::cursor::Cursor;
use vax_form::{Exception, RefKind, Reference, Stop};

/// The low bytes of a value.
pub fn low_bytes(bytes: u32, value: u64) -> u64
    requires { bytes ≤ 8 }
    ensures value { result ≡ low_bytes bytes value }
    ensures bound { result < 2 ^ (8 * bytes) }
{
    if bytes < 8 {
        value % unit(bytes)
    } else {
        value
    }
}

/// How many of the bytes from the address on stand in its aligned quadword.
fn front_count(address: u32, count: u32) -> u32
    ensures { result ≡ front_count address count }
{
    count.min(8 - address % 8)
}

/// Where the second part of an operand begins.
fn next_part(address: u32, count: u32) -> u32
    ensures { result ≡ next_part address count }
{
    address.wrapping_add(front_count(address, count))
}

/// What the byte of that number counts.
fn unit(byte: u32) -> u64
    requires { byte < 8 }
    ensures { result ≡ 2 ^ (8 * byte) }
{
    1 << (8 * byte)
}

/// Two parts of an operand as one value.
#[tactic(auto, using(crate::proofs::Joined::joined_below))]
fn joined(low: u64, front: u32, high: u64, rest: u32) -> u64
    requires front { front < 8 }
    requires sizes { front + rest ≤ 8 }
    requires low_fits { low < 2 ^ (8 * front) }
    requires high_fits { high < 2 ^ (8 * rest) }
    ensures { result ≡ low + high * 2 ^ (8 * front) }
{
    let unit = unit(front);
    low + high * unit
}

/// Checks an operand's bytes.
pub fn check(cursor: &mut Cursor, address: u32, count: u32, write: bool) -> Result<(), Stop>
    requires { count ≤ 8 }
    ensures plays { Plays (check address count write) cursor.old result cursor.new }
    ensures few { Uses 0 cursor.old result cursor.new }
{
    match cursor.pages.first_bad(address, count, write) {
        None => Ok(()),
        Some(address) => Err(Stop::Fails(Exception::AccessViolation { address, write })),
    }
}

fn read_part(cursor: &mut Cursor, address: u32, count: u32) -> Result<u64, Stop>
    requires { count ≤ 8 }
    ensures plays { Plays (read_part address count) cursor.old result cursor.new }
    ensures few { Uses 1 cursor.old result cursor.new }
    ensures bound { IfOk result (λ value. value < 2 ^ (8 * count)) }
{
    let reply = cursor.ask(Reference {
        address,
        count: count as u8,
        kind: RefKind::Read,
    })?;
    Ok(low_bytes(count, reply))
}

/// Reads an operand that was checked.
#[tactic(auto, unfolding(crate::specs::Memory::read))]
pub fn read(cursor: &mut Cursor, address: u32, count: u32) -> Result<u64, Stop>
    requires { count ≤ 8 }
    ensures plays { Plays (read address count) cursor.old result cursor.new }
    ensures few { Uses 2 cursor.old result cursor.new }
{
    let first = front_count(address, count);
    let low = read_part(cursor, address, first)?;
    if first < count {
        let rest = count - first;
        let high = read_part(cursor, next_part(address, count), rest)?;
        Ok(joined(low, first, high, rest))
    } else {
        Ok(low)
    }
}

fn write_part(cursor: &mut Cursor, address: u32, count: u32, value: u64) -> Result<(), Stop>
    requires { count ≤ 8 }
    ensures plays { Plays (write_part address count value) cursor.old result cursor.new }
    ensures few { Uses 1 cursor.old result cursor.new }
{
    cursor.ask(Reference {
        address,
        count: count as u8,
        kind: RefKind::Write(low_bytes(count, value)),
    })?;
    Ok(())
}

/// Writes an operand that was checked.
#[tactic(auto, unfolding(crate::specs::Memory::write))]
pub fn write(cursor: &mut Cursor, address: u32, count: u32, value: u64) -> Result<(), Stop>
    requires { count ≤ 8 }
    ensures plays { Plays (write address count value) cursor.old result cursor.new }
    ensures few { Uses 2 cursor.old result cursor.new }
{
    let first = front_count(address, count);
    write_part(cursor, address, first, value)?;
    if first < count {
        let rest = value / unit(first);
        write_part(cursor, next_part(address, count), count - first, rest)?;
    }
    Ok(())
}

/// Checks and reads an operand in memory.
pub fn fetch(cursor: &mut Cursor, address: u32, count: u32) -> Result<u64, Stop>
    requires { count ≤ 8 }
    ensures plays { Plays (fetch address count) cursor.old result cursor.new }
    ensures few { Uses 2 cursor.old result cursor.new }
{
    check(cursor, address, count, false)?;
    read(cursor, address, count)
}

/// Makes one interlocked reference, within an aligned quadword.
pub fn lock(cursor: &mut Cursor, address: u32, count: u32, kind: RefKind) -> Result<u64, Stop>
    requires { count ≤ 8 }
    ensures plays { Plays (lock address count kind) cursor.old result cursor.new }
    ensures few { Uses 1 cursor.old result cursor.new }
    ensures bound { IfOk result (λ value. value < 2 ^ (8 * count)) }
{
    let reply = cursor.ask(Reference {
        address,
        count: count as u8,
        kind,
    })?;
    Ok(low_bytes(count, reply))
}

/// A word of the code.
#[tactic(auto, unfolding(crate::specs::Memory::code_word))]
pub fn code_word(cursor: &mut Cursor, address: u32) -> Result<u32, Stop>
    ensures plays { Plays (code_word address) cursor.old result cursor.new }
    ensures few { Uses 0 cursor.old result cursor.new }
    ensures bound { IfOk result (λ word. word < 65536) }
{
    let low = cursor.read_code(address)?;
    let high = cursor.read_code(address.wrapping_add(1))?;
    Ok(low as u32 + high as u32 * 256)
}
