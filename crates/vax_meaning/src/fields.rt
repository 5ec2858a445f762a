// Bit fields and single bits.
ghost use Rattle.std.specs.Prelude.{◌≡◌, ◌+◌, ◌<◌, ◌≤◌, ◌^◌, IfOk};
ghost use Rattle.vax_meaning.specs.Play.{Plays, Uses};
ghost use Rattle.vax_meaning.specs.Fields.{bits_of, with_bits, field_address, field_bytes, is_outside, field_value, extended, extract_field, put_bytes, put_field, insert_field, leave_bit, byte_found, bit_found, branch_on_bit};

use crate::branches::pc_after;
use crate::codes::go_to;
use crate::cursor::Cursor;
use crate::evaluation::{Evaluated, location_of_place, value_of_place};
use crate::memory::{check, fetch, lock, low_bytes, read, write};
use crate::moves::give;
use crate::operands::{Location, put};
use vax_form::{BitBranch, BitStore, End, Exception, Instr, RefKind, SP, Size, Stop};
use vt_words::shift_right;

/// So many bits of a number, from a bit on.
#[tactic(auto, using(crate::proofs::Bits::bits_below))]
fn bits_of(whole: u64, position: u32, size: u32) -> u64
    requires position { position < 64 }
    requires size { size ≤ 32 }
    ensures value { result ≡ bits_of whole position size }
    ensures bound { result < 2 ^ 32 }
{
    let unit: u64 = 1 << size;
    (whole >> position) % unit
}

/// What the bit of that number counts.
fn power(bit: u32) -> u64
    requires { bit < 64 }
    ensures { result ≡ 2 ^ bit }
{
    1 << bit
}

/// The number with these bits replaced by the lowest of a value.
fn with_bits(whole: u64, position: u32, size: u32, value: u64) -> u64
    requires { position + size < 64 }
    ensures { result ≡ with_bits whole position size value }
{
    let (unit, top, width) = (power(position), power(position + size), power(size));
    whole / top * top + value % width * unit + whole % unit
}

/// The byte that has the first bit of a field in memory.
fn field_address(base: u32, position: u64) -> u32
    requires { position < 2 ^ 32 }
    ensures { result ≡ field_address base position }
{
    base.wrapping_add(low_bytes(4, shift_right(position, 3)) as u32)
}

/// How many bytes have bits of a field.
fn field_bytes(position: u64, size: u32) -> u32
    requires { size ≤ 32 }
    ensures value { result ≡ field_bytes position size }
    ensures bound { result ≤ 8 }
{
    ((position % 8) as u32 + size + 7) / 8
}

/// Whether a field in registers begins behind the first one, or runs on from R14.
fn is_outside(location: Location, position: u64, size: u32) -> bool
    requires position { position < 2 ^ 32 }
    requires size { size < 256 }
    ensures { result ≡ is_outside location position size }
{
    match location {
        Location::InRegister(number) => {
            size != 0 && (position > 31 || number == SP && position + size as u64 > 32)
        }
        Location::InMemory(_) => false,
    }
}

/// The value of a field.
#[tactic(auto, unfolding(crate::specs::Fields::field_value))]
fn field_value(
    cursor: &mut Cursor,
    location: Location,
    registers: u64,
    position: u64,
    size: u32,
) -> Result<u64, Stop>
    requires position { position < 2 ^ 32 }
    requires size { size ≤ 32 }
    ensures plays { Plays (field_value location registers position size) cursor.old result cursor.new }
    ensures few { Uses 2 cursor.old result cursor.new }
    ensures bound { IfOk result (λ value. value < 2 ^ 32) }
{
    match location {
        Location::InRegister(_) => Ok(bits_of(registers, (position % 32) as u32, size)),
        Location::InMemory(base) => {
            if size == 0 {
                return Ok(0);
            }
            let address = field_address(base, position);
            let bytes = fetch(cursor, address, field_bytes(position, size))?;
            Ok(bits_of(bytes, (position % 8) as u32, size))
        }
    }
}

/// A field as a longword.
fn extended(signed: bool, value: u64, size: u32) -> u64
    requires size { size ≤ 32 }
    requires value { value < 2 ^ 32 }
    ensures { result ≡ extended signed value size }
{
    let half: u64 = if size == 0 { 1 } else { 1 << (size - 1) };
    if signed && value >= half {
        let unit: u64 = 1 << size;
        value + (0x1_0000_0000 - unit)
    } else {
        value
    }
}

/// EXTV, and EXTZV where it is not signed.
#[tactic(auto, unfolding(crate::specs::Fields::extract_field))]
pub fn extract_field(
    cursor: &mut Cursor,
    instr: &Instr,
    signed: bool,
    values: &[Evaluated; 6],
) -> Result<End, Stop>
    ensures plays { Plays (extract_field instr.now signed values.now) cursor.old result cursor.new }
    ensures few { Uses 4 cursor.old result cursor.new }
{
    let position = value_of_place(values, 0, Size::Long);
    let size = value_of_place(values, 1, Size::Byte) as u32;
    let base = location_of_place(values, 2);
    if size > 32 || is_outside(base, position, size) {
        return Err(Stop::Fails(Exception::ReservedOperand));
    }
    let registers = value_of_place(values, 2, Size::Quad);
    let value = field_value(cursor, base, registers, position, size)?;
    let value = extended(signed, value, size);
    give(cursor, instr, 3, Size::Long, value, values)
}

/// Puts a value into a field in memory.
fn put_bytes(
    cursor: &mut Cursor,
    address: u32,
    count: u32,
    position: u32,
    size: u32,
    value: u64,
) -> Result<(), Stop>
    requires count { count ≤ 8 }
    requires room { position + size < 64 }
    ensures plays { Plays (put_bytes address count position size value) cursor.old result cursor.new }
    ensures few { Uses 4 cursor.old result cursor.new }
{
    check(cursor, address, count, true)?;
    let bytes = read(cursor, address, count)?;
    write(
        cursor,
        address,
        count,
        with_bits(bytes, position, size, value),
    )
}

/// Puts a value into a field.
#[tactic(auto, unfolding(crate::specs::Fields::put_field))]
fn put_field(
    cursor: &mut Cursor,
    location: Location,
    registers: u64,
    position: u64,
    size: u32,
    value: u64,
) -> Result<(), Stop>
    requires position { position < 2 ^ 32 }
    requires size { size ≤ 32 }
    ensures plays { Plays (put_field location registers position size value) cursor.old result cursor.new }
    ensures few { Uses 4 cursor.old result cursor.new }
{
    match location {
        Location::InRegister(_) => {
            let bits = with_bits(registers, (position % 32) as u32, size, value);
            put(cursor, location, Size::Quad, bits)
        }
        Location::InMemory(base) => {
            if size == 0 {
                return Ok(());
            }
            let address = field_address(base, position);
            let count = field_bytes(position, size);
            put_bytes(cursor, address, count, (position % 8) as u32, size, value)
        }
    }
}

/// INSV.
#[tactic(auto, unfolding(crate::specs::Fields::insert_field))]
pub fn insert_field(
    cursor: &mut Cursor,
    instr: &Instr,
    values: &[Evaluated; 6],
) -> Result<End, Stop>
    ensures plays { Plays (insert_field instr.now values.now) cursor.old result cursor.new }
    ensures few { Uses 4 cursor.old result cursor.new }
{
    let position = value_of_place(values, 1, Size::Long);
    let size = value_of_place(values, 2, Size::Byte) as u32;
    let base = location_of_place(values, 3);
    if size > 32 || is_outside(base, position, size) {
        return Err(Stop::Fails(Exception::ReservedOperand));
    }
    let registers = value_of_place(values, 3, Size::Quad);
    let value = value_of_place(values, 0, Size::Long);
    put_field(cursor, base, registers, position, size, value)?;
    go_to(cursor, instr.after)
}

/// Leaves a bit in a register.
#[tactic(auto, unfolding(crate::specs::Fields::leave_bit))]
fn leave_bit(
    cursor: &mut Cursor,
    number: u8,
    registers: u64,
    position: u64,
    store: BitStore,
) -> Result<(), Stop>
    ensures plays { Plays (leave_bit number registers position store) cursor.old result cursor.new }
    ensures few { Uses 2 cursor.old result cursor.new }
{
    match store {
        BitStore::Nothing => Ok(()),
        BitStore::Plain(value) | BitStore::Interlocked(value) => {
            let bits = with_bits(registers, (position % 32) as u32, 1, value as u64);
            put(cursor, Location::InRegister(number), Size::Long, bits)
        }
    }
}

/// The byte that has a bit, in which the bit is then left.
#[tactic(auto, unfolding(crate::specs::Fields::byte_found))]
fn byte_found(cursor: &mut Cursor, address: u32, number: u8, store: BitStore) -> Result<u64, Stop>
    requires { number < 8 }
    ensures plays { Plays (byte_found address number store) cursor.old result cursor.new }
    ensures few { Uses 4 cursor.old result cursor.new }
{
    match store {
        BitStore::Nothing => fetch(cursor, address, 1),
        BitStore::Plain(value) => {
            check(cursor, address, 1, true)?;
            let byte = read(cursor, address, 1)?;
            let bits = with_bits(byte, number as u32, 1, value as u64);
            write(cursor, address, 1, bits)?;
            Ok(byte)
        }
        BitStore::Interlocked(value) => {
            check(cursor, address, 1, true)?;
            let kind = if value {
                RefKind::SetBit(number)
            } else {
                RefKind::ClearBit(number)
            };
            lock(cursor, address, 1, kind)
        }
    }
}

/// The bit of a branch as it was found.
#[tactic(auto, unfolding(crate::specs::Fields::bit_found))]
fn bit_found(
    cursor: &mut Cursor,
    location: Location,
    registers: u64,
    position: u64,
    store: BitStore,
) -> Result<u64, Stop>
    requires { position < 2 ^ 32 }
    ensures plays { Plays (bit_found location registers position store) cursor.old result cursor.new }
    ensures few { Uses 4 cursor.old result cursor.new }
{
    match location {
        Location::InRegister(number) => {
            leave_bit(cursor, number, registers, position, store)?;
            Ok(bits_of(registers, (position % 32) as u32, 1))
        }
        Location::InMemory(base) => {
            let address = field_address(base, position);
            let byte = byte_found(cursor, address, (position % 8) as u8, store)?;
            Ok(bits_of(byte, (position % 8) as u32, 1))
        }
    }
}

/// BBS, BBC, BBSS, BBCS, BBSC, BBCC, BBSSI and BBCCI.
#[tactic(auto, unfolding(crate::specs::Fields::branch_on_bit))]
pub fn branch_on_bit(
    cursor: &mut Cursor,
    instr: &Instr,
    branch: BitBranch,
    values: &[Evaluated; 6],
) -> Result<End, Stop>
    ensures plays { Plays (branch_on_bit instr.now branch values.now) cursor.old result cursor.new }
    ensures few { Uses 4 cursor.old result cursor.new }
{
    let position = value_of_place(values, 0, Size::Long);
    let base = location_of_place(values, 1);
    if is_outside(base, position, 1) {
        return Err(Stop::Fails(Exception::ReservedOperand));
    }
    let registers = value_of_place(values, 1, Size::Quad);
    let found = bit_found(cursor, base, registers, position, branch.store)?;
    go_to(cursor, pc_after(instr, 2, found == branch.state as u64))
}
