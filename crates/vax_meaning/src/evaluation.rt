// Operands as their instruction uses them.
ghost use Rattle.std.specs.Prelude.{◌≡◌, ◌<◌, ◌*◌, ◌^◌};
ghost use Rattle.vax_form.specs.Size.{bytes_of};
ghost use Rattle.vax_meaning.specs.Fed.{Fed};
ghost use Rattle.vax_meaning.specs.Play.{Plays, Uses};
ghost use Rattle.vax_meaning.specs.Evaluation.{nothing, nothings, find, read_found, address_of, field_registers, obtain, evaluate, evaluated_row, operands_from, value_of_place, location_of_place};

use crate::cursor::Cursor;
use crate::memory::{fetch, low_bytes};
use crate::operands::{Location, locate, modify_at, register_value};
use vax_form::{Access, Instr, Operand, Operation, Row, Size, Stop};

/// An operand that was evaluated: where it is, its value, or both.
#[derive(Clone, Copy, Debug, PartialEq, Eq)]
pub struct Evaluated {
    pub location: Location,
    pub value: u64,
}

/// An operand that is not evaluated.
pub const NOTHING: Evaluated = Evaluated {
    location: Location::InMemory(0),
    value: 0,
};

/// Finds where an operand is.
#[tactic(auto, using(crate::proofs::Feeding::fed_of_plays), unfolding(crate::specs::Evaluation::find))]
pub fn find(
    cursor: &mut Cursor,
    access: Access,
    size: Size,
    operand: Operand,
) -> Result<Location, Stop>
    ensures plays { Plays (find access size operand) cursor.old result cursor.new }
    ensures fed { Fed (find access size operand) cursor.old result cursor.new }
    ensures few { Uses 2 cursor.old result cursor.new }
{
    match access {
        Access::Branch => Ok(Location::InMemory(0)),
        Access::Read | Access::Write | Access::Modify | Access::Address | Access::Field => {
            locate(cursor, operand, size)
        }
    }
}

/// Reads an operand that was found.
#[tactic(auto, unfolding(crate::specs::Evaluation::read_found))]
fn read_found(
    cursor: &mut Cursor,
    operand: Operand,
    location: Location,
    size: Size,
) -> Result<u64, Stop>
    ensures plays { Plays (read_found operand location size) cursor.old result cursor.new }
    ensures few { Uses 2 cursor.old result cursor.new }
{
    let bytes = size.bytes();
    match operand {
        Operand::Value(value) => Ok(low_bytes(bytes, value)),
        Operand::Register(number) => Ok(low_bytes(bytes, register_value(cursor, number, bytes))),
        Operand::Place { .. } => match location {
            Location::InMemory(address) => {
                let value = fetch(cursor, address, bytes)?;
                Ok(low_bytes(bytes, value))
            }
            Location::InRegister(_) => Ok(0),
        },
        Operand::Unused | Operand::Target(_) => Ok(0),
    }
}

/// The address of an operand that was found.
fn address_of(location: Location) -> u32
    ensures { result ≡ address_of location }
{
    match location {
        Location::InMemory(address) => address,
        Location::InRegister(_) => 0,
    }
}

/// The register and the next one, where a field has its base in registers.
fn field_registers(cursor: &mut Cursor, location: Location) -> Result<u64, Stop>
    ensures plays { Plays (field_registers location) cursor.old result cursor.new }
    ensures few { Uses 0 cursor.old result cursor.new }
{
    match location {
        Location::InRegister(number) => Ok(register_value(cursor, number, 8)),
        Location::InMemory(_) => Ok(0),
    }
}

/// Obtains an operand that was found: reads it, or checks it with write intent and reads it, or leaves it as it is.
#[tactic(auto, using(crate::proofs::Feeding::fed_of_plays), unfolding(crate::specs::Evaluation::obtain))]
pub fn obtain(
    cursor: &mut Cursor,
    access: Access,
    size: Size,
    operand: Operand,
    location: Location,
) -> Result<Evaluated, Stop>
    ensures plays { Plays (obtain access size operand location) cursor.old result cursor.new }
    ensures fed { Fed (obtain access size operand location) cursor.old result cursor.new }
    ensures few { Uses 2 cursor.old result cursor.new }
{
    match access {
        Access::Read => {
            let value = read_found(cursor, operand, location, size)?;
            Ok(Evaluated {
                location: Location::InMemory(0),
                value,
            })
        }
        Access::Write => Ok(Evaluated { location, value: 0 }),
        Access::Modify => {
            let value = modify_at(cursor, location, size)?;
            Ok(Evaluated { location, value })
        }
        Access::Address => {
            let value = address_of(location) as u64;
            Ok(Evaluated { location, value })
        }
        Access::Field => {
            let value = field_registers(cursor, location)?;
            Ok(Evaluated { location, value })
        }
        Access::Branch => Ok(NOTHING),
    }
}

/// Evaluates an operand.
pub fn evaluate(
    cursor: &mut Cursor,
    access: Access,
    size: Size,
    operand: Operand,
) -> Result<Evaluated, Stop>
    ensures plays { Plays (evaluate access size operand) cursor.old result cursor.new }
    ensures few { Uses 4 cursor.old result cursor.new }
{
    let location = find(cursor, access, size, operand)?;
    obtain(cursor, access, size, operand, location)
}

/// The operands as they are evaluated: ADAWI makes the one reference to its second operand behind all specifiers.
#[tactic(auto, unfolding(crate::specs::Evaluation::evaluated_row))]
pub fn evaluated_row(operation: Operation) -> Row
    ensures { result ≡ evaluated_row operation }
{
    match operation {
        Operation::AddAlignedWord => {
            let (read, byte) = (Access::Read, Size::Byte);
            Row {
                count: 2,
                access: [read, Access::Write, read, read, read, read],
                size: [Size::Word, Size::Word, byte, byte, byte, byte],
            }
        }
        _ => operation.row(),
    }
}

/// Evaluates the operands from left to right.
#[tactic(auto, unfolding(crate::specs::Evaluation::operands_from))]
pub fn operands_from(cursor: &mut Cursor, row: &Row, instr: &Instr) -> Result<[Evaluated; 6], Stop>
    ensures plays { Plays (operands_from 6 row.now instr.now nothings) cursor.old result cursor.new }
    ensures few { Uses 24 cursor.old result cursor.new }
{
    let v0 = evaluate(cursor, row.access[0], row.size[0], instr.operands[0])?;
    let v1 = evaluate(cursor, row.access[1], row.size[1], instr.operands[1])?;
    let v2 = evaluate(cursor, row.access[2], row.size[2], instr.operands[2])?;
    let v3 = evaluate(cursor, row.access[3], row.size[3], instr.operands[3])?;
    let v4 = evaluate(cursor, row.access[4], row.size[4], instr.operands[4])?;
    let v5 = evaluate(cursor, row.access[5], row.size[5], instr.operands[5])?;
    Ok([v0, v1, v2, v3, v4, v5])
}

/// The value of the operand of that place.
pub fn value_of_place(values: &[Evaluated; 6], place: usize, size: Size) -> u64
    requires { place < 6 }
    ensures value { result ≡ value_of_place values.now place size }
    ensures bound { result < 2 ^ (8 * bytes_of size) }
{
    low_bytes(size.bytes(), values[place].value)
}

/// Where the operand of that place is.
pub fn location_of_place(values: &[Evaluated; 6], place: usize) -> Location
    requires { place < 6 }
    ensures { result ≡ location_of_place values.now place }
{
    values[place].location
}
