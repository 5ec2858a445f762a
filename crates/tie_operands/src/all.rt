// All operands of an instruction that is gone through. Places that are not used are passed over, where the last four are not at once,
// and registers and literals are found at once.
ghost use Rattle.std.specs.Prelude.{◌≡◌, true};
ghost use Rattle.vax_form.specs.declared.instr.Access.TheVariants.{Read};
ghost use Rattle.vax_form.specs.declared.instr.Operand.TheVariants.{Unused};
ghost use Rattle.vax_meaning.specs.Evaluation.{evaluate, nothings, operands_from};
ghost use Rattle.vax_form.specs.Size.{bytes_of};
ghost use Rattle.vax_meaning.specs.Memory.{low_bytes};
ghost use Rattle.vax_meaning.specs.Operands.{register_value};
ghost use Rattle.vax_meaning.specs.Play.{Plays, Uses};

use vax_form::{Access, Instr, Operand, Row, Size, Stop};
use vax_meaning::{Cursor, Evaluated, Location, NOTHING, find, low_bytes, obtain, register_of};

/// Evaluates an operand that is found first.
fn found_first(
    cursor: &mut Cursor,
    access: Access,
    size: Size,
    operand: &Operand,
) -> Result<Evaluated, Stop>
    ensures plays { Plays (evaluate access size operand.now) cursor.old result cursor.new }
    ensures few { Uses 4 cursor.old result cursor.new }
{
    let location = find(cursor, access, size, *operand)?;
    obtain(cursor, access, size, *operand, location)
}

/// What a register operand has, in the bytes of its size.
#[inline(always)]
fn value_there(cursor: &Cursor, number: u8, size: Size) -> u64
    ensures { result ≡ low_bytes (bytes_of size) (register_value number (bytes_of size) cursor.now.state) }
{
    let first = u64::from(register_of(cursor, number));
    match size {
        Size::Quad => {
            let second = u64::from(register_of(cursor, number.saturating_add(1)));
            low_bytes(8, first + second * 0x1_0000_0000)
        }
        _ => low_bytes(size.bytes(), first),
    }
}

/// Evaluates the operand of a place.
#[inline(always)]
#[tactic(auto, unfolding(vax_meaning::specs::Evaluation::find, vax_meaning::specs::Evaluation::obtain, vax_meaning::specs::Evaluation::read_found, vax_meaning::specs::Operands::locate, vax_meaning::specs::Operands::modify_at))]
fn evaluated(
    cursor: &mut Cursor,
    access: Access,
    size: Size,
    operand: &Operand,
) -> Result<Evaluated, Stop>
    ensures plays { Plays (evaluate access size operand.now) cursor.old result cursor.new }
    ensures few { Uses 4 cursor.old result cursor.new }
{
    match (access, *operand) {
        (Access::Read, Operand::Unused) => Ok(NOTHING),
        (Access::Read, Operand::Value(value)) => Ok(Evaluated {
            location: Location::InMemory(0),
            value: low_bytes(size.bytes(), value),
        }),
        (Access::Read, Operand::Register(number)) => Ok(Evaluated {
            location: Location::InMemory(0),
            value: value_there(cursor, number, size),
        }),
        (Access::Modify, Operand::Register(number)) => Ok(Evaluated {
            location: Location::InRegister(number),
            value: value_there(cursor, number, size),
        }),
        (Access::Write, Operand::Register(number)) => Ok(Evaluated {
            location: Location::InRegister(number),
            value: 0,
        }),
        _ => found_first(cursor, access, size, operand),
    }
}

/// Whether a place is not used.
#[inline(always)]
fn is_unused(access: Access, operand: &Operand) -> bool
    ensures { result ≡ true → (access ≡ Read) × (operand.now ≡ Unused) }
{
    matches!((access, operand), (Access::Read, Operand::Unused))
}

/// Passes over a place that is not used.
#[inline(always)]
#[tactic(auto, unfolding(vax_meaning::specs::Evaluation::find, vax_meaning::specs::Evaluation::obtain, vax_meaning::specs::Evaluation::read_found, vax_meaning::specs::Operands::locate))]
fn passed_over(
    cursor: &mut Cursor,
    access: Access,
    size: Size,
    operand: &Operand,
) -> Result<Evaluated, Stop>
    requires unused { (access ≡ Read) × (operand.now ≡ Unused) }
    ensures plays { Plays (evaluate access size operand.now) cursor.old result cursor.new }
    ensures few { Uses 4 cursor.old result cursor.new }
{
    Ok(NOTHING)
}

/// Evaluates the operands from left to right.
#[inline(always)]
#[tactic(auto, unfolding(vax_meaning::specs::Evaluation::operands_from))]
pub fn all_operands(cursor: &mut Cursor, row: &Row, instr: &Instr) -> Result<[Evaluated; 6], Stop>
    ensures plays { Plays (operands_from 6 row.now instr.now nothings) cursor.old result cursor.new }
    ensures few { Uses 24 cursor.old result cursor.new }
{
    let v0 = evaluated(cursor, row.access[0], row.size[0], &instr.operands[0])?;
    let v1 = evaluated(cursor, row.access[1], row.size[1], &instr.operands[1])?;
    if is_unused(row.access[2], &instr.operands[2])
        && is_unused(row.access[3], &instr.operands[3])
        && is_unused(row.access[4], &instr.operands[4])
        && is_unused(row.access[5], &instr.operands[5])
    {
        let v2 = passed_over(cursor, row.access[2], row.size[2], &instr.operands[2])?;
        let v3 = passed_over(cursor, row.access[3], row.size[3], &instr.operands[3])?;
        let v4 = passed_over(cursor, row.access[4], row.size[4], &instr.operands[4])?;
        let v5 = passed_over(cursor, row.access[5], row.size[5], &instr.operands[5])?;
        return Ok([v0, v1, v2, v3, v4, v5]);
    }
    let v2 = evaluated(cursor, row.access[2], row.size[2], &instr.operands[2])?;
    let v3 = evaluated(cursor, row.access[3], row.size[3], &instr.operands[3])?;
    let v4 = evaluated(cursor, row.access[4], row.size[4], &instr.operands[4])?;
    let v5 = evaluated(cursor, row.access[5], row.size[5], &instr.operands[5])?;
    Ok([v0, v1, v2, v3, v4, v5])
}
