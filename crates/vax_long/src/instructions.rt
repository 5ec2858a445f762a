// The table of long instructions.
ghost use Rattle.std.specs.Prelude.{◌≡◌};
ghost use Rattle.vax_meaning.specs.Play.{Plays, Uses};
ghost use Rattle.vax_long.specs.Instructions.{long_body, long_script, long_operation, long_at};

use crate::calls::{call_general, call_stack, return_from_procedure};
use crate::indexing::index;
use crate::moving::{move_characters, move_characters_filled};
use crate::registers::{pop_by_mask, push_by_mask};
use crate::searching::{compare_characters, scan_characters};
use vax_form::{End, Instr, LongOperation, Operation, Stop, operation_of};
use vax_meaning::{Cursor, Evaluated, operands_from};

/// The long operation of an opcode; None where it has none.
#[tactic(auto, unfolding(crate::specs::Instructions::long_operation))]
pub fn long_operation_of(opcode: u8) -> Option<LongOperation>
    ensures { result ≡ long_at opcode }
{
    match operation_of(opcode) {
        Some(Operation::Long(operation)) => Some(operation),
        _ => None,
    }
}

/// Does what a long operation does once its operands are evaluated.
#[tactic(auto, unfolding(crate::specs::Instructions::long_body))]
pub fn long_body(
    cursor: &mut Cursor,
    operation: LongOperation,
    instr: &Instr,
    values: &[Evaluated; 6],
) -> Result<End, Stop>
    ensures plays { Plays (long_body operation instr.now values.now) cursor.old result cursor.new }
    ensures few { Uses 131070 cursor.old result cursor.new }
{
    match operation {
        LongOperation::Index => index(cursor, instr, values),
        LongOperation::CallGeneral => call_general(cursor, instr, values),
        LongOperation::CallStack => call_stack(cursor, instr, values),
        LongOperation::Return => return_from_procedure(cursor),
        LongOperation::PushRegisters => push_by_mask(cursor, instr, values),
        LongOperation::PopRegisters => pop_by_mask(cursor, instr, values),
        LongOperation::MoveCharacters => move_characters(cursor, instr, values),
        LongOperation::MoveCharactersFilled => move_characters_filled(cursor, instr, values),
        LongOperation::CompareCharacters => compare_characters(cursor, instr, values),
        LongOperation::LocateCharacter => scan_characters(cursor, instr, true, values),
        LongOperation::SkipCharacter => scan_characters(cursor, instr, false, values),
    }
}

/// Goes through the script of a long operation.
#[tactic(auto, unfolding(crate::specs::Instructions::long_script))]
pub fn long_operation_run(
    cursor: &mut Cursor,
    operation: LongOperation,
    instr: &Instr,
) -> Result<End, Stop>
    ensures plays { Plays (long_script operation instr.now) cursor.old result cursor.new }
    ensures few { Uses 131094 cursor.old result cursor.new }
{
    let row = Operation::Long(operation).row();
    let values = operands_from(cursor, &row, instr)?;
    long_body(cursor, operation, instr, &values)
}
