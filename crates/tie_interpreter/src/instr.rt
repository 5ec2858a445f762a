// An instruction that is gone through: its operands, and what comes behind them.
ghost use Rattle.vax_meaning.specs.Instructions.{operation_script};
ghost use Rattle.vax_meaning.specs.Play.{Plays, Uses};

use tie_operands::all_operands;
use vax_form::{End, Instr, Operation, Stop};
use vax_meaning::{Cursor, body, evaluated_row};

/// Goes through an instruction.
#[tactic(auto, unfolding(vax_meaning::specs::Instructions::operation_script))]
pub(crate) fn run_instr(
    cursor: &mut Cursor,
    operation: Operation,
    instr: &Instr,
    thread: u8,
) -> Result<End, Stop>
    ensures plays { Plays (operation_script operation instr.now thread) cursor.old result cursor.new }
    ensures few { Uses 28 cursor.old result cursor.new }
{
    let row = evaluated_row(operation);
    let values = all_operands(cursor, &row, instr)?;
    body(cursor, operation, instr, thread, &values)
}
