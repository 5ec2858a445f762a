// An instruction, gone through with the replies so far.
ghost use Rattle.std.specs.Prelude.{◌≡◌, ◌<◌, length};
ghost use Rattle.tie_interpreter.specs.Found.{IsShort, short_tree};
ghost use Rattle.tie_operands.specs.Steps.{step_by, step_of, FailsByFault, IfWant};
ghost use Rattle.vax_decode.specs.Decoded.{found_of};
ghost use Rattle.vax_form.specs.Operation.{operation_at};
ghost use Rattle.vax_form.specs.Tree.{answer, outcome};
ghost use Rattle.vax_meaning.specs.Instructions.{tree_for};

use crate::instr::run_instr;
use vax_decode::Decoded;
use vax_form::{End, Exception, Instr, Operation, Stop, operation_of};
use vax_meaning::Cursor;

/// Goes through an instruction that is not long (`vax_form::is_long`), whose opcode has that operation, from its begin with the
/// replies to its references so far: from the state before it to the one behind it.
pub fn played_instr(
    cursor: &mut Cursor,
    operation: Option<Operation>,
    instr: &Instr,
    thread: u8,
) -> Result<End, Stop>
    requires operation { operation ≡ operation_at instr.now.opcode }
    ensures answers { step_by cursor.old.state result cursor.new.state
        ≡ step_of (outcome cursor.old.state (answer cursor.old.pages.now (tree_for cursor.old.state instr.now cursor.old.pages.now thread) cursor.old.replies.now)) }
    ensures faults { FailsByFault (answer cursor.old.pages.now (tree_for cursor.old.state instr.now cursor.old.pages.now thread) cursor.old.replies.now) }
    ensures few { IfWant (step_by cursor.old.state result cursor.new.state) (length cursor.old.replies.now < 28) }
{
    match operation {
        Some(operation) => run_instr(cursor, operation, instr, thread),
        None => Err(Stop::Fails(Exception::ReservedInstruction)),
    }
}

/// The same of what was decoded at the PC, which is no long instruction.
pub fn played_short(cursor: &mut Cursor, decoded: &Decoded, thread: u8) -> Result<End, Stop>
    requires short { IsShort (found_of decoded.now) }
    ensures answers { step_by cursor.old.state result cursor.new.state
        ≡ step_of (outcome cursor.old.state (answer cursor.old.pages.now (short_tree cursor.old.pages.now thread (found_of decoded.now) cursor.old.state) cursor.old.replies.now)) }
    ensures faults { FailsByFault (answer cursor.old.pages.now (short_tree cursor.old.pages.now thread (found_of decoded.now) cursor.old.state) cursor.old.replies.now) }
    ensures few { IfWant (step_by cursor.old.state result cursor.new.state) (length cursor.old.replies.now < 28) }
{
    match decoded {
        Decoded::Instr(instr) => played_instr(cursor, operation_of(instr.opcode), instr, thread),
        Decoded::Reserved => Err(Stop::Fails(Exception::ReservedInstruction)),
        Decoded::BadMode => Err(Stop::Fails(Exception::ReservedMode)),
        Decoded::Past(address) => {
            let (address, write) = (*address, false);
            Err(Stop::Fails(Exception::AccessViolation { address, write }))
        }
    }
}
