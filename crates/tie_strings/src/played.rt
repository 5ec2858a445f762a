// A long instruction without strings, gone through with the replies so far.
ghost use Rattle.std.specs.Prelude.{◌≡◌, ◌<◌, length};
ghost use Rattle.tie_operands.specs.Steps.{step_by, step_of, FailsByFault, IfWant};
ghost use Rattle.tie_strings.specs.Bodies.{long_of, plain_of};
ghost use Rattle.vax_form.specs.Tree.{answer, instruction_tree, outcome};
ghost use Rattle.vax_long.specs.Instructions.{long_script};
ghost use Rattle.vax_meaning.specs.Play.{Plays, Uses};

use crate::body::Plain;
use tie_operands::all_operands;
use vax_form::{End, Instr, LongOperation, Operation, Stop};
use vax_meaning::Cursor;

/// The operation, where it has no strings.
pub fn plain_of(operation: LongOperation) -> Option<Plain>
    ensures { result ≡ plain_of operation }
{
    match operation {
        LongOperation::Index => Some(Plain::Index),
        LongOperation::CallGeneral => Some(Plain::CallGeneral),
        LongOperation::CallStack => Some(Plain::CallStack),
        LongOperation::Return => Some(Plain::Return),
        LongOperation::PushRegisters => Some(Plain::PushRegisters),
        LongOperation::PopRegisters => Some(Plain::PopRegisters),
        LongOperation::MoveCharacters
        | LongOperation::MoveCharactersFilled
        | LongOperation::CompareCharacters
        | LongOperation::LocateCharacter
        | LongOperation::SkipCharacter => None,
    }
}

impl Plain {
    /// The same operation among the long ones.
    fn long(self) -> LongOperation
        ensures { result ≡ long_of self }
    {
        match self {
            Plain::Index => LongOperation::Index,
            Plain::CallGeneral => LongOperation::CallGeneral,
            Plain::CallStack => LongOperation::CallStack,
            Plain::Return => LongOperation::Return,
            Plain::PushRegisters => LongOperation::PushRegisters,
            Plain::PopRegisters => LongOperation::PopRegisters,
        }
    }

    /// Goes through its operands, and through what it does with them.
    #[tactic(auto, unfolding(vax_long::specs::Instructions::long_script))]
    fn run_whole(self, cursor: &mut Cursor, instr: &Instr) -> Result<End, Stop>
        ensures plays { Plays (long_script (long_of self) instr.now) cursor.old result cursor.new }
        ensures few { Uses 60 cursor.old result cursor.new }
    {
        let row = Operation::Long(self.long()).row();
        let values = all_operands(cursor, &row, instr)?;
        self.run(cursor, instr, &values)
    }
}

/// Goes through a long instruction without strings from its begin with the replies to its references so far: from the state
/// before it to the one behind it. `told` says what some want without that.
pub fn played_long(cursor: &mut Cursor, operation: Plain, instr: &Instr) -> Result<End, Stop>
    ensures answers { step_by cursor.old.state result cursor.new.state
        ≡ step_of (outcome cursor.old.state (answer cursor.old.pages.now (instruction_tree cursor.old.pages.now (long_script (long_of operation) instr.now) cursor.old.state) cursor.old.replies.now)) }
    ensures faults { FailsByFault (answer cursor.old.pages.now (instruction_tree cursor.old.pages.now (long_script (long_of operation) instr.now) cursor.old.state) cursor.old.replies.now) }
    ensures few { IfWant (step_by cursor.old.state result cursor.new.state) (length cursor.old.replies.now < 60) }
{
    operation.run_whole(cursor, instr)
}
