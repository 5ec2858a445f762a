// An instruction, a reference at a time.
ghost use Rattle.std.specs.Prelude.{◌≡◌, []};
ghost use Rattle.tie_interpreter.specs.Rest.{body_at, led, LeadsToBody};

use crate::body::Body;
use tie_operands::{Operands, Replies, TieStep};
use vax_decode::{Decoded, decode_at};
use vax_form::{Exception, Instr, Operation, Pages, Stop, VaxState, operation_of};
use vax_meaning::{Cursor, Evaluated, evaluated_row};

/// Why there is no instruction.
#[derive(Clone, Copy, Debug, PartialEq, Eq)]
enum Refusal {
    Reserved,
    BadMode,
    /// The byte at this address can't be fetched.
    Past(u32),
}

impl Refusal {
    ghost use Rattle.std.specs.Prelude.{ℕ, List};
    ghost use Rattle.vax_form.specs.Tree.{Fault, feed};
    ghost use Rattle.vax_form.specs.declared.pages.Pages.{Pages};
    ghost use Rattle.tie_operands.specs.Steps.{Shows};
    ghost use Rattle.tie_interpreter.specs.Whole.{exception_of};

    /// The fault that it is.
    fn fault(self, before: &VaxState) -> TieStep
        ensures { (pages : Pages) (replies : List ℕ) → Shows before.now (feed pages (Fault (exception_of self)) replies) result }
    {
        let exception = match self {
            Refusal::Reserved => Exception::ReservedInstruction,
            Refusal::BadMode => Exception::ReservedMode,
            Refusal::Past(address) => {
                let write = false;
                Exception::AccessViolation { address, write }
            }
        };
        TieStep::Raised(exception, *before)
    }
}

/// Where an instruction stands that was begun.
#[derive(Clone, Copy, Debug, PartialEq, Eq)]
enum Stage {
    Refused(Refusal),
    Evaluates(Operation, Operands),
    Closes(Body),
}

impl Stage {
    ghost use Rattle.std.specs.Prelude.{ℕ};
    ghost use Rattle.vax_form.specs.Tree.{feed};
    ghost use Rattle.vax_form.specs.declared.pages.Pages.{Pages};
    ghost use Rattle.vax_meaning.specs.Instructions.{tree_for};
    ghost use Rattle.vax_decode.specs.Decoded.{found_of};
    ghost use Rattle.tie_interpreter.specs.Found.{short_tree};
    ghost use Rattle.tie_interpreter.specs.Whole.{stage_rest};

    fn of_instr(state: &VaxState, instr: &Instr) -> Stage
        ensures { (pages : Pages) (thread : ℕ) → stage_rest pages thread result ≡ feed pages (tree_for state.now instr.now pages thread) [] }
    {
        match operation_of(instr.opcode) {
            None => Stage::Refused(Refusal::Reserved),
            Some(operation) => {
                let row = evaluated_row(operation);
                Stage::Evaluates(operation, Operands::begin(state, &row, instr))
            }
        }
    }

    fn begin(state: &VaxState, decoded: &Decoded) -> Stage
        ensures { (pages : Pages) (thread : ℕ) → stage_rest pages thread result ≡ feed pages (short_tree pages thread (found_of decoded.now) state.now) [] }
    {
        match decoded {
            Decoded::Instr(instr) => Stage::of_instr(state, instr),
            Decoded::Reserved => Stage::Refused(Refusal::Reserved),
            Decoded::BadMode => Stage::Refused(Refusal::BadMode),
            Decoded::Past(address) => Stage::Refused(Refusal::Past(*address)),
        }
    }
}

/// An instruction that is not long, or what stands where there is no instruction, a reference at a time.
#[derive(Clone, Copy, Debug, PartialEq, Eq)]
pub struct Tie {
    /// The state before it, which a fault shows.
    before: VaxState,
    thread: u8,
    stage: Stage,
}

impl Tie {
    ghost use Rattle.tie_operands.specs.Rest.{instr_of};
    ghost use Rattle.std.specs.Prelude.{ℕ, List, ◌++◌};
    ghost use Rattle.vax_form.specs.GrammarFound.{found};
    ghost use Rattle.vax_form.specs.Tree.{Tree, answer, feed, outcome};
    ghost use Rattle.vax_form.specs.declared.pages.Pages.{Pages};
    ghost use Rattle.vax_form.specs.declared.state.VaxState.{VaxState};
    ghost use Rattle.vax_decode.specs.Decoded.{found_of};
    ghost use Rattle.tie_operands.specs.Replies.{list_of};
    ghost use Rattle.tie_operands.specs.Steps.{step_of, Shows, IfWant, FailsByFault};
    ghost use Rattle.tie_interpreter.specs.Found.{IsShort, short_tree, short_tree_at};
    ghost use Rattle.tie_interpreter.specs.Whole.{rest_of, before_of, Stands};

    /// Begins what stands at the PC, which is no long instruction (`vax_form::is_long`).
    pub fn begin(state: &VaxState, pages: &Pages, thread: u8) -> Tie
        requires short { IsShort (found pages.now state.now.pc) }
        ensures { Stands pages.now result state.now (short_tree_at pages.now thread state.now) [] }
    {
        Tie::begin_decoded(state, &decode_at(pages, state.pc), thread)
    }

    /// Begins what was decoded at the PC, which is no long instruction.
    pub fn begin_decoded(state: &VaxState, decoded: &Decoded, thread: u8) -> Tie
        requires short { IsShort (found_of decoded.now) }
        ensures { (pages : Pages) → Stands pages result state.now (short_tree pages thread (found_of decoded.now) state.now) [] }
    {
        Tie {
            before: *state,
            thread,
            stage: Stage::begin(state, decoded),
        }
    }

    /// Evaluates operands, where what comes behind them is what an operation does.
    fn operands_led(
        &self,
        operands: &mut Operands,
        operation: Operation,
        cursor: &mut Cursor,
    ) -> Result<[Evaluated; 6], Stop>
        ensures leads { LeadsToBody (before_of self.now) operation self.now.thread operands.old cursor.old result operands.new cursor.new }
        ensures instr { instr_of operands.new ≡ instr_of operands.old }
    {
        operands.evaluate(cursor)
    }

    /// Goes on with what an operation does.
    fn closed(&mut self, mut closing: Body, cursor: &mut Cursor) -> TieStep
        ensures shows { Shows (before_of self.old) (body_at closing cursor.old) result }
        ensures rest { IfWant result (rest_of cursor.old.pages.now self.new ≡ body_at closing cursor.old) }
        ensures before { before_of self.new ≡ before_of self.old }
    {
        let step = closing.close(cursor, &self.before);
        self.stage = Stage::Closes(closing);
        step
    }

    /// Goes on with the operands.
    fn evaluated(
        &mut self,
        operation: Operation,
        mut operands: Operands,
        cursor: &mut Cursor,
    ) -> TieStep
        ensures shows { Shows (before_of self.old) (led operation self.old.thread operands cursor.old) result }
        ensures rest { IfWant result (rest_of cursor.old.pages.now self.new ≡ led operation self.old.thread operands cursor.old) }
        ensures before { before_of self.new ≡ before_of self.old }
    {
        let instr = operands.instr();
        match self.operands_led(&mut operands, operation, cursor) {
            Ok(values) => {
                let closing = Body {
                    operation,
                    instr,
                    thread: self.thread,
                    values,
                    state: cursor.state,
                    kept: Replies::none(),
                };
                self.closed(closing, cursor)
            }
            Err(Stop::Wants(reference)) => {
                self.stage = Stage::Evaluates(operation, operands);
                TieStep::Want(reference)
            }
            Err(Stop::Fails(exception)) => TieStep::Raised(exception, self.before),
        }
    }

    /// Goes on to the next reference or to the end, by the tree that is left.
    fn taken_on(&mut self, pages: &Pages, reply: Option<u64>) -> TieStep
        ensures shows { Shows (before_of self.old) (feed pages.now (rest_of pages.now self.old) (list_of reply)) result }
        ensures rest { IfWant result (rest_of pages.now self.new ≡ feed pages.now (rest_of pages.now self.old) (list_of reply)) }
        ensures before { before_of self.new ≡ before_of self.old }
    {
        match self.stage {
            Stage::Refused(refusal) => refusal.fault(&self.before),
            Stage::Evaluates(operation, operands) => {
                let given = operands.replies_with(reply);
                let mut cursor = Cursor {
                    state: operands.state(),
                    pages,
                    replies: given.as_slice(),
                };
                self.evaluated(operation, operands, &mut cursor)
            }
            Stage::Closes(closing) => {
                let given = closing.kept.with(reply);
                let mut cursor = Cursor {
                    state: closing.state,
                    pages,
                    replies: given.as_slice(),
                };
                self.closed(closing, &mut cursor)
            }
        }
    }

    /// Goes on to the next reference or to the end. The reply is that of the last reference wanted, and none at first.
    /// No fault is an arithmetic exception, so that an arithmetic one that is raised is a trap.
    pub fn step(&mut self, pages: &Pages, reply: Option<u64>) -> TieStep
        ensures answers { (state : VaxState) (tree : Tree) (replies : List ℕ) → Stands pages.now self.old state tree replies
            → result ≡ step_of (outcome state (answer pages.now tree (replies ++ list_of reply))) }
        ensures faults { (state : VaxState) (tree : Tree) (replies : List ℕ) → Stands pages.now self.old state tree replies
            → FailsByFault (answer pages.now tree (replies ++ list_of reply)) }
        ensures stands { (state : VaxState) (tree : Tree) (replies : List ℕ) → Stands pages.now self.old state tree replies
            → IfWant result (Stands pages.now self.new state tree (replies ++ list_of reply)) }
    {
        self.taken_on(pages, reply)
    }
}
