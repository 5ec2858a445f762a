// A long instruction, one reference at a time.
ghost use Rattle.std.specs.Prelude.{◌≡◌, ◌∷◌, [], IfSome, is_some, true};
ghost use Rattle.tie_strings.specs.Whole.{closed_at, led, LeadsToBody};

use crate::begun::{comparison_begun, filled_move_begun, move_begun, search_begun};
use crate::body::{Body, Plain};
use crate::string::{StringLoop, Strings};
use tie_operands::{Operands, Replies, TieStep};
use vax_decode::{Decoded, decode_at};
use vax_form::{Instr, LongOperation, Operation, Pages, Reference, Stop, VaxState};
use vax_long::long_operation_of;
use vax_meaning::{Cursor, Evaluated};

/// Where a long instruction stands that was begun.
#[derive(Clone, Copy, Debug, PartialEq, Eq)]
enum Stage {
    Evaluates(LongOperation, Operands),
    Closes(Body),
    Repeats(StringLoop),
}

impl Stage {
    ghost use Rattle.vax_form.specs.Tree.{feed, instruction_tree};
    ghost use Rattle.vax_form.specs.declared.pages.Pages.{Pages};
    ghost use Rattle.vax_long.specs.Instructions.{long_script};
    ghost use Rattle.tie_strings.specs.Whole.{stage_rest};

    fn begin(state: &VaxState, operation: LongOperation, instr: &Instr) -> Stage
        ensures { (pages : Pages) → stage_rest pages result ≡ feed pages (instruction_tree pages (long_script operation instr.now) state.now) [] }
    {
        let row = Operation::Long(operation).row();
        Stage::Evaluates(operation, Operands::begin(state, &row, instr))
    }
}

/// A long instruction, a reference at a time.
#[derive(Clone, Copy, Debug, PartialEq, Eq)]
pub struct LongTie {
    /// The state before it, which a fault shows.
    before: VaxState,
    stage: Stage,
}

impl LongTie {
    ghost use Rattle.std.specs.Prelude.{ℕ, List, ◌++◌};
    ghost use Rattle.vax_form.specs.GrammarFound.{found};
    ghost use Rattle.vax_form.specs.Tree.{Tree, Wants, answer, feed, outcome, instruction_tree};
    ghost use Rattle.vax_form.specs.declared.pages.Pages.{Pages};
    ghost use Rattle.vax_form.specs.declared.state.VaxState.{VaxState};
    ghost use Rattle.vax_decode.specs.Decoded.{found_of};
    ghost use Rattle.vax_long.specs.Instructions.{script_found, tree_at};
    ghost use Rattle.tie_operands.specs.Replies.{list_of};
    ghost use Rattle.tie_operands.specs.Rest.{instr_of};
    ghost use Rattle.tie_operands.specs.Steps.{step_of, Shows, IfWant, FailsByFault};
    ghost use Rattle.vax_form.specs.declared.operation.LongOperation.TheVariants.{MoveCharacters, MoveCharactersFilled, CompareCharacters, LocateCharacter, SkipCharacter};
    ghost use Rattle.tie_strings.specs.Bodies.{body_at, long_of};
    ghost use Rattle.tie_strings.specs.Strings.{strings_tree};
    ghost use Rattle.tie_strings.specs.Whole.{IsLong, goes_on_alone, rest_of, stage_rest, before_of, Stands};
    ghost use Rattle.tie_strings.specs.declared.tie.Stage.TheVariants.{Evaluates, Closes};

    /// Begins the long instruction (`vax_form::is_long`) that stands at the PC.
    pub fn begin(state: &VaxState, pages: &Pages, thread: u8) -> LongTie
        requires long { IsLong (found pages.now state.now.pc) }
        ensures { Stands pages.now result state.now (tree_at pages.now thread state.now) [] }
    {
        LongTie::begin_decoded(state, &decode_at(pages, state.pc), thread)
    }

    /// Begins the long instruction that was decoded at the PC.
    pub fn begin_decoded(state: &VaxState, decoded: &Decoded, _thread: u8) -> LongTie
        requires long { IsLong (found_of decoded.now) }
        ensures { (pages : Pages) → Stands pages result state.now (instruction_tree pages (script_found (found_of decoded.now) _thread) state.now) [] }
    {
        let Decoded::Instr(instr) = decoded else {
            unreachable!()
        };
        let Some(operation) = long_operation_of(instr.opcode) else {
            unreachable!()
        };
        LongTie {
            before: *state,
            stage: Stage::begin(state, operation, instr),
        }
    }

    /// Evaluates operands, where what comes behind them is what an operation does.
    fn operands_led(
        &self,
        operands: &mut Operands,
        operation: LongOperation,
        cursor: &mut Cursor,
    ) -> Result<[Evaluated; 6], Stop>
        ensures leads { LeadsToBody (before_of self.now) operation operands.old cursor.old result operands.new cursor.new }
        ensures instr { instr_of operands.new ≡ instr_of operands.old }
    {
        operands.evaluate(cursor)
    }

    /// Goes on with an operation without strings.
    fn closed(&mut self, mut closing: Body, cursor: &mut Cursor) -> TieStep
        ensures shows { Shows (before_of self.old) (body_at closing cursor.old) result }
        ensures rest { IfWant result (rest_of cursor.old.pages.now self.new ≡ body_at closing cursor.old) }
        ensures before { before_of self.new ≡ before_of self.old }
    {
        let step = closing.close(cursor, &self.before);
        self.stage = Stage::Closes(closing);
        step
    }

    /// Goes on with strings.
    fn repeated(&mut self, strings: Strings, cursor: &Cursor) -> TieStep
        ensures shows { Shows (before_of self.old) (feed cursor.now.pages.now (strings_tree cursor.now.pages.now strings cursor.now.state) cursor.now.replies.now) result }
        ensures rest { IfWant result (rest_of cursor.now.pages.now self.new ≡ feed cursor.now.pages.now (strings_tree cursor.now.pages.now strings cursor.now.state) cursor.now.replies.now) }
        ensures before { before_of self.new ≡ before_of self.old }
    {
        let mut under_way = StringLoop {
            state: cursor.state,
            strings,
        };
        let step = under_way.go_on(cursor.pages, &self.before, cursor.replies);
        self.stage = Stage::Repeats(under_way);
        step
    }

    /// Begins what an operation without strings does.
    fn plain(
        &mut self,
        operation: Plain,
        instr: &Instr,
        values: &[Evaluated; 6],
        cursor: &mut Cursor,
    ) -> TieStep
        ensures shows { Shows (before_of self.old) (closed_at (long_of operation) instr.now values.now cursor.old) result }
        ensures rest { IfWant result (rest_of cursor.old.pages.now self.new ≡ closed_at (long_of operation) instr.now values.now cursor.old) }
        ensures before { before_of self.new ≡ before_of self.old }
    {
        let closing = Body {
            operation,
            instr: *instr,
            values: *values,
            state: cursor.state,
            kept: Replies::none(),
        };
        self.closed(closing, cursor)
    }

    /// MOVC3 behind its operands.
    fn moved(&mut self, instr: &Instr, values: &[Evaluated; 6], cursor: &mut Cursor) -> TieStep
        ensures shows { Shows (before_of self.old) (closed_at MoveCharacters instr.now values.now cursor.old) result }
        ensures rest { IfWant result (rest_of cursor.old.pages.now self.new ≡ closed_at MoveCharacters instr.now values.now cursor.old) }
        ensures before { before_of self.new ≡ before_of self.old }
    {
        match move_begun(cursor, instr, values) {
            Ok(moving) => self.repeated(Strings::Moves(moving), cursor),
            Err(stop) => TieStep::stopped(stop, &self.before),
        }
    }

    /// MOVC5 behind its operands.
    fn moved_filled(
        &mut self,
        instr: &Instr,
        values: &[Evaluated; 6],
        cursor: &mut Cursor,
    ) -> TieStep
        ensures shows { Shows (before_of self.old) (closed_at MoveCharactersFilled instr.now values.now cursor.old) result }
        ensures rest { IfWant result (rest_of cursor.old.pages.now self.new ≡ closed_at MoveCharactersFilled instr.now values.now cursor.old) }
        ensures before { before_of self.new ≡ before_of self.old }
    {
        match filled_move_begun(cursor, instr, values) {
            Ok(moving) => self.repeated(Strings::Moves(moving), cursor),
            Err(stop) => TieStep::stopped(stop, &self.before),
        }
    }

    /// CMPC3 behind its operands.
    fn compared(&mut self, instr: &Instr, values: &[Evaluated; 6], cursor: &mut Cursor) -> TieStep
        ensures shows { Shows (before_of self.old) (closed_at CompareCharacters instr.now values.now cursor.old) result }
        ensures rest { IfWant result (rest_of cursor.old.pages.now self.new ≡ closed_at CompareCharacters instr.now values.now cursor.old) }
        ensures before { before_of self.new ≡ before_of self.old }
    {
        self.repeated(Strings::Compares(comparison_begun(instr, values)), cursor)
    }

    /// LOCC behind its operands.
    fn located(&mut self, instr: &Instr, values: &[Evaluated; 6], cursor: &mut Cursor) -> TieStep
        ensures shows { Shows (before_of self.old) (closed_at LocateCharacter instr.now values.now cursor.old) result }
        ensures rest { IfWant result (rest_of cursor.old.pages.now self.new ≡ closed_at LocateCharacter instr.now values.now cursor.old) }
        ensures before { before_of self.new ≡ before_of self.old }
    {
        self.repeated(Strings::Scans(search_begun(instr, true, values)), cursor)
    }

    /// SKPC behind its operands.
    fn skipped(&mut self, instr: &Instr, values: &[Evaluated; 6], cursor: &mut Cursor) -> TieStep
        ensures shows { Shows (before_of self.old) (closed_at SkipCharacter instr.now values.now cursor.old) result }
        ensures rest { IfWant result (rest_of cursor.old.pages.now self.new ≡ closed_at SkipCharacter instr.now values.now cursor.old) }
        ensures before { before_of self.new ≡ before_of self.old }
    {
        self.repeated(Strings::Scans(search_begun(instr, false, values)), cursor)
    }

    /// Begins what an operation does behind its operands.
    fn behind(
        &mut self,
        operation: LongOperation,
        instr: &Instr,
        values: &[Evaluated; 6],
        cursor: &mut Cursor,
    ) -> TieStep
        ensures shows { Shows (before_of self.old) (closed_at operation instr.now values.now cursor.old) result }
        ensures rest { IfWant result (rest_of cursor.old.pages.now self.new ≡ closed_at operation instr.now values.now cursor.old) }
        ensures before { before_of self.new ≡ before_of self.old }
    {
        match operation {
            LongOperation::Index => self.plain(Plain::Index, instr, values, cursor),
            LongOperation::CallGeneral => self.plain(Plain::CallGeneral, instr, values, cursor),
            LongOperation::CallStack => self.plain(Plain::CallStack, instr, values, cursor),
            LongOperation::Return => self.plain(Plain::Return, instr, values, cursor),
            LongOperation::PushRegisters => self.plain(Plain::PushRegisters, instr, values, cursor),
            LongOperation::PopRegisters => self.plain(Plain::PopRegisters, instr, values, cursor),
            LongOperation::MoveCharacters => self.moved(instr, values, cursor),
            LongOperation::MoveCharactersFilled => self.moved_filled(instr, values, cursor),
            LongOperation::CompareCharacters => self.compared(instr, values, cursor),
            LongOperation::LocateCharacter => self.located(instr, values, cursor),
            LongOperation::SkipCharacter => self.skipped(instr, values, cursor),
        }
    }

    /// Goes on with the operands.
    fn evaluated(
        &mut self,
        operation: LongOperation,
        mut operands: Operands,
        cursor: &mut Cursor,
    ) -> TieStep
        ensures shows { Shows (before_of self.old) (led operation operands cursor.old) result }
        ensures rest { IfWant result (rest_of cursor.old.pages.now self.new ≡ led operation operands cursor.old) }
        ensures before { before_of self.new ≡ before_of self.old }
    {
        let instr = operands.instr();
        match self.operands_led(&mut operands, operation, cursor) {
            Ok(values) => self.behind(operation, &instr, &values, cursor),
            Err(Stop::Wants(reference)) => {
                self.stage = Stage::Evaluates(operation, operands);
                TieStep::Want(reference)
            }
            Err(Stop::Fails(exception)) => TieStep::Raised(exception, self.before),
        }
    }

    /// Goes on with the operands by the next reply, where there is one.
    #[inline(never)]
    fn evaluated_on(
        &mut self,
        operation: LongOperation,
        operands: Operands,
        pages: &Pages,
        reply: Option<u64>,
    ) -> TieStep
        ensures shows { Shows (before_of self.old) (feed pages.now (stage_rest pages.now (Evaluates operation operands)) (list_of reply)) result }
        ensures rest { IfWant result (rest_of pages.now self.new ≡ feed pages.now (stage_rest pages.now (Evaluates operation operands)) (list_of reply)) }
        ensures before { before_of self.new ≡ before_of self.old }
    {
        let given = operands.replies_with(reply);
        let mut cursor = Cursor {
            state: operands.state(),
            pages,
            replies: given.as_slice(),
        };
        self.evaluated(operation, operands, &mut cursor)
    }

    /// Goes on with an operation without strings by the next reply, where there is one.
    #[inline(never)]
    fn closed_on(&mut self, closing: Body, pages: &Pages, reply: Option<u64>) -> TieStep
        ensures shows { Shows (before_of self.old) (feed pages.now (stage_rest pages.now (Closes closing)) (list_of reply)) result }
        ensures rest { IfWant result (rest_of pages.now self.new ≡ feed pages.now (stage_rest pages.now (Closes closing)) (list_of reply)) }
        ensures before { before_of self.new ≡ before_of self.old }
    {
        let given = closing.kept.with(reply);
        let mut cursor = Cursor {
            state: closing.state,
            pages,
            replies: given.as_slice(),
        };
        self.closed(closing, &mut cursor)
    }

    /// Goes on to the next reference or to the end at any stage.
    #[inline(never)]
    fn staged_on(&mut self, pages: &Pages, reply: Option<u64>) -> TieStep
        ensures shows { Shows (before_of self.old) (feed pages.now (rest_of pages.now self.old) (list_of reply)) result }
        ensures rest { IfWant result (rest_of pages.now self.new ≡ feed pages.now (rest_of pages.now self.old) (list_of reply)) }
        ensures before { before_of self.new ≡ before_of self.old }
    {
        match &mut self.stage {
            Stage::Repeats(under_way) => under_way.answered(pages, &self.before, reply),
            Stage::Evaluates(operation, operands) => {
                let (operation, operands) = (*operation, *operands);
                self.evaluated_on(operation, operands, pages, reply)
            }
            Stage::Closes(closing) => {
                let closing = *closing;
                self.closed_on(closing, pages, reply)
            }
        }
    }

    /// Goes on to the next reference or to the end, by the tree that is left: in a string at once.
    #[inline(always)]
    fn taken_on(&mut self, pages: &Pages, reply: Option<u64>) -> TieStep
        ensures shows { Shows (before_of self.old) (feed pages.now (rest_of pages.now self.old) (list_of reply)) result }
        ensures rest { IfWant result (rest_of pages.now self.new ≡ feed pages.now (rest_of pages.now self.old) (list_of reply)) }
        ensures before { before_of self.new ≡ before_of self.old }
    {
        match &mut self.stage {
            Stage::Repeats(under_way) => under_way.answered(pages, &self.before, reply),
            Stage::Evaluates(..) | Stage::Closes(_) => self.staged_on(pages, reply),
        }
    }

    /// Goes on to the next reference or to the end. The reply is that of the last reference wanted, and none at first.
    /// No fault is an arithmetic exception, so that an arithmetic one that is raised is a trap.
    #[inline(always)]
    pub fn step(&mut self, pages: &Pages, reply: Option<u64>) -> TieStep
        ensures answers { (state : VaxState) (tree : Tree) (replies : List ℕ) → Stands pages.now self.old state tree replies
            → result ≡ step_of (outcome state (answer pages.now tree (replies ++ list_of reply))) }
        ensures faults { (state : VaxState) (tree : Tree) (replies : List ℕ) → Stands pages.now self.old state tree replies
            → FailsByFault (answer pages.now tree (replies ++ list_of reply)) }
        ensures stands { (state : VaxState) (tree : Tree) (replies : List ℕ) → Stands pages.now self.old state tree replies
            → IfWant result (Stands pages.now self.new state tree (replies ++ list_of reply)) }
    {
        self.taken_on(pages, reply)
    }

    /// The reference that is wanted, where what is left of a string tells it.
    #[inline(always)]
    pub fn told(&self, pages: &Pages) -> Option<Reference>
        ensures just { is_some result ≡ goes_on_alone pages.now self.now }
        ensures wanted { IfSome result (λ reference. (state : VaxState) (tree : Tree) (replies : List ℕ) → Stands pages.now self.now state tree replies
            → answer pages.now tree replies ≡ Wants reference) }
    {
        match &self.stage {
            Stage::Repeats(under_way) => under_way.strings.wanted(pages),
            Stage::Evaluates(..) | Stage::Closes(_) => None,
        }
    }

    /// Takes the reply to the reference that is told.
    #[inline(always)]
    pub fn take(&mut self, reply: u64)
        ensures { (pages : Pages) → goes_on_alone pages self.old ≡ true → (state : VaxState) (tree : Tree) (replies : List ℕ) → Stands pages self.old state tree replies
            → Stands pages self.new state tree (replies ++ reply ∷ []) }
    {
        match &mut self.stage {
            Stage::Repeats(under_way) => under_way.strings.take(reply),
            Stage::Evaluates(..) | Stage::Closes(_) => {}
        }
    }
}
