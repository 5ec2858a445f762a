// An instruction without strings, gone through anew with each reply.
ghost use Rattle.std.specs.Prelude.{◌≡◌, ◌<◌, ◌++◌, ◌∷◌, ℕ, List, [], length, true, IfSome, IfNone};
ghost use Rattle.tie_operands.specs.Replies.{list_of};
ghost use Rattle.tie_switch.specs.Interpreted.{HasStrings, IfWants, IsPlayed, StepsBy, asks_beyond_operands, has_places, is_place, kept_of, step_of, step_with};
ghost use Rattle.tie_switch.specs.Known.{AreFound};
ghost use Rattle.tie_switch.specs.declared.interpreted.Step.TheVariants.{Leaves, Wants};
ghost use Rattle.tie_switch.specs.declared.place.Last.TheVariants.{Finish};
ghost use Rattle.vax_form.specs.Grammar.{instruction};
ghost use Rattle.vax_form.specs.GrammarFound.{found};
ghost use Rattle.vax_form.specs.Tree.{answer};
ghost use Rattle.vax_form.specs.declared.state.VaxState.{VaxState};
ghost use Rattle.vax_long.specs.Instructions.{long_operation};
ghost use Rattle.vax_long.specs.Pending.{moment_at};

use crate::interpreted::Came;
use crate::known::{decoded_at, place_of};
use tie_interpreter::{played_instr, played_short};
use tie_strings::{Plain, plain_of, played_long, told};
use vax_decode::Decoded;
use vax_form::{
    End, Instr, LongOperation, Operand, Operation, Pages, Reference, VaxState, operation_of,
};
use vax_meaning::Cursor;

/// The opcode of RET.
const RETURN: u8 = 0x04;

/// An instruction without strings makes so many references at most.
const REPLIES_OF_INSTRUCTION: usize = 60;

// The long operation, where it is one.
#[inline(always)]
#[tactic(auto, unfolding(vax_long::specs::Instructions::long_operation))]
fn long_among(operation: Option<Operation>) -> Option<LongOperation>
    ensures { result ≡ long_operation operation }
{
    match operation {
        Some(Operation::Long(long)) => Some(long),
        _ => None,
    }
}

// Whether an operation makes references besides those of its operands.
fn asks(operation: Option<Operation>) -> bool
    ensures { result ≡ asks_beyond_operands operation }
{
    matches!(
        operation,
        Some(
            Operation::PushLong
                | Operation::PushAddress(_)
                | Operation::BranchToSubroutine(_)
                | Operation::JumpToSubroutine
                | Operation::ReturnFromSubroutine
                | Operation::ChangeMode
        )
    )
}

// Whether an operand is in memory.
#[inline(always)]
fn is_place(operand: &Operand) -> bool
    ensures { result ≡ is_place operand.now }
{
    matches!(operand, Operand::Place { .. })
}

// Whether one of the operands that are looked at is in memory: few instructions have more.
#[inline(always)]
fn has_places(instr: &Instr) -> bool
    ensures { result ≡ has_places instr.now }
{
    let operands = &instr.operands;
    is_place(&operands[0]) || is_place(&operands[1]) || is_place(&operands[2])
}

/// Goes through an instruction that is not long and is thought to make no reference, and tells whether it ended there, so that
/// the thread goes on with the state behind it.
#[inline(always)]
pub(crate) fn ends_at_once(cursor: &mut Cursor, instr: &Instr, thread: u8) -> bool
    ensures { result ≡ true → StepsBy cursor.old.pages.now thread cursor.old.state (instruction instr.now) cursor.old.replies.now (Leaves (Finish cursor.new.state)) }
{
    let operation = operation_of(instr.opcode);
    if asks(operation) {
        return false;
    }
    match long_among(operation) {
        None => match played_instr(cursor, operation, instr, thread) {
            Ok(End::Done) => true,
            _ => false,
        },
        Some(_) => false,
    }
}

/// An instruction with the state before it and the replies so far, of which there are `count`. One with strings has none.
#[derive(Clone, Copy, Debug)]
pub struct Played {
    pub(crate) before: VaxState,
    pub(crate) thread: u8,
    pub(crate) count: usize,
    pub(crate) values: [u64; REPLIES_OF_INSTRUCTION + 1],
}

impl Played {
    /// Begins what stands at the PC.
    #[inline(always)]
    pub(crate) fn begin(state: &VaxState, thread: u8) -> Played
        ensures before { result.before ≡ state.now }
        ensures thread { result.thread ≡ thread }
        ensures kept { kept_of result ≡ [] }
    {
        Played {
            before: *state,
            thread,
            count: 0,
            values: [0; REPLIES_OF_INSTRUCTION + 1],
        }
    }

    /// The same in place.
    #[inline(always)]
    pub(crate) fn begin_anew(&mut self, state: &VaxState, thread: u8)
        ensures before { self.new.before ≡ state.now }
        ensures thread { self.new.thread ≡ thread }
        ensures kept { kept_of self.new ≡ [] }
    {
        self.before = *state;
        self.thread = thread;
        self.count = 0;
    }

    // Keeps a reply, where there is room.
    #[inline(always)]
    fn push(&mut self, reply: u64)
        ensures before { self.new.before ≡ self.old.before }
        ensures thread { self.new.thread ≡ self.old.thread }
        ensures kept { length (kept_of self.old) < 61 → kept_of self.new ≡ kept_of self.old ++ reply ∷ [] }
    {
        if self.count < self.values.len() {
            self.values[self.count] = reply;
            self.count += 1;
        }
    }

    // Takes the reply to the last reference, where there is one.
    #[inline(always)]
    fn take(&mut self, reply: Option<u64>)
        ensures before { self.new.before ≡ self.old.before }
        ensures thread { self.new.thread ≡ self.old.thread }
        ensures kept { length (kept_of self.old) < 60 → kept_of self.new ≡ kept_of self.old ++ list_of reply }
    {
        if let Some(reply) = reply {
            self.push(reply);
        }
    }

    // The replies so far.
    #[inline(always)]
    fn replies(&self) -> &[u64]
        ensures { length (kept_of self.now) < 61 → result.now ≡ kept_of self.now }
    {
        match self.values.get(..self.count) {
            Some(replies) => replies,
            None => &[],
        }
    }

    // Goes through an instruction; None where it has strings.
    #[inline(always)]
    fn go_through(
        &self,
        instr: &Instr,
        pages: &Pages,
        replies: &[u64],
        after: &mut VaxState,
    ) -> Option<Came>
        ensures comes { IfSome result (λ came. StepsBy pages.now self.now.thread self.now.before (instruction instr.now) replies.now (step_with came after.new)) }
        ensures strings { IfNone result (HasStrings (instruction instr.now)) }
    {
        let mut cursor = Cursor {
            state: self.before,
            pages,
            replies,
        };
        let operation = operation_of(instr.opcode);
        match long_among(operation) {
            None => {
                let run = played_instr(&mut cursor, operation, instr, self.thread);
                Some(Came::gone_through(run, &self.before, &cursor.state, after))
            }
            Some(operation) => match plain_of(operation) {
                Some(plain) => {
                    let run = played_long(&mut cursor, plain, instr);
                    Some(Came::gone_through(run, &self.before, &cursor.state, after))
                }
                None => None,
            },
        }
    }

    // Goes through what stands at the PC, which is decoded and known then; None where it has strings.
    #[inline(never)]
    fn go_through_new(
        &self,
        pages: &Pages,
        known: &mut [Option<Instr>],
        replies: &[u64],
        after: &mut VaxState,
    ) -> Option<Came>
        requires known { AreFound pages.now known.old }
        ensures known { AreFound pages.now known.new }
        ensures comes { IfSome result (λ came. StepsBy pages.now self.now.thread self.now.before (found pages.now self.now.before.pc) replies.now (step_with came after.new)) }
        ensures strings { IfNone result (HasStrings (found pages.now self.now.before.pc)) }
    {
        let decoded = decoded_at(pages, known, self.before.pc);
        match &decoded {
            Decoded::Instr(instr) => self.go_through(instr, pages, replies, after),
            Decoded::Reserved | Decoded::BadMode | Decoded::Past(_) => {
                let mut cursor = Cursor {
                    state: self.before,
                    pages,
                    replies,
                };
                let run = played_short(&mut cursor, &decoded, self.thread);
                Some(Came::gone_through(run, &self.before, &cursor.state, after))
            }
        }
    }

    // Goes through what stands at the PC, by what is known; None where it has strings.
    #[inline(always)]
    fn go_through_known(
        &self,
        pages: &Pages,
        known: &mut [Option<Instr>],
        replies: &[u64],
        after: &mut VaxState,
    ) -> Option<Came>
        requires known { AreFound pages.now known.old }
        ensures known { AreFound pages.now known.new }
        ensures comes { IfSome result (λ came. StepsBy pages.now self.now.thread self.now.before (found pages.now self.now.before.pc) replies.now (step_with came after.new)) }
        ensures strings { IfNone result (HasStrings (found pages.now self.now.before.pc)) }
    {
        let pc = self.before.pc;
        if let Some(Some(instr)) = known.get(place_of(pc)) {
            if instr.at == pc {
                return self.go_through(instr, pages, replies, after);
            }
        }
        self.go_through_new(pages, known, replies, after)
    }

    // What a RET wants, where the number of its replies tells it.
    #[inline(always)]
    fn return_wanted(&self, instr: &Instr, pages: &Pages, replies: &[u64]) -> Option<Reference>
        requires { instr.now.opcode ≡ 4 }
        ensures { IfSome result (λ reference. StepsBy pages.now self.now.thread self.now.before (instruction instr.now) replies.now (Wants reference)) }
    {
        told(&self.before, Plain::Return, instr, pages, replies)
    }

    // The same of what stands at the PC, where it is known.
    #[inline(always)]
    fn wanted(&self, pages: &Pages, known: &[Option<Instr>], replies: &[u64]) -> Option<Reference>
        requires known { AreFound pages.now known.now }
        ensures { IfSome result (λ reference. StepsBy pages.now self.now.thread self.now.before (found pages.now self.now.before.pc) replies.now (Wants reference)) }
    {
        let pc = self.before.pc;
        if let Some(Some(instr)) = known.get(place_of(pc)) {
            if instr.at == pc && instr.opcode == RETURN {
                return self.return_wanted(instr, pages, replies);
            }
        }
        None
    }

    /// The instruction, where it is known, has no reply, and no operand in memory.
    #[inline(always)]
    pub(crate) fn at_once<'a>(
        &self,
        _pages: &Pages,
        known: &'a [Option<Instr>],
    ) -> Option<&'a Instr>
        requires known { AreFound _pages.now known.now }
        ensures found { IfSome result (λ instr. found _pages.now self.now.before.pc ≡ instruction instr.now) }
        ensures kept { IfSome result (λ instr. kept_of self.now ≡ []) }
    {
        let pc = self.before.pc;
        if let Some(Some(instr)) = known.get(place_of(pc)) {
            if self.count == 0 && instr.at == pc && !has_places(instr) {
                return Some(instr);
            }
        }
        None
    }

    /// Goes on to the next reference or to the end, where the state behind it is put; None where the instruction has strings.
    #[inline(always)]
    pub(crate) fn step(
        &mut self,
        pages: &Pages,
        known: &mut [Option<Instr>],
        reply: Option<u64>,
        after: &mut VaxState,
    ) -> Option<Came>
        requires known { AreFound pages.now known.old }
        ensures known { AreFound pages.now known.new }
        ensures before { self.new.before ≡ self.old.before }
        ensures thread { self.new.thread ≡ self.old.thread }
        ensures answers { IfSome result (λ came. (thread : ℕ) (state : VaxState) (replies : List ℕ) → IsPlayed pages.now thread self.old state replies
            → step_with came after.new ≡ step_of (answer pages.now (moment_at pages.now thread state) (replies ++ list_of reply))) }
        ensures stands { IfSome result (λ came. (thread : ℕ) (state : VaxState) (replies : List ℕ) → IsPlayed pages.now thread self.old state replies
            → IfWants (step_with came after.new) (IsPlayed pages.now thread self.new state (replies ++ list_of reply))) }
        ensures strings { IfNone result (HasStrings (found pages.now self.old.before.pc)) }
    {
        self.take(reply);
        let replies = self.replies();
        match self.wanted(pages, known, replies) {
            Some(reference) => Some(Came::Wants(reference)),
            None => self.go_through_known(pages, known, replies, after),
        }
    }
}
