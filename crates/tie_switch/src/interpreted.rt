// What a thread does at a state, interpreted a reference at a time.
ghost use Rattle.std.specs.Prelude.{◌≡◌, []};
ghost use Rattle.tie_strings.specs.Whole as strings;
ghost use Rattle.tie_strings.specs.Whole.{IsLong};
ghost use Rattle.system_model.specs.Steps.{settled_last};
ghost use Rattle.tie_switch.specs.Interpreted.{last_with, raised_last};
ghost use Rattle.tie_switch.specs.Known.{AreFound};
ghost use Rattle.tie_switch.specs.Seen.{last_of};
ghost use Rattle.vax_form.specs.GrammarFound.{found};
ghost use Rattle.vax_form.specs.declared.state.Pending.TheVariants.{Nothing};

use crate::arrive::settled;
use crate::known::there;
use crate::pending::PendingTie;
use crate::place::{Ending, Last};
use crate::played::Played;
use tie_operands::TieStep;
use tie_strings::LongTie;
use vax_form::{End, Exception, Instr, Pages, Pending, Reference, Stop, VaxState};

/// What a step comes to.
#[derive(Clone, Copy)]
pub enum Step {
    /// It wants the reply to this reference.
    Wants(Reference),
    /// It is done, and its handler took its exceptions.
    Leaves(Last),
}

/// How an instruction ends that raises an exception: an arithmetic one is a trap, and every other a fault.
fn raised(exception: Exception, state: &VaxState) -> Last
    ensures { result ≡ raised_last exception state.now }
{
    match exception {
        Exception::Arithmetic(kind) => Last::Trap(kind, *state),
        _ => Last::Fault(exception),
    }
}

/// What a step comes to, but for the state behind it.
#[derive(Clone, Copy)]
pub(crate) enum Came {
    Wants(Reference),
    Leaves(Ending),
}

/// How an instruction ends that raises an exception, where its handler takes it; the state behind it is put there.
#[inline(never)]
fn raised_to(exception: Exception, state: &VaxState, after: &mut VaxState) -> Ending
    ensures { last_of (last_with result after.new) ≡ settled_last state.now (last_of (raised_last exception state.now)) }
{
    settled(state, raised(exception, state)).put(after)
}

impl Came {
    ghost use Rattle.vax_form.specs.Tree.{Answer, outcome};
    ghost use Rattle.vax_form.specs.declared.state.VaxState.{VaxState};
    ghost use Rattle.tie_operands.specs.Steps as ties;
    ghost use Rattle.tie_operands.specs.Steps.{FailsByFault, step_by};
    ghost use Rattle.tie_switch.specs.Interpreted.{handled_answer, step_of, step_with, IfWants, IsWant};

    /// The step of an instruction whose exceptions the handler takes, by the instruction's own. What is raised carries
    /// the state whose handler takes it. The state behind it, where there is one, is put there.
    #[inline(always)]
    pub(crate) fn handled(step: &TieStep, after: &mut VaxState) -> Came
        ensures answers { (before : VaxState) (answer : Answer) → step.now ≡ ties.step_of (outcome before answer) → FailsByFault answer
            → step_with result after.new ≡ step_of (handled_answer before answer) }
        ensures wants { IfWants (step_with result after.new) (IsWant step.now) }
    {
        match step {
            TieStep::Want(reference) => Came::Wants(*reference),
            TieStep::Retired(state) => {
                *after = *state;
                Came::Leaves(Ending::Finish)
            }
            TieStep::Exited(state) => {
                *after = *state;
                Came::Leaves(Ending::Exit)
            }
            TieStep::Raised(exception, state) => {
                Came::Leaves(raised_to(*exception, state, after))
            }
        }
    }

    /// The same of one that was gone through, from one state to another.
    #[inline(always)]
    pub(crate) fn gone_through(
        run: Result<End, Stop>,
        before: &VaxState,
        behind: &VaxState,
        after: &mut VaxState,
    ) -> Came
        ensures answers { (answer : Answer) → step_by before.now run behind.now ≡ ties.step_of (outcome before.now answer) → FailsByFault answer
            → step_with result after.new ≡ step_of (handled_answer before.now answer) }
        ensures wants { IfWants (step_with result after.new) (IsWant (step_by before.now run behind.now)) }
    {
        match run {
            Ok(End::Done) => {
                *after = *behind;
                Came::Leaves(Ending::Finish)
            }
            Ok(End::Exits) => {
                *after = *behind;
                Came::Leaves(Ending::Exit)
            }
            Ok(End::Traps(kind)) => {
                Came::Leaves(raised_to(Exception::Arithmetic(kind), behind, after))
            }
            Err(Stop::Wants(reference)) => Came::Wants(reference),
            Err(Stop::Fails(exception)) => Came::Leaves(raised_to(exception, before, after)),
        }
    }

    // The step with the state behind it.
    fn step(self, after: &VaxState) -> Step
        ensures { result ≡ step_with self after.now }
    {
        match self {
            Came::Wants(reference) => Step::Wants(reference),
            Came::Leaves(ending) => Step::Leaves(ending.last(after)),
        }
    }
}

/// A state to be written over.
pub(crate) const NO_STATE: VaxState = VaxState {
    r: [0; 15],
    pc: 0,
    psw: 0,
    handler: 0,
    pending: Pending::Nothing,
};

/// An instruction whose exceptions the thread's handler takes, or what is pending.
#[derive(Clone, Copy, Debug)]
pub enum Interpreted {
    /// An instruction without strings, or one that is not begun.
    Plays(Played),
    Long(LongTie),
    /// A delivery or a resumption.
    Awaits(PendingTie),
}

impl Interpreted {
    ghost use Rattle.std.specs.Prelude.{ℕ, List, ◌++◌};
    ghost use Rattle.vax_form.specs.Tree.{Tree, answer};
    ghost use Rattle.vax_form.specs.declared.pages.Pages.{Pages};
    ghost use Rattle.vax_form.specs.declared.state.VaxState.{VaxState};
    ghost use Rattle.vax_long.specs.Pending.{moment_at};
    ghost use Rattle.tie_operands.specs.Replies.{list_of};
    ghost use Rattle.tie_switch.specs.Interpreted.{handled_answer, step_of, step_with, Stands, IfWants};

    /// Begins what the thread does at a state.
    #[inline(always)]
    pub fn begin(state: &VaxState, _pages: &Pages, thread: u8) -> Interpreted
        ensures { Stands _pages.now thread result state.now [] }
    {
        match state.pending {
            Pending::Nothing => Interpreted::Plays(Played::begin(state, thread)),
            Pending::Deliver(_) | Pending::Resume => Interpreted::Awaits(PendingTie::begin(state)),
        }
    }

    /// Begins what the thread does at a state, over whatever it was.
    #[inline(never)]
    pub(crate) fn begin_over(&mut self, state: &VaxState, pages: &Pages, thread: u8)
        ensures { Stands pages.now thread self.new state.now [] }
    {
        *self = Interpreted::begin(state, pages, thread);
    }

    /// Begins what the thread does at a state, in place.
    #[inline(always)]
    pub fn begin_anew(&mut self, state: &VaxState, pages: &Pages, thread: u8)
        ensures { Stands pages.now thread self.new state.now [] }
    {
        match state.pending {
            Pending::Nothing => match self {
                Interpreted::Plays(played) => played.begin_anew(state, thread),
                Interpreted::Long(_) | Interpreted::Awaits(_) => {
                    self.begin_over(state, pages, thread);
                }
            },
            Pending::Deliver(_) | Pending::Resume => {
                self.begin_over(state, pages, thread);
            }
        }
    }

    /// Goes on to the next reference or to the end. The reply is that of the last reference wanted, and none at first.
    pub fn step(&mut self, pages: &Pages, reply: Option<u64>) -> Step
        ensures answers { (thread : ℕ) (state : VaxState) (replies : List ℕ) → Stands pages.now thread self.old state replies
            → result ≡ step_of (answer pages.now (moment_at pages.now thread state) (replies ++ list_of reply)) }
        ensures stands { (thread : ℕ) (state : VaxState) (replies : List ℕ) → Stands pages.now thread self.old state replies
            → IfWants result (Stands pages.now thread self.new state (replies ++ list_of reply)) }
    {
        self.step_by(pages, &mut [], reply)
    }

    // Goes on in an instruction with strings to its next reference or to its end, where the state behind it is put: in place, where
    // what is left of a string tells both references.
    #[inline(always)]
    fn strings_step(
        tie: &mut LongTie,
        pages: &Pages,
        reply: Option<u64>,
        after: &mut VaxState,
    ) -> Came
        ensures answers { (state : VaxState) (tree : Tree) (replies : List ℕ) → strings.Stands pages.now tie.old state tree replies
            → step_with result after.new ≡ step_of (handled_answer state (answer pages.now tree (replies ++ list_of reply))) }
        ensures stands { (state : VaxState) (tree : Tree) (replies : List ℕ) → strings.Stands pages.now tie.old state tree replies
            → IfWants (step_with result after.new) (strings.Stands pages.now tie.new state tree (replies ++ list_of reply)) }
    {
        let Some(given) = reply else {
            return Came::handled(&tie.step(pages, None), after);
        };
        if tie.told(pages).is_none() {
            return Came::handled(&tie.step(pages, Some(given)), after);
        }
        tie.take(given);
        match tie.told(pages) {
            Some(reference) => Came::Wants(reference),
            None => Came::handled(&tie.step(pages, None), after),
        }
    }

    // Begins an instruction with strings, and goes on to its first reference or to the end.
    #[inline(never)]
    fn begin_strings(
        &mut self,
        before: &VaxState,
        pages: &Pages,
        known: &mut [Option<Instr>],
        thread: u8,
        reply: Option<u64>,
        after: &mut VaxState,
    ) -> Came
        requires known { AreFound pages.now known.old }
        requires long { IsLong (found pages.now before.now.pc) }
        ensures known { AreFound pages.now known.new }
        ensures answers { before.now.pending ≡ Nothing → step_with result after.new ≡ step_of (answer pages.now (moment_at pages.now thread before.now) (list_of reply)) }
        ensures stands { before.now.pending ≡ Nothing → IfWants (step_with result after.new) (Stands pages.now thread self.new before.now (list_of reply)) }
    {
        let decoded = there(pages, known, before.pc);
        let mut tie = LongTie::begin_decoded(before, &decoded, thread);
        let came = Interpreted::strings_step(&mut tie, pages, reply, after);
        *self = Interpreted::Long(tie);
        came
    }

    /// The same, by the instructions that are known.
    #[inline(always)]
    pub fn step_by(
        &mut self,
        pages: &Pages,
        known: &mut [Option<Instr>],
        reply: Option<u64>,
    ) -> Step
        requires known { AreFound pages.now known.old }
        ensures known { AreFound pages.now known.new }
        ensures answers { (thread : ℕ) (state : VaxState) (replies : List ℕ) → Stands pages.now thread self.old state replies
            → result ≡ step_of (answer pages.now (moment_at pages.now thread state) (replies ++ list_of reply)) }
        ensures stands { (thread : ℕ) (state : VaxState) (replies : List ℕ) → Stands pages.now thread self.old state replies
            → IfWants result (Stands pages.now thread self.new state (replies ++ list_of reply)) }
    {
        let mut after = NO_STATE;
        let came = self.go_on(pages, known, reply, &mut after);
        came.step(&after)
    }

    /// The same; the state behind the step, where there is one, is put there.
    #[inline(always)]
    pub(crate) fn go_on(
        &mut self,
        pages: &Pages,
        known: &mut [Option<Instr>],
        reply: Option<u64>,
        after: &mut VaxState,
    ) -> Came
        requires known { AreFound pages.now known.old }
        ensures known { AreFound pages.now known.new }
        ensures answers { (thread : ℕ) (state : VaxState) (replies : List ℕ) → Stands pages.now thread self.old state replies
            → step_with result after.new ≡ step_of (answer pages.now (moment_at pages.now thread state) (replies ++ list_of reply)) }
        ensures stands { (thread : ℕ) (state : VaxState) (replies : List ℕ) → Stands pages.now thread self.old state replies
            → IfWants (step_with result after.new) (Stands pages.now thread self.new state (replies ++ list_of reply)) }
    {
        match self {
            Interpreted::Plays(played) => match played.step(pages, known, reply, after) {
                Some(came) => came,
                None => {
                    let (before, thread) = (played.before, played.thread);
                    self.begin_strings(&before, pages, known, thread, reply, after)
                }
            },
            Interpreted::Long(tie) => Interpreted::strings_step(tie, pages, reply, after),
            Interpreted::Awaits(tie) => tie.step(pages, reply, after),
        }
    }
}
