// What is pending at a state, interpreted a reference at a time.
ghost use Rattle.std.specs.Prelude.{◌≡◌, ◌≢◌, ◌<◌, length};
ghost use Rattle.vax_form.specs.declared.state.Pending.TheVariants.{Nothing};
ghost use Rattle.tie_operands.specs.Replies.{replies_of};

use crate::interpreted::Came;
use crate::place::Ending;
use tie_operands::Replies;
use vax_form::{Outcome, Pages, VaxState};
use vax_long::next_pending;

/// A delivery and a resumption make so many references at most.
const REPLIES_OF_PENDING: usize = 10;

/// A delivery or a resumption, with the state before it and the replies so far.
#[derive(Clone, Copy, Debug)]
pub struct PendingTie {
    pub(crate) before: VaxState,
    pub(crate) kept: Replies<REPLIES_OF_PENDING>,
    ghost pending: { before.pending ≢ Nothing },
    ghost room: { length (replies_of kept) < 10 },
}

impl PendingTie {
    ghost use Rattle.std.specs.Prelude.{ℕ, ◌++◌, []};
    ghost use Rattle.vax_form.specs.Tree.{answer};
    ghost use Rattle.vax_long.specs.Pending.{moment_at};
    ghost use Rattle.tie_operands.specs.Replies.{list_of};
    ghost use Rattle.tie_switch.specs.Interpreted.{step_of, step_with, IfWants};

    /// Begins what is pending.
    pub(crate) fn begin(state: &VaxState) -> PendingTie
        requires pending { state.now.pending ≢ Nothing }
        ensures before { result.before ≡ state.now }
        ensures kept { replies_of result.kept ≡ [] }
    {
        PendingTie {
            before: *state,
            kept: Replies::none(),
        }
    }

    /// Goes on to the next reference or to the end, where the state behind it is put. Whatever it raises is a fault: a delivery that fails raises the
    /// exception that it was to deliver, an arithmetic one too.
    #[inline(never)]
    pub(crate) fn step(&mut self, pages: &Pages, reply: Option<u64>, after: &mut VaxState) -> Came
        ensures answers { (thread : ℕ) → step_with result after.new ≡ step_of (answer pages.now (moment_at pages.now thread self.old.before) (replies_of self.old.kept ++ list_of reply)) }
        ensures kept { IfWants (step_with result after.new) (replies_of self.new.kept ≡ replies_of self.old.kept ++ list_of reply) }
        ensures before { self.new.before ≡ self.old.before }
    {
        let given = self.kept.with(reply);
        match next_pending(&self.before, pages, given.as_slice()) {
            Outcome::Wants(reference) => {
                self.kept = given;
                Came::Wants(reference)
            }
            Outcome::Done(state) => {
                *after = state;
                Came::Leaves(Ending::Finish)
            }
            Outcome::Exits(state) => {
                *after = state;
                Came::Leaves(Ending::Exit)
            }
            Outcome::Raises(exception, _) => Came::Leaves(Ending::Fault(exception)),
        }
    }
}
