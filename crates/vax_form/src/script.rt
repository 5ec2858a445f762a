// How scripts stop and end, and the laws of their trees.
ghost use Rattle.vax_form.specs.After.{AfterWithMore};
ghost use Rattle.vax_form.specs.Moments.{HandledIsSettled, HandledStaysInRange};
ghost use Rattle.vax_form.specs.TreeLaws.{FeedingTwice, SeenOfTheRest, MoreReplies, ShowsTheOutcome, SameAnswers};

use crate::state::{Exception, Reference};

/// Why a script does not come to its end.
#[derive(Clone, Copy, Debug, PartialEq, Eq)]
pub enum Stop {
    /// The next reference has no reply.
    Wants(Reference),
    /// It fails with a fault.
    Fails(Exception),
}

/// How the script of an instruction ends.
#[derive(Clone, Copy, Debug, PartialEq, Eq)]
pub enum End {
    Done,
    /// The thread ends.
    Exits,
    /// It is done, and traps with the arithmetic trap of this type.
    Traps(u8),
}

/// The laws of trees: replies may be taken in two lots, further replies change nothing that was done before them, and
/// trees with the same checks, references and ends have the same answers.
#[tactic(auto, using(crate::proofs::Trees::feeding_twice, crate::proofs::Trees::seen_of_the_rest, crate::proofs::Trees::more_replies, crate::proofs::Trees::shows_the_outcome, crate::proofs::Trees::same_answers))]
pub fn tree_laws()
    ensures twice { FeedingTwice }
    ensures rest { SeenOfTheRest }
    ensures more { MoreReplies }
    ensures shown { ShowsTheOutcome }
    ensures same { SameAnswers }
{}

/// Further replies change nothing of what a thread reached before them.
#[tactic(auto, using(crate::proofs::Afters::after_with_more))]
pub fn laws_of_after()
    ensures { AfterWithMore }
{}

/// Where a handler takes the exceptions of an instruction, its outcome is settled, and it stays in range.
#[tactic(auto, using(crate::proofs::Moments::handled_is_settled, crate::proofs::Moments::handled_stays_in_range))]
pub fn laws_of_handlers()
    ensures settled { HandledIsSettled }
    ensures ranged { HandledStaysInRange }
{}
