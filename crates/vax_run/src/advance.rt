// A thread, an instruction further.
ghost use Rattle.std.specs.Prelude.{◌≡◌, ◌≤◌, length, drop, Some};
ghost use Rattle.vax_form.specs.Tree.{answer, retires};
ghost use Rattle.vax_form.specs.declared.state.VaxState.{VaxState};
ghost use Rattle.vax_meaning.specs.After.{after, one_more};
ghost use Rattle.vax_long.specs.Pending.{moment_at};
ghost use Rattle.vax_run.specs.Answered.{life_behind_of, reached_of, IsPlace};

use crate::answered::{Answer, answered};
use vax_form::{End, Pages, VaxState};

/// How a thread goes on.
#[derive(Clone, Copy, Debug, PartialEq, Eq)]
pub enum Life {
    Runs,
    Exited,
    /// An arithmetic trap of this type.
    Trapped(u8),
}

/// Where a thread stands: its state, and how many of its replies it took.
#[derive(Clone, Copy, Debug, PartialEq, Eq)]
pub struct Place {
    pub life: Life,
    pub state: VaxState,
    pub taken: usize,
}

impl Place {
    ghost use Rattle.vax_run.specs.declared.advance.Life.TheVariants.{Runs};

    /// Where a thread stands before its first instruction.
    pub fn at_start(start: VaxState) -> Place
        ensures { result ≡ record { life = Runs; state = start; taken = 0 } }
    {
        Place {
            life: Life::Runs,
            state: start,
            taken: 0,
        }
    }
}

/// The thread after `count` instructions, from where it stands after `retired`; None where it doesn't come so far.
pub(crate) fn advance(
    pages: &Pages,
    thread: u8,
    from: Place,
    retired: u64,
    replies: &[u64],
    count: u64,
) -> Option<Place>
    requires taken { from.taken ≤ length replies.now }
    requires ahead { retired ≤ count }
    ensures reached { (start : VaxState)
        → after (moment_at pages.now thread) pages.now start retired replies.now ≡ reached_of replies.now (Some from)
        → after (moment_at pages.now thread) pages.now start count replies.now ≡ reached_of replies.now result }
    ensures place { IsPlace (length replies.now) result }
{
    let mut here = Some(from);
    for _ in retired..count {
        let Some(place) = here else {
            return None;
        };
        here = one_more(pages, thread, &place, replies);
    }
    here
}

/// Where a thread stands after one instruction more, from a place where it took no more replies than there are: its
/// instruction, a delivery or a resumption. None where that does not retire, or where the thread has exited or trapped.
pub fn one_more(pages: &Pages, thread: u8, place: &Place, replies: &[u64]) -> Option<Place>
    requires { place.now.taken ≤ length replies.now }
    ensures value { reached_of replies.now result ≡ one_more (moment_at pages.now thread) pages.now (reached_of replies.now (Some place.now)) }
    ensures place { IsPlace (length replies.now) result }
{
    match place.life {
        Life::Runs => retired(pages, thread, place, replies),
        Life::Exited | Life::Trapped(_) => None,
    }
}

/// Where a thread stands that retires what it does at a place.
fn retired(pages: &Pages, thread: u8, place: &Place, replies: &[u64]) -> Option<Place>
    requires { place.now.taken ≤ length replies.now }
    ensures value { reached_of replies.now result ≡ retires (answer pages.now (moment_at pages.now thread place.now.state) (drop place.now.taken replies.now)) }
    ensures place { IsPlace (length replies.now) result }
{
    let left = &replies[place.taken..];
    match answered(pages, &place.state, thread, left) {
        Answer::Comes(end, state, more) => {
            let life = life_behind(end);
            let taken = place.taken + more;
            Some(Place { life, state, taken })
        }
        Answer::Wants(_) | Answer::Fails(_) => None,
    }
}

fn life_behind(end: End) -> Life
    ensures { result ≡ life_behind_of end }
{
    match end {
        End::Done => Life::Runs,
        End::Exits => Life::Exited,
        End::Traps(kind) => Life::Trapped(kind),
    }
}
