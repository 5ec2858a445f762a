//! What is told of a replayed order.
ghost use Rattle.std.specs.Prelude.{◌≡◌, map, IfOk};
ghost use Rattle.std.specs.List.{list_any};
ghost use Rattle.report_text.specs.Report.{report_text};
ghost use Rattle.stored_runs.specs.Ends.{done_by, is_raised, is_spent};

use crate::ends::Replayed;
use report_text::report;
use std::alloc::Global;
use vax_driven::End;
use vax_form::{VaxState, WantOfMemory};
use vest_stops::Done;

/// The lines of all threads, in their order.
pub fn replay_report(alloc: Global, replayed: &Replayed) -> Result<Vec<u8>, WantOfMemory>
    ensures { IfOk result (λ lines. lines.items ≡ report_text replayed.now.ends) }
{
    report(alloc, &replayed.ends)
}

/// What the ends of threads decide: some thread raised an exception; else some thread is spent; else all exited.
pub fn done_of(ends: &[(End, VaxState, u64)]) -> Done
    ensures { result ≡ done_by (map (λ e. e.0) ends.now) }
{
    if any_raised(ends) {
        Done::Exception
    } else if any_spent(ends) {
        Done::Spent
    } else {
        Done::Ok
    }
}

fn any_raised(ends: &[(End, VaxState, u64)]) -> bool
    ensures { result ≡ list_any is_raised (map (λ e. e.0) ends.now) }
{
    ends.iter().map(|end| end.0).any(|end| is_raised(end))
}

fn any_spent(ends: &[(End, VaxState, u64)]) -> bool
    ensures { result ≡ list_any is_spent (map (λ e. e.0) ends.now) }
{
    ends.iter().map(|end| end.0).any(|end| is_spent(end))
}

fn is_raised(end: End) -> bool
    ensures { result ≡ is_raised end }
{
    matches!(end, End::Raised(_))
}

fn is_spent(end: End) -> bool
    ensures { result ≡ is_spent end }
{
    matches!(end, End::Spent)
}
