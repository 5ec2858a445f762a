//! A legal run is replayed, for the crates above. Its functions do nothing.
ghost use Rattle.stored_runs.specs.Law.{HeadlineIsReplayed, LegalIsReplayed};

/// A history and processors that are legal, have the headline and have ended, within the limits of an order file: the bytes
/// of the run's stored order are accepted as just that order, and what it gives is the output of the history and, of each
/// processor, its end, its shown state and its count of retired instructions.
pub fn headline_is_replayed()
    ensures { HeadlineIsReplayed }
{}

/// So it is of a legal run that has ended, for a sound meaning and a translation that meets it.
pub fn legal_is_replayed()
    ensures { LegalIsReplayed }
{}
