// How a call ends: its status, and the line that says why it stopped; or that it waits.
ghost use Rattle.vest_cli.specs.Stopping.{RefusesWords};
ghost use Rattle.vest_cli.specs.Waiting.{Concludes};

use crate::halt::Halt;
use crate::waiting::Waiting;
use command_words::WordsFault;
use vest_ends::{end, refuse, tell_usage};
use vest_stops::{Done, Status, Stop};
use vt_outside::Sink;

/// The status, and where the command stopped, why. A run that waits is given on.
pub(crate) fn conclude<E: Sink>(
    ended: Result<Done, Halt>,
    report: &mut E,
) -> Result<Status, Waiting>
    ensures { Concludes ended result (E.meaning report.old) (E.meaning report.new) }
{
    match ended {
        Ok(done) => Ok(end(Ok(done), report)),
        Err(Halt::Stops(stop)) => Ok(end(Err(stop), report)),
        Err(Halt::Waits(waiting)) => Err(waiting),
    }
}

/// Says why no command was spelled.
pub(crate) fn refuse_words<E: Sink>(fault: WordsFault, report: &mut E) -> Status
    ensures { RefusesWords fault result (E.meaning report.old) (E.meaning report.new) }
{
    match fault {
        WordsFault::Usage => tell_usage(report),
        WordsFault::WantOfMemory => refuse(&Stop::WantOfMemory, report),
    }
}
