// The status of a command, and the line that says why it stopped. A fault of the report changes no status.
ghost use Rattle.std.specs.Prelude.{◌≡◌};
ghost use Rattle.vest_stops.specs.Line.{line_of};
ghost use Rattle.vest_stops.specs.Status.{status_of};
ghost use Rattle.vest_ends.specs.Ends.{EndsAs};
ghost use Rattle.vest_ends.specs.Says.{Says, usage_line};

use report_text::Line;
use vest_stops::{Done, Status, Stop};
use vt_outside::{Sink, write_all};

/// The status, and where the command stopped, why.
pub fn end<E: Sink>(ended: Result<Done, Stop>, report: &mut E) -> Status
    ensures { EndsAs ended result (E.meaning report.old) (E.meaning report.new) }
{
    match ended {
        Ok(done) => done.status(),
        Err(stop) => refuse(&stop, report),
    }
}

/// Says why a call stops.
pub fn refuse<E: Sink>(stop: &Stop, report: &mut E) -> Status
    ensures status { result ≡ status_of stop.now }
    ensures line { Says (line_of stop.now) (E.meaning report.old) (E.meaning report.new) }
{
    let line = stop.line();
    let _ = write_all(report, line.as_slice());
    stop.status()
}

/// Says that the words spell no command.
pub fn tell_usage<E: Sink>(report: &mut E) -> Status
    ensures status { result ≡ Status.Usage }
    ensures line { Says usage_line (E.meaning report.old) (E.meaning report.new) }
{
    let line = usage_line();
    let _ = write_all(report, line.as_slice());
    Status::Usage
}

fn usage_line() -> Line
    ensures { result ≡ usage_line }
{
    let mut line = Line::new();
    line.push_text(b"usage: vest COMMAND WORDS\n");
    line
}
