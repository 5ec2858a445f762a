//! The line that tells how far a thread has come.
ghost use Rattle.std.specs.Prelude.{◌≡◌};
ghost use Rattle.report_text.specs.Offer.{Offers};
ghost use Rattle.report_text.specs.Progress.{progress_text};

use crate::line::Line;
use crate::threads::Offered;
use vt_outside::{Sink, write_all};

/// Offers the line of a thread that has made so many steps and retired so many instructions, at that PC. It takes no memory.
pub fn offer_progress<E: Sink>(
    thread: u8,
    steps: u64,
    retired: u64,
    pc: u32,
    report: &mut E,
) -> Offered
    ensures { Offers result (E.meaning report.old) (E.meaning report.new) (progress_text thread steps retired pc) }
{
    let line = progress_line(thread, steps, retired, pc);
    match write_all(report, line.as_slice()) {
        Ok(()) => Offered::Written,
        Err(_) => Offered::Failed,
    }
}

fn progress_line(thread: u8, steps: u64, retired: u64, pc: u32) -> Line
    ensures { result ≡ progress_text thread steps retired pc }
{
    let mut line = Line::new();
    line.push_text(b"thread");
    line.push_spaced(u64::from(thread));
    line.push_text(b" steps");
    line.push_spaced(steps);
    line.push_text(b" retired");
    line.push_spaced(retired);
    line.push_text(b" pc ");
    line.push_longword(pc);
    line.push(b'\n');
    line
}
