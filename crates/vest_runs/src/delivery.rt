// What came of a run goes out. It takes no memory.
ghost use Rattle.std.specs.Prelude.{◌≡◌, map, OnErr, OnOk};
ghost use Rattle.system_model.specs.Interpreted.{has_raised};
ghost use Rattle.tie_switch.specs.Processors.{processor_of};
ghost use Rattle.report_text.specs.Offer.{Offers};
ghost use Rattle.vt_outside.specs.Taking.{TookAll, TookSome};
ghost use Rattle.vest_runs.specs.Delivery.{DeliversRun, ReportsRun};
ghost use Rattle.vest_runs.specs.Report.{is_spent, lines_of, report_of, done_by_ends};

use report_text::{Offered, offer};
use tie_switch::{End, Processor};
use vest_stops::Done;
use vt_outside::{Failed, Sink, write_all};

/// Writes the output, and then the report of the processors, which have ended, in their order.
pub fn deliver<K: Sink, E: Sink>(
    output: &[u8],
    processors: &[Processor],
    out: &mut K,
    report: &mut E,
) -> Done
    ensures { DeliversRun result output.now (map processor_of processors.now) (K.meaning out.old) (K.meaning out.new)
        (E.meaning report.old) (E.meaning report.new) }
{
    if write_all(out, output).is_err() {
        return Done::WriteFault;
    }
    report_ends(processors, report)
}

/// Writes the report of the processors, which have ended, in their order.
pub fn report_ends<E: Sink>(processors: &[Processor], report: &mut E) -> Done
    ensures { ReportsRun result (map processor_of processors.now) (E.meaning report.old) (E.meaning report.new) }
{
    if write_report(processors, report).is_err() {
        return Done::WriteFault;
    }
    done_by_ends(processors)
}

// The lines of each end.
fn write_report<E: Sink>(processors: &[Processor], report: &mut E) -> Result<(), Failed>
    ensures ok { OnOk result (TookAll (E.meaning report.old) (E.meaning report.new) (report_of (map processor_of processors.now))) }
    ensures err { OnErr result (TookSome (E.meaning report.old) (E.meaning report.new) (report_of (map processor_of processors.now))) }
{
    for processor in processors {
        match offer_lines(processor, report) {
            Offered::Written => {}
            Offered::Failed => return Err(Failed),
        }
    }
    Ok(())
}

// Writes the lines of its end to the report.
fn offer_lines<E: Sink>(processor: &Processor, report: &mut E) -> Offered
    ensures { Offers result (E.meaning report.old) (E.meaning report.new) (lines_of (processor_of processor.now)) }
{
    match processor.end() {
        Some(end) => offer(
            processor.thread(),
            end,
            &processor.shown(),
            processor.retired(),
            report,
        ),
        None => Offered::Written,
    }
}

// A thread that ended by an exception decides first, and then a processor that is spent.
fn done_by_ends(processors: &[Processor]) -> Done
    ensures { result ≡ done_by_ends (map processor_of processors.now) }
{
    let mut spent = false;
    for processor in processors {
        if has_raised(processor) {
            return Done::Exception;
        }
        spent |= is_spent(processor);
    }
    if spent { Done::Spent } else { Done::Ok }
}

fn has_raised(processor: &Processor) -> bool
    ensures { result ≡ has_raised (processor_of processor.now).mode }
{
    matches!(processor.end(), Some(End::Raised(_)))
}

pub(crate) fn is_spent(processor: &Processor) -> bool
    ensures { result ≡ is_spent (processor_of processor.now).mode }
{
    matches!(processor.end(), Some(End::Spent))
}
