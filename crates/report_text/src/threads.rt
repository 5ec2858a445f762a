//! The report of a run: how each thread ended, and the registers of one that did not exit.
ghost use Rattle.std.specs.Prelude.{◌≡◌, ◌+◌, ◌<◌, ◌≤◌, ◌++◌, ◌∷◌, [], length, codes, decimal, IfOk};
ghost use Rattle.vax_form.specs.Exceptions.{vector_of};
ghost use Rattle.report_text.specs.Digits.{two_digits};
ghost use Rattle.report_text.specs.Numbers.{longwords};
ghost use Rattle.report_text.specs.Offer.{Offers};
ghost use Rattle.report_text.specs.Report.{detail_of, state_text, end_text, thread_text, report_text};

use crate::line::{LINE_ROOM, Line};
use std::alloc::Global;
use vax_driven::End;
use vax_form::{Exception, VaxState, WantOfMemory};
use vt_outside::{Sink, write_all};

/// What came of lines that were offered.
#[derive(Clone, Copy, Debug, PartialEq, Eq)]
pub enum Offered {
    /// The sink took them all.
    Written,
    /// A call of the sink failed, and it took the bytes before.
    Failed,
}

/// Offers the lines of a thread that ended so, with that shown state and that count of retired instructions. It takes no
/// memory.
pub fn offer<E: Sink>(
    thread: u8,
    end: End,
    state: &VaxState,
    retired: u64,
    report: &mut E,
) -> Offered
    ensures { Offers result (E.meaning report.old) (E.meaning report.new) (thread_text thread end state.now retired) }
{
    let lines = thread_lines(u64::from(thread), end, state, retired);
    match write_all(report, lines.as_slice()) {
        Ok(()) => Offered::Written,
        Err(_) => Offered::Failed,
    }
}

/// The lines of all threads in their order, by end, shown state and count of retired instructions.
pub fn report(alloc: Global, processors: &[(End, VaxState, u64)]) -> Result<Vec<u8>, WantOfMemory>
    ensures { IfOk result (λ lines. lines.items ≡ report_text processors.now) }
{
    let mut lines = Vec::new(alloc);
    for (thread, (end, state, retired)) in processors.iter().enumerate() {
        let text = thread_lines(thread as u64, *end, state, *retired);
        lines.extend_from_slice(text.as_slice())?;
    }
    Ok(lines)
}

/// The lines of a thread that ended so, with that shown state and that count of retired instructions.
fn thread_lines(thread: u64, end: End, state: &VaxState, retired: u64) -> Line
    ensures { result ≡ thread_text thread end state.now retired }
{
    let mut line = Line::new();
    line.push_text(b"thread");
    line.push_spaced(thread);
    push_end(&mut line, end, state, retired);
    line.push(b'\n');
    line
}

fn push_end(line: &mut Line, end: End, state: &VaxState, retired: u64)
    requires { length line.old ≤ 27 }
    ensures text { line.new ≡ line.old ++ end_text end state.now retired }
    ensures room { length line.new < LINE_ROOM }
{
    match end {
        End::Exit(value) => {
            line.push_text(b" exit ");
            line.push_longword(value);
        }
        End::Raised(exception) => {
            push_exception(line, exception);
            push_state(line, state);
        }
        End::Spent => {
            line.push_text(b" spent retired");
            line.push_spaced(retired);
            push_state(line, state);
        }
    }
}

// The vector offset, and what comes with the exception.
fn push_exception(line: &mut Line, exception: Exception)
    requires { length line.old ≤ 27 }
    ensures text { line.new ≡ line.old ++ codes " exception " ++ two_digits (vector_of exception) ++ detail_of exception }
    ensures room { length line.new ≤ 70 }
{
    line.push_text(b" exception ");
    line.push_byte(exception.vector());
    push_detail(line, exception);
}

fn push_detail(line: &mut Line, exception: Exception)
    requires { length line.old ≤ 40 }
    ensures text { line.new ≡ line.old ++ detail_of exception }
    ensures room { length line.new ≤ length line.old + 26 }
{
    match exception {
        Exception::AccessViolation { address, write } => {
            line.push_text(b" address ");
            line.push_longword(address);
            line.push_text(if write { b" intent 1" } else { b" intent 0" });
        }
        Exception::Arithmetic(kind) => {
            line.push_text(b" type");
            line.push_spaced(u64::from(kind));
        }
        _ => {}
    }
}

// The PC and the processor status longword, and the registers on a line of their own.
fn push_state(line: &mut Line, state: &VaxState)
    requires { length line.old ≤ 85 }
    ensures text { line.new ≡ line.old ++ state_text state.now }
    ensures room { length line.new ≤ length line.old + 170 }
{
    line.push_text(b" pc ");
    line.push_longword(state.pc);
    line.push_text(b" psl ");
    line.push_longword(state.psl());
    line.push_text(b"\nregisters");
    push_registers(line, &state.r);
}

fn push_registers(line: &mut Line, registers: &[u32; 15])
    requires { length line.old ≤ 120 }
    ensures text { line.new ≡ line.old ++ longwords registers.now }
    ensures room { length line.new ≤ length line.old + 135 }
{
    for value in registers {
        line.push(b' ');
        line.push_longword(*value);
    }
}
