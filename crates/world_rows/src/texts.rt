// Parts of what is left of a world, in text.
use crate::report::Report;
use anyhow::{Context, Result, bail};
use memory_core::MemState;
use std::alloc::Global;
use system_model::{End, order_of};
use vax_form::{Exception, Pick, VaxState};
use vest_core::World;

fn put_exception(report: &mut Report, exception: Exception) {
    let parameter = exception.parameter();
    report.put("exception ");
    report.byte(exception.vector());
    match exception {
        Exception::AccessViolation { .. } => {
            report.put(" address ");
            report.longword(parameter);
            report.put(" intent ");
            report.count(u64::from(exception.intent()));
        }
        Exception::Arithmetic(_) => {
            report.put(" type ");
            report.count(u64::from(parameter));
        }
        _ => {}
    }
}

/// How a processor ended.
pub fn put_end(report: &mut Report, end: Option<End>) {
    match end {
        Some(End::Exit(value)) => {
            report.put("exit ");
            report.longword(value);
        }
        Some(End::Raised(exception)) => put_exception(report, exception),
        Some(End::Spent) => report.put("spent"),
        None => report.put("goes on"),
    }
}

/// PC and processor status.
pub fn put_place(report: &mut Report, state: &VaxState) {
    report.put(" pc ");
    report.longword(state.pc);
    report.put(" psl ");
    report.longword(state.psl());
}

/// The references of a world's history.
pub fn order_in(alloc: Global, world: &World) -> Result<Vec<Pick>> {
    let history = world.memory().history().context("a history")?;
    match order_of(alloc, history) {
        Ok(order) => Ok(order),
        Err(_) => bail!("want of memory"),
    }
}

/// References in order: a thread and how many instructions it had retired.
pub fn put_order(report: &mut Report, order: &[Pick]) {
    report.put("; order");
    for pick in order {
        report.put(" ");
        report.count(u64::from(pick.thread));
        report.put(":");
        report.count(pick.retired);
    }
}

/// The output, in pairs of digits.
pub fn put_output(report: &mut Report, output: &[u8]) {
    report.put("; output ");
    for byte in output {
        report.byte(*byte);
    }
}

/// So many bytes of memory from an address on, in pairs of digits.
pub fn put_bytes(report: &mut Report, memory: &MemState, first: u32, count: u32) {
    report.put("bytes ");
    report.digits(first);
    report.put(" ");
    for place in 0..count {
        match memory.byte(first.wrapping_add(place)) {
            Some(byte) => report.byte(byte),
            None => report.put("--"),
        }
    }
}

/// The bytes that a row asks for.
pub fn put_memory(report: &mut Report, memory: &MemState, shown: &[(u32, u32)]) {
    for (first, count) in shown {
        report.put("; ");
        put_bytes(report, memory, *first, *count);
    }
}
