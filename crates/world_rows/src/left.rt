// What is left of a world: its processors, the order of its references, its output, and bytes of its memory.
use crate::report::Report;
use crate::texts::{order_in, put_end, put_memory, put_order, put_output, put_place};
use anyhow::Result;
use std::alloc::Global;
use system_model::End;
use vest_core::{Processor, World};

/// How many instructions a processor retired, how many of its steps were interpreted, R0 and R1.
fn put_counts(report: &mut Report, processor: &Processor) {
    let state = processor.shown();
    report.put(" retired ");
    report.count(processor.retired());
    report.put(" interpreted ");
    report.count(processor.interpreted_steps());
    report.put(" r0 ");
    report.longword(state.register(0));
    report.put(" r1 ");
    report.longword(state.register(1));
}

/// Its end, where that is no exit PC and processor status, and counts.
fn put_processor(report: &mut Report, processor: &Processor) {
    let end = processor.end();
    put_end(report, end);
    if !matches!(end, Some(End::Exit(_))) {
        put_place(report, &processor.shown());
    }
    put_counts(report, processor);
}

/// The processors, with semicolons between.
fn put_processors(report: &mut Report, processors: &[Processor]) {
    for (thread, processor) in processors.iter().enumerate() {
        if thread > 0 {
            report.put("; ");
        }
        put_processor(report, processor);
    }
}

/// The processors, the order, the output, and the bytes that a row asks for.
pub fn left_text(alloc: Global, world: &World, shown: &[(u32, u32)]) -> Result<String> {
    let order = order_in(alloc, world)?;
    let mut report = Report::new(alloc);
    put_processors(&mut report, world.processors());
    put_order(&mut report, &order);
    put_output(&mut report, world.memory().output());
    put_memory(&mut report, world.memory(), shown);
    Ok(report.end()?)
}
