//! Calls `vest` with the command lines of data/calls.txt, over files and streams in memory, and says for each family of rows
//! how many leave what stands there; and the program once over those of the system.
//!
//! `lent` and `gates` have what a call is lent beside the files, `call` makes the call, `left`, `numbers` and `memory` have what it
//! left, and `trial` has what is called beside it: `cuts` goes through beginnings and changes of a translated file, `turns` through the
//! calls of an object that may fail, `replays` drives the order of each run again, `unkept` makes each run without a history, and `talks`
//! talks with each run; `bench` says which of these a row asks for. `system` calls the program over the system.
#![tactic(auto)]

mod bench;
mod call;
mod cuts;
mod gates;
mod left;
mod lent;
mod memory;
mod numbers;
mod replays;
mod system;
mod talks;
mod trial;
mod turns;
mod unkept;

use crate::bench::{Bench, is_setting};
use anyhow::{Context, Result};
use row_files::first_word;
use row_tally::{Families, Tally, rows};
use std::fs;
use std::sync::Wait;
use std::thread::Threads;

const TABLE: &str = "calls.txt";

/// Does what a row says, and counts it if it asks for something.
fn obey<'a, R: Threads + Wait + Sync + AllocGlobal + Print>(
    rt: &R,
    bench: &mut Bench,
    families: &mut Families<'a>,
    row: &'a str,
) -> Result<()> {
    let (verb, rest) = first_word(row);
    if verb == "family" {
        return families.begin(rt, rest);
    }
    if is_setting(verb) {
        return bench.set(rt.alloc(), verb, rest);
    }
    let agrees = bench.agrees(rt, rt.alloc(), verb, rest)?;
    families.count(agrees);
    if !agrees {
        println!(rt; "not so: {row}")?;
    }
    Ok(())
}

fn obey_all<R: Threads + Wait + Sync + AllocGlobal + Print>(
    rt: &R,
    bench: &mut Bench,
    rows: &[&str],
) -> Result<Tally> {
    let mut families = Families::NONE;
    for row in rows {
        obey(rt, bench, &mut families, row)?;
    }
    families.end(rt)
}

fn run_table<R: Threads + Wait + Sync + AllocGlobal + Print>(rt: &R, table: &str) -> Result<Tally> {
    let rows = rows(rt.alloc(), table)?;
    obey_all(rt, &mut Bench::empty(rt.alloc()), &rows)
}

fn main(rt: HostRuntime) -> Result<()> {
    let table = fs::read_to_string(&rt, TABLE).context(TABLE)?;
    let mut all = Tally::NONE;
    all.add(system::standard_streams(&rt, rt.stdin(), rt.stdout(), rt.stderr())?);
    all.add(run_table(&rt, table.as_str())?);
    all.verdict()
}
