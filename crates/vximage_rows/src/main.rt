//! Calls `vximage` with the command lines of data/calls.txt, over files and streams in memory, and says for each family of rows
//! how many leave what stands there.
//!
//! `pieces` reads texts, `call` makes a call, `turns` has each call of a stream fail in turn, and `bench` says which of these a row
//! asks for.
#![tactic(auto)]

mod bench;
mod call;
mod pieces;
mod turns;

use crate::bench::{Bench, is_setting};
use anyhow::{Context, Result};
use row_files::first_word;
use row_tally::{Families, Tally, rows};
use std::fs;

const TABLE: &str = "calls.txt";

/// Does what a row says, and counts it if it asks for something.
fn obey<'a, R: fs::Files + AllocGlobal + Print>(
    rt: &R,
    bench: &mut Bench,
    families: &mut Families<'a>,
    row: &'a str,
) -> Result<()> {
    let (verb, rest) = first_word(row);
    if verb == "family" {
        return families.begin(rt, rest);
    }
    if is_setting(verb) {
        return bench.set(rt, verb, rest);
    }
    let agrees = bench.agrees(rt.alloc(), verb, rest)?;
    families.count(agrees);
    if !agrees {
        println!(rt; "not so: {row}")?;
        bench.print_left(rt)?;
    }
    Ok(())
}

fn run_table<R: fs::Files + AllocGlobal + Print>(rt: &R, table: &str) -> Result<Tally> {
    let mut families = Families::NONE;
    let mut bench = Bench::empty(rt.alloc());
    for row in &rows(rt.alloc(), table)? {
        if let Err(error) = obey(rt, &mut bench, &mut families, row) {
            println!(rt; "a row that can't be obeyed: {row}: {error:#}")?;
        }
    }
    families.end(rt)
}

fn main(rt: HostRuntime) -> Result<()> {
    let table = fs::read_to_string(&rt, TABLE).context(TABLE)?;
    run_table(&rt, table.as_str())?.verdict()
}
