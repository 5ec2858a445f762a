//! Code that is laid out, prepared code that runs, and instructions and calls beside what they mean.
//!
//! `layouts` lays blocks of all ends out, beside words that were worked out by hand, and `exits` has exits at the edge of a branch's
//! reach; `constants` has the words of a constant. data/prepared.txt has runs of prepared code. `instructions` has instructions that
//! are more than one case of a simulator, whose answers stand in the crate vectors, and `calls` the blocks of random calls.
#![tactic(auto)]

mod blocks;
mod calls;
mod constants;
mod exits;
mod instructions;
mod layouts;
mod prepared;

use anyhow::Result;
use row_tally::ask_rows;
use std::fs::Files;

fn main(rt: HostRuntime) -> Result<()> {
    let mut all = ask_rows(&rt, "prepared.txt", prepared::answer)?;
    all.add(layouts::all_ends(&rt)?);
    all.add(exits::reach(&rt)?);
    all.add(constants::longword(&rt)?);
    all.add(instructions::check_all(&rt)?);
    all.add(calls::random_calls(&rt)?);
    all.verdict()
}
