// Instructions that are more than one case: the longest strings, stacks round a page, and short programs; and the words of micro
// programs.
//
// `case` reads a line, `memory` answers references, and `ending` decodes. `stacks` has instructions that push and pop at the ends of
// a page, worked from the manual, `longest` strings of 65,535 bytes, `programs` short programs that go one reference at a time, by
// `interpreted`, and `words` counts the words of micro programs.

mod case;
mod ending;
mod interpreted;
mod longest;
mod memory;
mod pages;
mod programs;
mod stacks;
mod words;

use crate::instructions::programs::check_programs;
use crate::instructions::stacks::check_stacks;
use anyhow::Result;
use row_tally::{Tally, check_rows};
use std::fs::Files;

/// Checks the rows of the files, and those of the programs and stacks.
pub fn check_all<R: Files + Print + AllocGlobal>(rt: &R) -> Result<Tally> {
    let mut all = check_rows(rt, "words of micro programs", "words.txt", words::check_row)?;
    all.add(check_rows(rt, "longest strings", "longest.txt", longest::check_row)?);
    all.add(check_stacks(rt)?);
    all.add(check_programs(rt)?);
    Ok(all)
}
