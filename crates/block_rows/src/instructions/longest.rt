// The longest strings, whose bytes are all 0.
use crate::instructions::case::Case;
use crate::instructions::ending::{instr_of, outcome, writable_pages};
use anyhow::{Context, Result};
use row_tally::{Tally, longword};
use std::alloc::Global;
use vax_form::Outcome;

/// What an instruction comes to with so many replies, and whether it wants a reference with one fewer.
fn ends(alloc: Global, case: &Case, references: u32) -> Result<(Outcome, bool)> {
    let instr = instr_of(alloc, &case.memory, case.before.pc)?;
    let pages = writable_pages(alloc)?;
    let mut zeros = vec![in alloc; 0; references as usize]?;
    let last = outcome(&case.before, &instr, &pages, &zeros);
    let _reply = zeros.pop();
    let before = outcome(&case.before, &instr, &pages, &zeros);
    Ok((last, matches!(before, Outcome::Wants(_))))
}

/// Checks a row: the number of references, and a case.
pub fn check_row(rt: &(impl Print + AllocGlobal), tally: &mut Tally, row: &str) -> Result<()> {
    let (references, text) = row.split_once(' ').context("a case")?;
    let references = longword(references)?;
    let case = Case::read(rt.alloc(), text)?;
    let found = ends(rt.alloc(), &case, references)?;
    tally.check(rt, row, &found, &(Outcome::Done(case.behind), true))
}
