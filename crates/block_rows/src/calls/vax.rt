// What a call means.
use crate::calls::memory::{Memory, field, with_field};
use anyhow::{Result, bail};
use std::alloc::Global;
use vax_form::{Instr, Outcome, Pages, RefKind, VaxState};
use vax_long::next_long;

/// The most references of a call.
const MOST_REFERENCES: u32 = 100;

/// Makes its references, one after the other, and gives what it comes to.
pub fn run(
    alloc: Global,
    state: &VaxState,
    instr: &Instr,
    pages: &Pages,
    memory: &mut Memory,
) -> Result<Outcome> {
    let mut replies: Vec<u64> = Vec::new(alloc);
    for _ in 0..MOST_REFERENCES {
        let outcome = next_long(state, instr, pages, 0, &replies);
        let Outcome::Wants(reference) = outcome else {
            return Ok(outcome);
        };
        let quad = reference.address / 8 * 8;
        let before = memory.read(quad);
        match reference.kind {
            RefKind::Read => {
                memory.note_read(quad, before)?;
                replies.push(field(before, reference.address, reference.count))?;
            }
            RefKind::Write(value) => {
                let after = with_field(before, reference.address, reference.count, value);
                memory.note_write(quad, after)?;
                replies.push(0)?;
            }
            _ => bail!("another reference"),
        }
    }
    bail!("endless")
}
