// One instruction: from its bytes, and what it comes to.
ghost use Rattle.std.specs.Prelude.{IfOk};
ghost use Rattle.vax_form.specs.Grammar.{IsSpelled};

use crate::instructions::memory::Memory;
use anyhow::{Result, bail};
use std::alloc::{AllocError, Global};
use vax_decode::{Decoded, decode_at};
use vax_form::{Instr, Outcome, PageRange, Pages, VaxState, is_long};
use vax_long::next_long;
use vax_meaning::next;

/// How many pages from address 0 on have the code.
const CODE_PAGES: u32 = 10;

const CODE_BYTES: usize = 5120;

/// The pages below 80000000 (hexadecimal).
const ALL_PAGES: u32 = 4_194_304;

/// Pages that have the code from address 0 on, and may be written behind it.
fn code_pages(alloc: Global, memory: &Memory) -> Result<Pages, AllocError> {
    let code: [u8; CODE_BYTES] = memory.low_bytes();
    let ranges = vec![in alloc;
        PageRange {
            first: 0,
            count: CODE_PAGES,
            writable: false,
            place: 0
        },
        PageRange {
            first: CODE_PAGES,
            count: ALL_PAGES - CODE_PAGES,
            writable: true,
            place: 0
        },
    ]?;
    Ok(Pages {
        ranges,
        code: code.to_vec(alloc)?,
    })
}

/// Pages that may all be written.
pub fn writable_pages(alloc: Global) -> Result<Pages, AllocError> {
    let ranges = vec![in alloc;
        PageRange {
            first: 0,
            count: ALL_PAGES,
            writable: true,
            place: 0
        },
    ]?;
    Ok(Pages {
        ranges,
        code: Vec::new(alloc),
    })
}

/// What an instruction, long or not, comes to.
pub fn outcome(state: &VaxState, instr: &Instr, pages: &Pages, replies: &[u64]) -> Outcome {
    if is_long(instr.opcode) {
        next_long(state, instr, pages, 0, replies)
    } else {
        next(state, instr, pages, 0, replies)
    }
}

/// The instruction at an address of these pages.
fn instr_at(pages: &Pages, pc: u32) -> Result<Instr>
    ensures { IfOk result IsSpelled }
{
    match decode_at(pages, pc) {
        Decoded::Instr(instr) => Ok(instr),
        _ => bail!("no instruction at {pc:X}"),
    }
}

/// The instruction at an address.
pub fn instr_of(alloc: Global, memory: &Memory, pc: u32) -> Result<Instr>
    ensures { IfOk result IsSpelled }
{
    instr_at(&code_pages(alloc, memory)?, pc)
}
