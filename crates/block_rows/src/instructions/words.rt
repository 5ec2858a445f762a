// How many words the micro programs of instructions are counted as, and that others have none.
ghost use Rattle.std.specs.Prelude.{IfOk};
ghost use Rattle.vax_form.specs.Grammar.{IsSpelled};

use crate::instructions::ending::instr_of;
use crate::instructions::memory::Memory;
use anyhow::{Context, Result};
use micro_lower::lower;
use micro_ops::{program_words, sources_of};
use row_tally::{Tally, bytes, two_fields};
use std::alloc::Global;
use vax_form::{Instr, operation_of};

/// Where the instructions stand.
const CODE: u32 = 0x200;

/// The instruction with these bytes.
fn instr_spelled(alloc: Global, code: &str) -> Result<Instr>
    ensures { IfOk result IsSpelled }
{
    let mut memory = Memory::new(alloc);
    memory.store(CODE, &bytes(alloc, code)?)?;
    instr_of(alloc, &memory, CODE)
}

/// How many words the program of the instruction with these bytes is counted as, or the number of its refusal.
fn words_of(alloc: Global, code: &str) -> Result<String> {
    let instr = instr_spelled(alloc, code)?;
    let text = match lower(alloc, &instr) {
        Ok(program) => {
            let operation = operation_of(instr.opcode).context("a reserved opcode")?;
            let words = program_words(sources_of(operation), &program);
            format!(in alloc; "{words:X}")
        }
        Err(refusal) => {
            let number = refusal.number().context("want of memory")?;
            format!(in alloc; "refusal-{number}")
        }
    };
    Ok(text?)
}

/// Checks a row: the bytes of an instruction, and the words of its program or its refusal.
pub fn check_row(rt: &(impl Print + AllocGlobal), tally: &mut Tally, row: &str) -> Result<()> {
    let (code, wanted) = two_fields(row)?;
    let found = words_of(rt.alloc(), code)?;
    tally.check(rt, row, &found.as_str(), &wanted)
}
