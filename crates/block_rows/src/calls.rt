// Random calls: their blocks beside what they mean.
//
// `code` has a page of code with a call, and the pages around it; `vax` makes the references of what it means, and `alpha` runs its
// block, over a `memory` each, with stores that fail.

mod alpha;
mod code;
mod memory;
mod random;
mod vax;

ghost use Rattle.std.specs.Prelude.{IfOk, IfSome, false};
ghost use Rattle.block_law.specs.Blocks.{IsBlockOf};
ghost use Rattle.program_codegen.specs.CallPromises.{IsFixedCall};

use crate::calls::alpha::{End, Work, shown, start, words_of};
use crate::calls::code::{CALL_AT, pages};
use crate::calls::memory::Memory;
use crate::calls::random::Random;
use alpha_machine::Cpu;
use anyhow::{Result, bail};
use exception_records::{Block, Rules};
use flow_discovery::has_call_block;
use program_codegen::long_block;
use row_tally::Tally;
use std::alloc::Global;
use vax_decode::{Decoded, decode_at};
use vax_form::{Instr, Outcome, Pages, Pending, VaxState};

/// How many seeds are tried.
const SEEDS: u64 = 2_000;

const REGISTERS: usize = 15;
/// The registers of which a fault shows what they were: R0 to R20.
const SHOWN: usize = 21;

/// The call in the pages, where it has a block.
fn fixed_call(pages: &Pages) -> Option<Instr>
    ensures { IfSome result (λ instr. IsFixedCall instr pages.now) }
{
    let Decoded::Instr(instr) = decode_at(pages, CALL_AT) else {
        return None;
    };
    if !has_call_block(&instr, pages) {
        return None;
    }
    Some(instr)
}

fn block_of(alloc: Global, byte_word: bool, instr: &Instr, pages: &Pages) -> Result<Block>
    requires { IsFixedCall instr.now pages.now }
    ensures { IfOk result (λ block. IsBlockOf false instr.now.at block) }
{
    match long_block(alloc, byte_word, instr, pages, Rules::READY) {
        Ok(block) => Ok(block),
        Err(_) => bail!("want of memory"),
    }
}

fn register(random: &mut Random) -> u32 {
    match random.below(20) {
        0 => random.long(),
        1 => 0x8000_0000,
        2 => 0x7FFF_FFFE,
        3 => random.below(64),
        4 => 0xFFFF_FFFE,
        _ => 0x1000 + random.below(0x6000),
    }
}

fn state(random: &mut Random) -> VaxState {
    let mut r = [0u32; REGISTERS];
    for number in 0..REGISTERS {
        r[number] = register(random);
    }
    VaxState {
        r,
        pc: CALL_AT,
        psw: u16::from(random.byte()),
        handler: 0,
        pending: Pending::Nothing,
    }
}

fn are_as_before(before: &Cpu, after: &Cpu) -> bool {
    for number in 0..SHOWN {
        if before.r[number] != after.r[number] {
            return false;
        }
    }
    true
}

/// Whether the block came to what the call comes to.
fn agree(outcome: &Outcome, end: End, before: &Cpu, after: &Cpu, state: &VaxState) -> bool {
    match (outcome, end) {
        (Outcome::Done(done), End::Left(pc)) => shown(after, pc, state) == Some(*done),
        (Outcome::Raises(exception, _), End::Fault(fault)) => {
            *exception == fault && are_as_before(before, after)
        }
        _ => false,
    }
}

/// Whether the block of the call does what it means, by the same references, where it has one.
fn answer(alloc: Global, seed: u64) -> Result<Option<bool>> {
    let mut random = Random::new(seed);
    let pages = pages(alloc, &mut random)?;
    let Some(instr) = fixed_call(&pages) else {
        return Ok(None);
    };
    let byte_word = random.comes(2);
    let state = state(&mut random);
    let block = block_of(alloc, byte_word, &instr, &pages)?;
    let code = words_of(alloc, &block)?;
    let memory_seed = random.next();
    let mut meant = Memory::new(alloc, memory_seed);
    let outcome = vax::run(alloc, &state, &instr, &pages, &mut meant)?;
    let before = start(&mut random, &state);
    let mut made = Memory::new(alloc, memory_seed);
    let mut work = Work::new(before);
    let end = work.run(&block, &code, &pages, CALL_AT, &mut made, &mut random)?;
    let same = meant.references.as_slice() == made.references.as_slice();
    Ok(Some(same && agree(&outcome, end, &before, &work.cpu, &state)))
}

/// Prints how many agree.
pub fn random_calls(rt: &(impl Print + AllocGlobal)) -> Result<Tally> {
    let mut tally = Tally::NONE;
    for seed in 0..SEEDS {
        if let Some(agrees) = answer(rt.alloc(), seed)? {
            tally.count(agrees);
        }
    }
    tally.print(rt, "calls")?;
    Ok(tally)
}
