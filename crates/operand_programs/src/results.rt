// A result goes to memory or to a register, and what the specifiers added goes into the registers.
ghost use Rattle.std.specs.Prelude.{◌≡◌, ◌<◌, ◌==◌, false, ◌++◌, OnErr, OnOk, slice_set};
ghost use Rattle.operand_programs.specs.Fronts.{IsFrontOf};
ghost use Rattle.operand_programs.specs.Specifiers.{commit_one, commit_program, store_program};
ghost use Rattle.operand_programs.specs.Results.{result_program, replacement_program, StoresResult, ReplacesOperand, steps_left, cleared_program, low_program, pair_program, give_program, IsGivable, finish_program, Finishes, CommitsSteps, steps_behind_push, push_program, Pushes};

use crate::specifiers::{Steps, add_step, long, quad, step, sum_into};
use micro_ops::{Arg, Micro, MicroOp};
use std::alloc::AllocError;
use vax_form::{Operand, SP, Size, WantOfMemory};

/// What a push adds to SP.
const BELOW: u32 = 0xFFFF_FFFC;
/// The bits of a byte, and of a word.
const BYTE: u64 = 0xFF;

const WORD: u64 = 0xFFFF;

/// The operand at the place is checked with write intent and written.
fn put_store(program: &mut Vec<Micro>, size: Size, place: u8, from: u8) -> Result<(), AllocError>
    ensures program { OnOk result (program.new.items ≡ program.old.items ++ store_program size place from) }
    ensures refused { OnErr result (IsFrontOf program.old.items program.new.items) }
{
    let count = size.bytes() as u8;
    program.push(Micro::Probe {
        place,
        count,
        write: true,
    })?;
    program.push(Micro::Write { place, count, from })?;
    Ok(())
}

fn append_result(
    program: &mut Vec<Micro>,
    operand: Operand,
    size: Size,
    place: u8,
    from: u8,
) -> Result<(), AllocError>
    ensures program { OnOk result (program.new.items ≡ program.old.items ++ result_program operand size place from) }
    ensures refused { OnErr result (IsFrontOf program.old.items program.new.items) }
{
    match operand {
        Operand::Place { .. } => put_store(program, size, place, from),
        Operand::Unused | Operand::Value(_) | Operand::Register(_) | Operand::Target(_) => Ok(()),
    }
}

/// A result for an operand in memory is checked with write intent and written; one for a register waits for the end.
#[tactic(auto, using(crate::proofs::Writing::stores_result))]
pub fn put_result(
    program: &mut Vec<Micro>,
    operand: Operand,
    size: Size,
    place: u8,
    from: u8,
) -> Result<(), WantOfMemory>
    ensures stores { StoresResult operand size place from (result_program operand size place from) }
    ensures program { OnOk result (program.new.items ≡ program.old.items ++ result_program operand size place from) }
    ensures refused { OnErr result (IsFrontOf program.old.items program.new.items) }
{
    append_result(program, operand, size, place, from)?;
    Ok(())
}

fn append_replacement(
    program: &mut Vec<Micro>,
    operand: Operand,
    size: Size,
    place: u8,
    from: u8,
) -> Result<(), AllocError>
    ensures program { OnOk result (program.new.items ≡ program.old.items ++ replacement_program operand size place from) }
    ensures refused { OnErr result (IsFrontOf program.old.items program.new.items) }
{
    if let Operand::Place { .. } = operand {
        let count = size.bytes() as u8;
        program.push(Micro::Write { place, count, from })?;
    }
    Ok(())
}

/// The same of an operand that was modified, and so was checked before.
#[tactic(auto, using(crate::proofs::Writing::replaces_operand))]
pub fn put_replacement(
    program: &mut Vec<Micro>,
    operand: Operand,
    size: Size,
    place: u8,
    from: u8,
) -> Result<(), WantOfMemory>
    ensures replaces { ReplacesOperand operand size place from (replacement_program operand size place from) }
    ensures program { OnOk result (program.new.items ≡ program.old.items ++ replacement_program operand size place from) }
    ensures refused { OnErr result (IsFrontOf program.old.items program.new.items) }
{
    append_replacement(program, operand, size, place, from)?;
    Ok(())
}

/// What was added to one register goes into it.
fn put_commit(program: &mut Vec<Micro>, number: u8, addend: u32) -> Result<(), AllocError>
    ensures program { OnOk result (program.new.items ≡ program.old.items ++ commit_one number addend) }
    ensures refused { OnErr result (IsFrontOf program.old.items program.new.items) }
{
    if addend != 0 {
        let sum = Arg::Const(u64::from(addend));
        program.push(long(5, MicroOp::Add, Arg::Register(number), sum))?;
        program.push(Micro::Commit {
            register: number,
            from: 5,
        })?;
    }
    Ok(())
}

/// What the specifiers added goes into the registers.
#[tactic(auto, using(crate::proofs::Fronts::fronts))]
fn put_commits(program: &mut Vec<Micro>, steps: &Steps) -> Result<(), AllocError>
    ensures program { OnOk result (program.new.items ≡ program.old.items ++ commit_program 0 steps.now) }
    ensures refused { OnErr result (IsFrontOf program.old.items program.new.items) }
{
    for number in 0..15u8 {
        put_commit(program, number, steps[number as usize])?;
    }
    Ok(())
}

/// What the specifiers added goes into the registers, each once.
#[tactic(auto, using(crate::proofs::Finishing::commits_steps))]
pub fn put_steps(program: &mut Vec<Micro>, steps: &Steps) -> Result<(), WantOfMemory>
    ensures commits { CommitsSteps steps.now (commit_program 0 steps.now) }
    ensures program { OnOk result (program.new.items ≡ program.old.items ++ commit_program 0 steps.now) }
    ensures refused { OnErr result (IsFrontOf program.old.items program.new.items) }
{
    put_commits(program, steps)?;
    Ok(())
}

/// A register without the bits of a mask goes into temporary 5; one to which something was added is taken with that.
fn put_cleared(program: &mut Vec<Micro>, number: u8, step: u32, mask: u64) -> Result<(), AllocError>
    ensures program { OnOk result (program.new.items ≡ program.old.items ++ cleared_program number step mask) }
    ensures refused { OnErr result (IsFrontOf program.old.items program.new.items) }
{
    let (found, mask) = (Arg::Register(number), Arg::Const(mask));
    if step == 0 {
        program.push(long(5, MicroOp::AndNot, found, mask))?;
    } else {
        let added = Arg::Const(u64::from(step));
        program.push(long(5, MicroOp::Add, found, added))?;
        program.push(long(5, MicroOp::AndNot, Arg::Temp(5), mask))?;
    }
    Ok(())
}

/// The low bits of a register, those of the mask, are replaced.
fn put_low(
    program: &mut Vec<Micro>,
    number: u8,
    steps: &Steps,
    mask: u64,
    from: u8,
) -> Result<(), AllocError>
    ensures program { OnOk result (program.new.items ≡ program.old.items ++ low_program number steps.now mask from) }
    ensures refused { OnErr result (IsFrontOf program.old.items program.new.items) }
{
    put_cleared(program, number, step(steps, number), mask)?;
    program.push(quad(5, MicroOp::Or, Arg::Temp(5), Arg::Temp(from)))?;
    program.push(Micro::Commit {
        register: number,
        from: 5,
    })?;
    Ok(())
}

/// The halves of a quadword go into a register and the next one.
fn put_pair(program: &mut Vec<Micro>, number: u8, from: u8) -> Result<(), AllocError>
    ensures program { OnOk result (program.new.items ≡ program.old.items ++ pair_program number from) }
    ensures refused { OnErr result (IsFrontOf program.old.items program.new.items) }
{
    program.push(Micro::Commit {
        register: number,
        from,
    })?;
    program.push(quad(5, MicroOp::ShiftRight, Arg::Temp(from), Arg::Const(32)))?;
    program.push(Micro::Commit {
        register: number.saturating_add(1),
        from: 5,
    })?;
    Ok(())
}

/// The result goes into its register.
fn put_give(
    program: &mut Vec<Micro>,
    operand: Operand,
    size: Size,
    steps: &Steps,
    from: u8,
) -> Result<(), AllocError>
    ensures program { OnOk result (program.new.items ≡ program.old.items ++ give_program operand size steps.now from) }
    ensures refused { OnErr result (IsFrontOf program.old.items program.new.items) }
{
    match (operand, size) {
        (Operand::Register(number), Size::Byte) => { put_low(program, number, steps, BYTE, from) }
        (Operand::Register(number), Size::Word) => { put_low(program, number, steps, WORD, from) }
        (Operand::Register(number), Size::Long) => {
            program.push(Micro::Commit {
                register: number,
                from,
            })?;
            Ok(())
        }
        (Operand::Register(number), Size::Quad) => put_pair(program, number, from),
        _ => Ok(()),
    }
}

/// Takes back what was added to a register.
fn clear_step(steps: &mut Steps, number: u8)
    ensures { steps.new ≡ slice_set steps.old number 0 }
{
    if number < 15 {
        steps[number as usize] = 0;
    }
}

/// The steps of the registers that take no result.
fn steps_left(operand: Operand, size: Size, steps: &Steps) -> Steps
    ensures { result ≡ steps_left operand size steps.now }
{
    let mut left = *steps;
    if let Operand::Register(number) = operand {
        clear_step(&mut left, number);
        if matches!(size, Size::Quad) {
            clear_step(&mut left, number.saturating_add(1));
        }
    }
    left
}

fn put_registers(
    program: &mut Vec<Micro>,
    operand: Operand,
    size: Size,
    steps: &Steps,
    from: u8,
) -> Result<(), AllocError>
    ensures program { OnOk result (program.new.items ≡ program.old.items ++ finish_program operand size steps.now from) }
    ensures refused { OnErr result (IsFrontOf program.old.items program.new.items) }
{
    put_commits(program, &steps_left(operand, size, steps))?;
    put_give(program, operand, size, steps, from)
}

/// What the specifiers added goes into the registers, and the result where its operand is a register: each register is
/// committed once. Temporary 5 changes.
#[tactic(auto, using(crate::proofs::Finishing::finishes))]
pub fn put_finish(
    program: &mut Vec<Micro>,
    operand: Operand,
    size: Size,
    steps: &Steps,
    from: u8,
) -> Result<(), WantOfMemory>
    ensures finishes { from < 4 → IsGivable operand size → Finishes operand size steps.now from (finish_program operand size steps.now from) }
    ensures program { OnOk result (program.new.items ≡ program.old.items ++ finish_program operand size steps.now from) }
    ensures refused { OnErr result (IsFrontOf program.old.items program.new.items) }
{
    put_registers(program, operand, size, steps, from)?;
    Ok(())
}

fn put_below(
    program: &mut Vec<Micro>,
    steps: &mut Steps,
    place: u8,
    from: u8,
) -> Result<(), AllocError>
    ensures program { OnOk result (program.new.items ≡ program.old.items ++ push_program steps.old place from) }
    ensures steps { OnOk result (steps.new ≡ steps_behind_push steps.old) }
    ensures refused { OnErr result (IsFrontOf program.old.items program.new.items) }
    ensures kept { OnErr result (steps.new ≡ steps.old) }
{
    let mut behind = *steps;
    add_step(&mut behind, SP, BELOW);
    program.push(sum_into(place, Some(SP), step(&behind, SP)))?;
    put_store(program, Size::Long, place, from)?;
    *steps = behind;
    Ok(())
}

/// Pushes the longword in a temporary. Its address goes into the place.
#[tactic(auto, using(crate::proofs::Writing::pushes))]
pub fn put_push(
    program: &mut Vec<Micro>,
    steps: &mut Steps,
    place: u8,
    from: u8,
) -> Result<(), WantOfMemory>
    ensures pushes { (from == place) ≡ false → Pushes steps.old place from (push_program steps.old place from) }
    ensures program { OnOk result (program.new.items ≡ program.old.items ++ push_program steps.old place from) }
    ensures steps { OnOk result (steps.new ≡ steps_behind_push steps.old) }
    ensures refused { OnErr result (IsFrontOf program.old.items program.new.items) }
    ensures kept { OnErr result (steps.new ≡ steps.old) }
{
    put_below(program, steps, place, from)?;
    Ok(())
}
