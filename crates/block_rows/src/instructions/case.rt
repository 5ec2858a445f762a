// A case: an instruction with the state and memory before it, and the state behind it.
use crate::instructions::memory::Memory;
use anyhow::{Context, Result, ensure};
use row_tally::{five_fields, five_fields_and_rest, longword, pieces};
use std::alloc::Global;
use vax_form::{Pending, VaxState};

#[derive(Drop)]
pub struct Case {
    pub before: VaxState,
    pub memory: Memory,
    pub behind: VaxState,
}

/// The processor state with these registers.
fn state_of(pc: &str, psw: &str, r: [u32; 15]) -> Result<VaxState> {
    Ok(VaxState {
        r,
        pc: longword(pc)?,
        psw: u16::try_from(longword(psw)?)?,
        handler: 0,
        pending: Pending::Nothing,
    })
}

/// Fifteen registers with commas between.
fn registers_of(text: &str) -> Result<[u32; 15]> {
    let mut registers = [0; 15];
    let mut place = 0;
    for number in text.split(',') {
        ensure!(place < 15, "more than fifteen registers");
        registers[place] = longword(number)?;
        place += 1;
    }
    ensure!(place == 15, "fewer than fifteen registers");
    Ok(registers)
}

/// A register that is written as NUMBER=VALUE.
fn change_of(text: &str) -> Result<(usize, u32)> {
    let (place, value) = text.split_once('=').context("a register")?;
    Ok((longword(place)? as usize, longword(value)?))
}

fn change(registers: &mut [u32; 15], text: &str) -> Result<()> {
    let (place, value) = change_of(text)?;
    ensure!(place < 15, "a register below 15");
    registers[place] = value;
    Ok(())
}

/// The registers with those changed that are written as NUMBER=VALUE.
fn with_changes(alloc: Global, registers: [u32; 15], changes: &str) -> Result<[u32; 15]> {
    let mut registers = registers;
    for text in &pieces(alloc, changes)? {
        change(&mut registers, text)?;
    }
    Ok(registers)
}

/// The states before an instruction and behind it: of PC, PSW and REGISTERS, and of PC, PSW and CHANGES.
fn states_of(
    alloc: Global,
    before: (&str, &str, &str),
    behind: (&str, &str, &str),
) -> Result<(VaxState, VaxState)> {
    let registers = registers_of(before.2)?;
    let changed = with_changes(alloc, registers, behind.2)?;
    Ok((
        state_of(before.0, before.1, registers)?,
        state_of(behind.0, behind.1, changed)?,
    ))
}

impl Case {
    /// Reads a row, of an instruction that is done and changes no memory.
    pub fn read(alloc: Global, row: &str) -> Result<Case> {
        let ([_, pc, psw, registers, ending], rest) = five_fields_and_rest(row)?;
        let (pc_behind, psw_behind, changes, stored, areas) = five_fields(rest)?;
        ensure!(ending == "done" && stored == "-", "another ending");
        let behind = (pc_behind, psw_behind, changes);
        let (before, behind) = states_of(alloc, (pc, psw, registers), behind)?;
        let memory = Memory::of(alloc, areas)?;
        Ok(Case {
            before,
            memory,
            behind,
        })
    }
}
