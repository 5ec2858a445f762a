// What the block of a call does.
ghost use Rattle.std.specs.Prelude.{All};
ghost use Rattle.alpha_encode.specs.Words.{IsEncodable};

use crate::calls::memory::{Memory, field, with_field};
use crate::calls::random::Random;
use alpha_encode::{decode, encode};
use alpha_machine::{AlphaStep, Cpu, finish, step};
use alpha_meaning::{AlphaAccess, AlphaKind};
use anyhow::{Result, bail, ensure};
use exception_records::{Block, Point};
use std::alloc::Global;
use vax_form::{Exception, Pages, VaxState};
use vax_long::first_bad;

/// More steps than a block of a call makes.
const MOST_STEPS: u32 = 3000;

/// How a block ends.
#[derive(Clone, Copy, Debug, PartialEq, Eq)]
pub enum End {
    Left(u32),
    Fault(Exception),
}

/// A block at work: what it did so far.
#[derive(Drop)]
pub struct Work {
    pub cpu: Cpu,
    lock: Option<u32>,
    has_written: bool,
}

fn sign(value: u32) -> u64 {
    let long = u64::from(value);
    if value >= 0x8000_0000 {
        long + 0xFFFF_FFFF_0000_0000
    } else {
        long
    }
}

/// Registers in form that show a state; what they don't show is random.
pub fn start(random: &mut Random, state: &VaxState) -> Cpu {
    let mut r = [0u64; 32];
    for number in 0..31 {
        r[number] = random.next().wrapping_mul(0x1_0000_0001);
    }
    for number in 0..15 {
        r[number] = sign(state.r[number]);
    }
    let psw = u64::from(state.psw);
    r[16] = psw / 8 % 2;
    r[17] = psw / 4 % 2;
    r[18] = psw / 2 % 2;
    r[19] = psw % 2;
    r[20] = psw & 0xF0;
    Cpu { r, pc: 0 }
}

fn exit_at(block: &Block, pc: u32) -> Option<u32> {
    for exit in &block.exits {
        if exit.0 == pc {
            return Some(exit.1);
        }
    }
    None
}

fn point_at(block: &Block, pc: u32) -> Option<Point> {
    for point in &block.points {
        if point.0 == pc {
            return Some(point.1);
        }
    }
    None
}

/// The words of the block, encoded.
pub fn words_of(alloc: Global, block: &Block) -> Result<Vec<u32>>
    requires { All IsEncodable block.now.words }
{
    let mut words = Vec::new(alloc);
    for word in &block.words {
        words.push(encode(*word))?;
    }
    Ok(words)
}

impl Work {
    pub fn new(cpu: Cpu) -> Work {
        Work {
            cpu,
            lock: None,
            has_written: false,
        }
    }

    /// The fault of a probe, if there is one. It stands behind no write, and its point is that of the call.
    fn probe(&self, block: &Block, pages: &Pages, at: u32) -> Result<Option<Exception>> {
        ensure!(!self.has_written, "a probe behind a write");
        let Some(point) = point_at(block, self.cpu.pc) else {
            bail!("no point");
        };
        ensure!(point.vax_pc == at && point.done == 0, "another point");
        let address = (self.cpu.r[27] % 0x1_0000_0000) as u32;
        let bad = first_bad(pages, address, u16::from(point.count), point.write);
        Ok(bad.map(|address| Exception::AccessViolation {
            address,
            write: point.write,
        }))
    }

    /// Whether an access is done: a store conditional fails once in four times.
    fn succeeds(&mut self, kind: AlphaKind, quad: u32, random: &mut Random) -> Result<bool> {
        match kind {
            AlphaKind::Load | AlphaKind::Store => Ok(true),
            AlphaKind::LoadLocked => {
                self.lock = Some(quad);
                Ok(true)
            }
            AlphaKind::StoreConditional => {
                ensure!(self.lock == Some(quad), "no lock");
                self.lock = None;
                Ok(!random.comes(4))
            }
        }
    }

    /// Makes an access, and gives what is loaded and whether it was done.
    fn make(
        &mut self,
        access: AlphaAccess,
        pages: &Pages,
        memory: &mut Memory,
        random: &mut Random,
    ) -> Result<(u64, bool)> {
        ensure!(access.address < 0x8000_0000, "a high address");
        let address = access.address as u32;
        let quad = address / 8 * 8;
        let before = memory.read(quad);
        let store = matches!(access.kind, AlphaKind::Store | AlphaKind::StoreConditional);
        ensure!(pages.allowed(address, store), "not allowed");
        let done = self.succeeds(access.kind, quad, random)?;
        if store && done {
            let after = with_field(before, address, access.bytes, access.value);
            memory.note_write(quad, after)?;
            self.has_written = true;
        }
        if matches!(access.kind, AlphaKind::Load) {
            memory.note_read(quad, before)?;
        }
        Ok((field(before, address, access.bytes), done))
    }

    /// Makes a step, and gives the fault of a probe.
    fn step(
        &mut self,
        block: &Block,
        code: &[u32],
        pages: &Pages,
        at: u32,
        memory: &mut Memory,
        random: &mut Random,
    ) -> Result<Option<Exception>> {
        let mut cpu = self.cpu;
        let place = cpu.pc as usize;
        if place >= code.len() || decode(code[place]).is_none() {
            bail!("out of the block");
        }
        match step(&mut cpu, code) {
            AlphaStep::Local => {}
            AlphaStep::Pal(_) => {
                let fault = self.probe(block, pages, at)?;
                if fault.is_some() {
                    return Ok(fault);
                }
                cpu.pc = cpu.pc.wrapping_add(1);
            }
            AlphaStep::Want(access) => {
                let (value, done) = self.make(access, pages, memory, random)?;
                finish(&mut cpu, code, value, done);
            }
        }
        self.cpu = cpu;
        Ok(None)
    }

    /// Runs the block to its exit or to a fault.
    pub fn run(
        &mut self,
        block: &Block,
        code: &[u32],
        pages: &Pages,
        at: u32,
        memory: &mut Memory,
        random: &mut Random,
    ) -> Result<End> {
        for _ in 0..MOST_STEPS {
            if let Some(address) = exit_at(block, self.cpu.pc) {
                return Ok(End::Left(address));
            }
            if let Some(fault) = self.step(block, code, pages, at, memory, random)? {
                return Ok(End::Fault(fault));
            }
        }
        bail!("endless")
    }
}

fn shown_register(quad: u64) -> Option<u32> {
    let low = (quad % 0x1_0000_0000) as u32;
    (sign(low) == quad).then_some(low)
}

fn shown_flag(quad: u64, flag: u16) -> Option<u16> {
    match quad {
        0 => Some(0),
        1 => Some(flag),
        _ => None,
    }
}

/// The state that registers in form show, where all codes are ready.
pub fn shown(cpu: &Cpu, pc: u32, state: &VaxState) -> Option<VaxState> {
    let mut r = [0u32; 15];
    for number in 0..15 {
        r[number] = shown_register(cpu.r[number])?;
    }
    let mut psw = (cpu.r[20] % 0x100) as u16;
    if u64::from(psw & 0xF0) != cpu.r[20] {
        return None;
    }
    psw |= shown_flag(cpu.r[16], 8)?;
    psw |= shown_flag(cpu.r[17], 4)?;
    psw |= shown_flag(cpu.r[18], 2)?;
    psw |= shown_flag(cpu.r[19], 1)?;
    Some(VaxState {
        r,
        pc,
        psw,
        ..*state
    })
}
