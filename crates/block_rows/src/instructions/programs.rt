// Short programs, one reference at a time, worked by hand.
use crate::instructions::interpreted::Interpreted;
use crate::instructions::memory::Memory;
use crate::instructions::pages::{CODE, DATA, pages_with};
use anyhow::{Result, bail};
use row_tally::Tally;
use std::alloc::{AllocError, Global};
use tie_interpreter::TieStep;
use vax_decode::{Decoded, decode_at};
use vax_form::{Exception, Pages, Pending, VaxState};

/// More instructions than a program has.
const INSTRUCTIONS: u32 = 20;

#[derive(Clone, Copy)]
struct Program {
    name: &'static str,
    code: &'static [u8],
    /// The first bytes that may be written.
    stored: [u8; 5],
    stack: u32,
}

/// How a program ends: what it raises, the PC, the PSW, R0 and R1, its references, and the bytes.
#[derive(Clone, Copy, Debug, PartialEq, Eq)]
struct Seen {
    raised: Option<Exception>,
    pc: u32,
    psw: u16,
    r0: u32,
    r1: u32,
    references: u32,
    stored: [u8; 5],
}

impl Program {
    fn pages(&self, alloc: Global) -> Result<Pages, AllocError> {
        let mut code = [0; 512];
        for (place, byte) in code.iter_mut().zip(self.code) {
            *place = *byte;
        }
        pages_with(alloc, &code)
    }

    fn start(&self) -> VaxState {
        let mut state = VaxState {
            r: [0; 15],
            pc: CODE,
            psw: 0,
            handler: 0,
            pending: Pending::Nothing,
        };
        state.set_register(14, self.stack);
        state
    }

    fn seen(&self, alloc: Global) -> Result<Seen> {
        let mut memory = Memory::new(alloc);
        memory.store(DATA, &self.stored)?;
        let pages = self.pages(alloc)?;
        let mut course = Course {
            state: self.start(),
            references: 0,
            memory,
        };
        let (raised, after) = course.end(&pages)?;
        Ok(course.seen(raised, &after))
    }
}

/// A program that runs: the state, the references so far, and the memory.
#[derive(Drop)]
struct Course {
    state: VaxState,
    references: u32,
    memory: Memory,
}

impl Course {
    /// How the instruction at the PC ends.
    fn step(&mut self, pages: &Pages) -> Result<TieStep> {
        let Decoded::Instr(instr) = decode_at(pages, self.state.pc) else {
            bail!("no instruction at {:X}", self.state.pc);
        };
        let mut interpreted = Interpreted::begin(&self.state, instr);
        interpreted.end(pages, &mut self.memory, &mut self.references)
    }

    /// What the program raises at its end, and the state.
    fn end(&mut self, pages: &Pages) -> Result<(Option<Exception>, VaxState)> {
        for _ in 0..INSTRUCTIONS {
            match self.step(pages)? {
                TieStep::Retired(after) => self.state = after,
                TieStep::Exited(after) => return Ok((None, after)),
                TieStep::Raised(exception, after) => return Ok((Some(exception), after)),
                TieStep::Want(_) => bail!("no end"),
            }
        }
        bail!("more than {INSTRUCTIONS} instructions")
    }

    fn seen(&self, raised: Option<Exception>, after: &VaxState) -> Seen {
        let mut stored = [0; 5];
        let mut address = DATA;
        for byte in &mut stored {
            *byte = self.memory.byte(address);
            address = address.wrapping_add(1);
        }
        Seen {
            raised,
            pc: after.pc,
            psw: after.psw,
            r0: after.register(0),
            r1: after.register(1),
            references: self.references,
            stored,
        }
    }
}

const NO_BYTES: [u8; 5] = [0; 5];

/// A division by zero traps behind it: MOVL #7, R0; DIVL2 #0, R0.
///
/// A call on an unaligned stack keeps its low bits: CALLS #0, 209; MOVL SP, R0; CHMK #1. At 209, with an empty mask:
/// MOVL 4(FP), R1; RET.
///
/// A move that overlaps goes down: MOVC3 #4, @#1000, @#1001; MOVL R3, R0; CHMK #1.
static PROGRAMS: [(Program, Seen); 3] = [
    (
        Program {
            name: "division by zero",
            code: &[0xD0, 0x07, 0x50, 0xC6, 0x00, 0x50],
            stored: NO_BYTES,
            stack: 0,
        },
        Seen {
            raised: Some(Exception::Arithmetic(2)),
            pc: 0x206,
            psw: 2,
            r0: 7,
            r1: 0,
            references: 0,
            stored: NO_BYTES,
        },
    ),
    (
        Program {
            name: "call on an unaligned stack",
            code: &[
                0xFB, 0x00, 0xAF, 0x05, 0xD0, 0x5E, 0x50, 0xBC, 0x01, 0x00, 0x00, 0xD0, 0xAD, 0x04,
                0x51, 0x04,
            ],
            stored: NO_BYTES,
            stack: 0x11FE,
        },
        Seen {
            raised: None,
            pc: 0x209,
            psw: 0,
            r0: 0x11FE,
            r1: 0xA000_0000,
            references: 12,
            stored: NO_BYTES,
        },
    ),
    (
        Program {
            name: "move downward",
            code: &[
                0x28, 0x04, 0x9F, 0x00, 0x10, 0x00, 0x00, 0x9F, 0x01, 0x10, 0x00, 0x00, 0xD0, 0x53,
                0x50, 0xBC, 0x01,
            ],
            stored: *b"ABCDE",
            stack: 0,
        },
        Seen {
            raised: None,
            pc: 0x211,
            psw: 0,
            r0: 0x1005,
            r1: 0x1004,
            references: 8,
            stored: *b"AABCD",
        },
    ),
];

/// Checks each program.
pub fn check_programs(rt: &(impl Print + AllocGlobal)) -> Result<Tally> {
    let mut tally = Tally::NONE;
    for (program, wanted) in &PROGRAMS {
        tally.check(rt, program.name, &program.seen(rt.alloc())?, wanted)?;
    }
    tally.print(rt, "programs")?;
    Ok(tally)
}
