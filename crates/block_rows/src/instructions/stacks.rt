// Instructions that push or pop, with the stack at each longword round the begin and the end of a writable page.
use crate::instructions::ending::outcome;
use crate::instructions::pages::pages_with;
use anyhow::{Result, bail};
use row_tally::Tally;
use std::alloc::{AllocError, Global};
use vax_decode::{Decoded, decode_at};
use vax_form::{Exception, Outcome, Pages, Pending, VaxState};

/// How an instruction uses the stack. A return begins with the status of the frame, and does not use SP.
#[derive(Clone, Copy)]
enum Use {
    Pushes,
    Pops,
    Returns,
}

/// An instruction with its code, how it uses the stack, how many longwords it pushes or pops, and the mask of the entry
/// at 210 or of the frame.
#[derive(Clone, Copy)]
struct Row {
    name: &'static str,
    code: &'static [u8],
    uses: Use,
    longwords: u32,
    mask: u16,
}

type Entry = (&'static str, &'static [u8], Use, u32, u16);

/// A call pushes the registers, PC, FP, AP, the status and 0, and CALLS the count of arguments before them. A return pops
/// the status, AP, FP, PC and the registers. The calls are CALLG @#1000,@#210 and CALLS #0,@#210.
static ROWS: [Entry; 24] = [
    (
        "CALLG of no register",
        &[0xFA, 0x9F, 0x00, 0x10, 0, 0, 0x9F, 0x10, 0x02, 0, 0],
        Use::Pushes,
        5,
        0,
    ),
    (
        "CALLG of 1 register",
        &[0xFA, 0x9F, 0x00, 0x10, 0, 0, 0x9F, 0x10, 0x02, 0, 0],
        Use::Pushes,
        6,
        0x001,
    ),
    (
        "CALLG of 11 registers",
        &[0xFA, 0x9F, 0x00, 0x10, 0, 0, 0x9F, 0x10, 0x02, 0, 0],
        Use::Pushes,
        16,
        0x7FF,
    ),
    (
        "CALLG of 12 registers",
        &[0xFA, 0x9F, 0x00, 0x10, 0, 0, 0x9F, 0x10, 0x02, 0, 0],
        Use::Pushes,
        17,
        0xFFF,
    ),
    (
        "CALLS of no register",
        &[0xFB, 0x00, 0x9F, 0x10, 0x02, 0, 0],
        Use::Pushes,
        6,
        0,
    ),
    (
        "CALLS of 1 register",
        &[0xFB, 0x00, 0x9F, 0x10, 0x02, 0, 0],
        Use::Pushes,
        7,
        0x001,
    ),
    (
        "CALLS of 11 registers",
        &[0xFB, 0x00, 0x9F, 0x10, 0x02, 0, 0],
        Use::Pushes,
        17,
        0x7FF,
    ),
    (
        "CALLS of 12 registers",
        &[0xFB, 0x00, 0x9F, 0x10, 0x02, 0, 0],
        Use::Pushes,
        18,
        0xFFF,
    ),
    ("RET of no register", &[0x04], Use::Returns, 4, 0),
    ("RET of 1 register", &[0x04], Use::Returns, 5, 0x001),
    ("RET of 11 registers", &[0x04], Use::Returns, 15, 0x7FF),
    ("RET of 12 registers", &[0x04], Use::Returns, 16, 0xFFF),
    (
        "PUSHR of no register",
        &[0xBB, 0x8F, 0, 0],
        Use::Pushes,
        0,
        0,
    ),
    (
        "PUSHR of 1 register",
        &[0xBB, 0x8F, 0x01, 0],
        Use::Pushes,
        1,
        0,
    ),
    (
        "PUSHR of 11 registers",
        &[0xBB, 0x8F, 0xFF, 0x07],
        Use::Pushes,
        11,
        0,
    ),
    (
        "PUSHR of 12 registers",
        &[0xBB, 0x8F, 0xFF, 0x0F],
        Use::Pushes,
        12,
        0,
    ),
    ("POPR of no register", &[0xBA, 0x8F, 0, 0], Use::Pops, 0, 0),
    (
        "POPR of 1 register",
        &[0xBA, 0x8F, 0x01, 0],
        Use::Pops,
        1,
        0,
    ),
    (
        "POPR of 11 registers",
        &[0xBA, 0x8F, 0xFF, 0x07],
        Use::Pops,
        11,
        0,
    ),
    (
        "POPR of 12 registers",
        &[0xBA, 0x8F, 0xFF, 0x0F],
        Use::Pops,
        12,
        0,
    ),
    ("PUSHL", &[0xDD, 0x00], Use::Pushes, 1, 0),
    ("BSBB", &[0x10, 0x00], Use::Pushes, 1, 0),
    ("JSB", &[0x16, 0x9F, 0x10, 0x02, 0, 0], Use::Pushes, 1, 0),
    ("RSB", &[0x05], Use::Pops, 1, 0),
];

/// What is seen of an instruction: its exception, whether the state is that before it, how many references it made
/// before, and whether they were those of the stack in order.
#[derive(Clone, Copy, Debug, PartialEq, Eq)]
struct Seen {
    raised: Option<Exception>,
    untouched: bool,
    references: u32,
    in_order: bool,
}

impl Row {
    fn of(entry: &Entry) -> Row {
        let (name, code, uses, longwords, mask) = *entry;
        Row {
            name,
            code,
            uses,
            longwords,
            mask,
        }
    }

    /// The address of a longword of the stack, from where the stack stands.
    fn address(&self, stack: u32, place: u32) -> u32 {
        match self.uses {
            Use::Pushes => stack.wrapping_sub(place.wrapping_add(1).wrapping_mul(4)),
            Use::Pops | Use::Returns => stack.wrapping_add(place.wrapping_mul(4)),
        }
    }

    /// The state before it, with the stack standing there.
    fn before(&self, stack: u32) -> VaxState {
        let mut state = VaxState {
            r: [0; 15],
            pc: 0x200,
            psw: 0,
            handler: 0,
            pending: Pending::Nothing,
        };
        match self.uses {
            Use::Pushes | Use::Pops => state.set_register(14, stack),
            Use::Returns => state.set_register(13, stack.wrapping_sub(4)),
        }
        state
    }

    /// The reply to a reference: the status of a return's frame has its mask, and every other longword is 0.
    fn reply(&self, place: u32) -> u64 {
        match self.uses {
            Use::Returns if place == 0 => u64::from(self.mask) << 16,
            _ => 0,
        }
    }

    /// The first longword of the stack that is not in the page from 1000 to 1200 is bad. Pushes are all checked before
    /// the first write, and a pop just before it is read.
    fn wanted(&self, stack: u32) -> Seen {
        for place in 0..self.longwords {
            let address = self.address(stack, place);
            if !(0x1000..0x1200).contains(&address) {
                let write = matches!(self.uses, Use::Pushes);
                return Seen {
                    raised: Some(Exception::AccessViolation { address, write }),
                    untouched: true,
                    references: if write { 0 } else { place },
                    in_order: true,
                };
            }
        }
        Seen {
            raised: None,
            untouched: false,
            references: self.longwords,
            in_order: true,
        }
    }

    /// The code at 200, and the page at 1000.
    fn pages(&self, alloc: Global) -> Result<Pages, AllocError> {
        let mut code = [0; 512];
        for (place, byte) in self.code.iter().enumerate() {
            if let Some(slot) = code.get_mut(place) {
                *slot = *byte;
            }
        }
        code[0x10..0x12].copy_from_slice(&self.mask.to_le_bytes());
        pages_with(alloc, &code)
    }

    /// Runs it with the stack standing there.
    fn seen(&self, alloc: Global, pages: &Pages, stack: u32) -> Result<Seen> {
        let Decoded::Instr(instr) = decode_at(pages, 0x200) else {
            bail!("no instruction");
        };
        let before = self.before(stack);
        let mut replies = Vec::new(alloc);
        let mut in_order = true;
        for place in 0..40 {
            let (raised, state) = match outcome(&before, &instr, pages, replies.as_slice()) {
                Outcome::Wants(reference) => {
                    in_order = in_order && reference.address == self.address(stack, place);
                    replies.push(self.reply(place))?;
                    continue;
                }
                Outcome::Done(state) | Outcome::Exits(state) => (None, state),
                Outcome::Raises(exception, state) => (Some(exception), state),
            };
            return Ok(Seen {
                raised,
                untouched: state == before,
                references: place,
                in_order,
            });
        }
        bail!("more references than the stack has longwords")
    }
}

/// The stack stands at each longword from one on.
fn check_from(
    rt: &(impl Print + AllocGlobal),
    tally: &mut Tally,
    row: &Row,
    pages: &Pages,
    first: u32,
) -> Result<()> {
    for step in 0..34 {
        let stack = first.wrapping_add(4 * step);
        let seen = row.seen(rt.alloc(), pages, stack)?;
        tally.check(rt, row.name, &seen, &row.wanted(stack))?;
    }
    Ok(())
}

/// The stack stands at each longword round the begin of the page, and round its end.
fn check_row(rt: &(impl Print + AllocGlobal), tally: &mut Tally, row: &Row) -> Result<()> {
    let pages = row.pages(rt.alloc())?;
    check_from(rt, tally, row, &pages, 0xFE0)?;
    check_from(rt, tally, row, &pages, 0x11A0)
}

/// Stacks that end within an instruction, or just don't.
pub fn check_stacks(rt: &(impl Print + AllocGlobal)) -> Result<Tally> {
    let mut tally = Tally::NONE;
    for entry in &ROWS {
        check_row(rt, &mut tally, &Row::of(entry))?;
    }
    tally.print(rt, "stacks round a page")?;
    Ok(tally)
}
