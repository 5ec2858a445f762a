// A call in a page of code, with random operands, and the pages around it.
ghost use Rattle.std.specs.Prelude.{◌≡◌, ◌<◌, IfOk, false, length, true};

use crate::calls::random::Random;
use anyhow::Result;
use std::alloc::Global;
use vax_form::{PageRange, Pages, SP};

/// Where the call stands, in the page of code.
pub const CALL_AT: u32 = 0x200;
/// Where the procedure's entry mask stands.
const MASK_AT: u32 = 0x240;

const MASK_OFFSET: usize = 0x40;

/// The bytes of a page, and of two.
const PAGE_BYTES: usize = 512;

const TWO_PAGES: usize = 1024;
/// What the page has that is only read.
const FILLING: u8 = 7;
/// The most pages that stand together.
const TOGETHER: u32 = 16;

const CALLG: u8 = 0xFA;

const CALLS: u8 = 0xFB;

const NOP: u8 = 1;

const ABSOLUTE: u8 = 0x9F;

const IMMEDIATE: u8 = 0x8F;

const INDEXED: u8 = 0x40;

const IN_REGISTER: u8 = 0x50;

const REGISTERS: u32 = 15;

/// The first page that may be written, and the page behind the last one.
const FIRST_PAGE: u32 = 8;

const END_PAGE: u32 = 56;
/// The last page below 80000000.
const LAST_PAGE: u32 = 0x3F_FFFF;

#[derive(Drop)]
struct Code {
    bytes: Vec<u8>,
}

impl Code {
    fn byte(&mut self, byte: u8) -> Result<()> {
        self.bytes.push(byte)?;
        Ok(())
    }

    fn word(&mut self, value: u16) -> Result<()> {
        self.bytes.extend_from_slice(&value.to_le_bytes())?;
        Ok(())
    }

    fn long(&mut self, value: u32) -> Result<()> {
        self.bytes.extend_from_slice(&value.to_le_bytes())?;
        Ok(())
    }

    /// Bytes up to a length.
    fn fill(&mut self, length: usize, byte: u8) -> Result<()> {
        for _ in self.bytes.len()..length {
            self.bytes.push(byte)?;
        }
        Ok(())
    }
}

/// R0 to R14.
fn register(random: &mut Random) -> u8
    ensures { result < 15 }
{
    random.below(REGISTERS) as u8
}

/// A literal, a register or an immediate longword.
fn push_value(code: &mut Code, random: &mut Random, number: u8) -> Result<()> {
    match random.below(3) {
        0 => code.byte(random.byte() % 64),
        1 => code.byte(IN_REGISTER | number),
        _ => {
            code.byte(IMMEDIATE)?;
            code.long(random.long())
        }
    }
}

/// A place by a register, by its mode.
fn push_place(code: &mut Code, random: &mut Random, mode: u32, number: u8) -> Result<()> {
    match mode {
        0 => code.byte(0x60 | number),
        1 => code.byte(0x70 | number),
        2 => code.byte(0x80 | number),
        3 => code.byte(0x90 | number),
        4 => {
            code.byte(0xA0 | number)?;
            code.byte(random.byte() % 32)
        }
        5 => {
            code.byte(0xB0 | number)?;
            code.byte(random.byte())
        }
        6 => {
            code.byte(0xC0 | number)?;
            code.word(random.below(0x800) as u16)
        }
        7 => {
            code.byte(0xE0 | number)?;
            code.long(random.below(3) * 0x7FFC)
        }
        _ => {
            code.byte(0xF0 | number)?;
            code.long(random.below(3) * 0x1_0000)
        }
    }
}

/// The index of a place by a register, mostly another one.
fn index(random: &mut Random, base: u8) -> u8 {
    let number = register(random);
    if number != base {
        number
    } else if base == 0 {
        1
    } else {
        0
    }
}

fn push_operand(code: &mut Code, random: &mut Random, is_read: bool) -> Result<()> {
    let number = if random.comes(4) {
        SP
    } else {
        register(random)
    };
    if is_read && random.comes(3) {
        return push_value(code, random, number);
    }
    if random.comes(10) {
        code.byte(ABSOLUTE)?;
        return code.long(0x1000 + random.below(0x3000));
    }
    if random.comes(3) {
        code.byte(INDEXED | index(random, number))?;
    }
    let mode = random.below(9);
    push_place(code, random, mode, number)
}

/// An entry mask without the bits that are reserved.
fn mask(random: &mut Random) -> u16 {
    match random.below(6) {
        0 => 0x0FFF,
        1 => 0xC000,
        2 => 0,
        _ => (random.long() % 0x1_0000) as u16 & 0xCFFF,
    }
}

/// The bytes of a call of a procedure in the same page.
fn call_bytes(alloc: Global, random: &mut Random) -> Result<Vec<u8>> {
    let mut code = Code {
        bytes: Vec::new(alloc),
    };
    let stack = random.comes(2);
    code.byte(if stack { CALLS } else { CALLG })?;
    push_operand(&mut code, random, stack)?;
    code.byte(ABSOLUTE)?;
    code.long(MASK_AT)?;
    code.fill(MASK_OFFSET, NOP)?;
    code.word(mask(random))?;
    code.fill(PAGE_BYTES, 0)?;
    Ok(code.bytes)
}

fn writable(first: u32, count: u32) -> PageRange
    ensures { result ≡ record { first = first; count = count; writable = true; place = 0 } }
{
    PageRange {
        first,
        count,
        writable: true,
        place: 0,
    }
}

fn read_only(page: u32, place: u32) -> PageRange
    ensures { result ≡ record { first = page; count = 1; writable = false; place = place } }
{
    PageRange {
        first: page,
        count: 1,
        writable: false,
        place,
    }
}

/// The bytes of the page of code, and of a page that is only read.
fn two_pages(alloc: Global, random: &mut Random) -> Result<Vec<u8>>
    ensures { IfOk result (λ code. length code.items ≡ 1024) }
{
    let bytes = call_bytes(alloc, random)?;
    let mut code = vec![in alloc; FILLING; TWO_PAGES]?;
    for place in 0..PAGE_BYTES {
        if let Some(byte) = bytes.get(place) {
            code[place] = *byte;
        }
    }
    Ok(code)
}

/// Pages with a call at `CALL_AT`. Of those from `FIRST_PAGE` on one may only be read and one is missing, and the others may be written.
pub fn pages(alloc: Global, random: &mut Random) -> Result<Pages> {
    let code = two_pages(alloc, random)?;
    let low = 1 + random.below(TOGETHER);
    let middle = 1 + random.below(TOGETHER);
    let high = 1 + random.below(TOGETHER);
    let kept = FIRST_PAGE + low;
    let missing = kept + 1 + middle;
    let ranges = vec![in alloc;
        writable(0, 1),
        read_only(1, 0),
        writable(FIRST_PAGE, low),
        read_only(kept, PAGE_BYTES as u32),
        writable(kept + 1, middle),
        writable(missing + 1, high),
        writable(LAST_PAGE, 1),
    ]?;
    Ok(Pages { ranges, code })
}
