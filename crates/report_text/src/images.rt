//! The image that is generated for a number.
ghost use Rattle.std.specs.Prelude.{◌≡◌, ◌≤◌, ◌<◌, ◌^◌, ◌++◌, length, replicate, IfOk, OnOk};
ghost use Rattle.image_file.specs.Pages.{pages_of};
ghost use Rattle.image_file.specs.Spelling.{spelling};
ghost use Rattle.image_file.specs.Whole.{IsWhole};
ghost use Rattle.report_text.specs.Generated.{next_number, generated_code, generated_start, sections_with, generated_image};

use image_file::{FIRST_REGISTERS, Image, Section, Start, VERSION_1};
use std::alloc::{AllocError, Global};
use vax_form::{PAGE_SIZE, PageRange, Pages, WantOfMemory};

/// The most groups of a generated image.
pub const MOST_GROUPS: u32 = 32_000;

/// How the number behind another one comes from it, modulo 2^32.
const FACTOR: u64 = 1_664_525;

const SUMMAND: u64 = 1_013_904_223;

const MODULUS: u64 = 1 << 32;

/// Where a number has the byte of its group, the group's kind, and the place in memory.
const BYTE_UNIT: u32 = 1 << 24;

const KIND_UNIT: u32 = 1 << 22;

const KINDS: u32 = 4;

const PLACE_UNIT: u32 = 1 << 10;

const PLACES: u32 = 512;

/// How far one place is from the next: a byte for each thread.
const PLACE_BYTES: u32 = 4;

/// Where the two sections begin, and the bytes of the memory.
const CODE_START: u32 = 0x1_0000;

const DATA_START: u32 = 0x1000;

const DATA_BYTES: u32 = 2048;

/// How many threads there are, and the stack pointer of each.
const THREADS: usize = 4;

const STACK: u32 = 0x1800;

/// The pages of the memory.
const DATA_PAGES: PageRange = PageRange {
    first: DATA_START / PAGE_SIZE,
    count: DATA_BYTES / PAGE_SIZE,
    writable: true,
    place: 0,
};

/// Puts the thread's number into R0, R1 and R2.
const FRONT: [u8; 8] = [0xBC, 0x04, 0xD0, 0x50, 0x51, 0xD0, 0x50, 0x52];

/// Ends the thread with R2.
const BACK: [u8; 5] = [0xD0, 0x52, 0x50, 0xBC, 0x01];

/// The bytes of the image's file without any group.
const BYTES_WITHOUT_GROUPS: u64 = 89;

/// What the code does in a group.
#[derive(Clone, Copy, Debug, PartialEq, Eq)]
enum Group {
    /// ADDB2: adds the byte to the low byte of R2.
    Add(u8),
    /// XORB2: changes the low byte of R2 by exclusive or with the byte.
    ExclusiveOr(u8),
    /// ROTL: rotates R2 left by 3.
    Rotate,
    /// MOVB: stores the low byte of R2 so far behind that address as the thread's number says.
    Store(u16),
}

impl Group {
    ghost use Rattle.report_text.specs.Generated.{group_of, group_bytes};

    /// The group that is made by a number.
    fn of(x: u32) -> Group
        ensures { result ≡ group_of x }
    {
        let byte = (x / BYTE_UNIT) as u8;
        match x / KIND_UNIT % KINDS {
            0 => Group::Add(byte),
            1 => Group::ExclusiveOr(byte),
            2 => Group::Rotate,
            _ => Group::Store((DATA_START + PLACE_BYTES * (x / PLACE_UNIT % PLACES)) as u16),
        }
    }

    /// The bytes of its code.
    fn bytes(self) -> u64
        ensures { result ≡ length (group_bytes self) }
    {
        match self {
            Group::Add(_) | Group::ExclusiveOr(_) | Group::Rotate => 4,
            Group::Store(_) => 5,
        }
    }

    fn push(self, code: &mut Vec<u8>) -> Result<(), AllocError>
        ensures { OnOk result (code.new.items ≡ code.old.items ++ group_bytes self) }
    {
        match self {
            Group::Add(byte) => code.extend_from_slice(&[0x80, 0x8F, byte, 0x52]),
            Group::ExclusiveOr(byte) => code.extend_from_slice(&[0x8C, 0x8F, byte, 0x52]),
            Group::Rotate => code.extend_from_slice(&[0x9C, 0x03, 0x52, 0x52]),
            Group::Store(place) => {
                code.extend_from_slice(&[0x90, 0x52, 0xC1])?;
                code.extend_from_slice(&place.to_le_bytes())
            }
        }
    }
}

/// The number behind another one.
#[tactic(auto, unfolding(crate::specs::Generated::next_number))]
fn next_number(x: u32) -> u32
    ensures { result ≡ next_number x }
{
    ((u64::from(x) * FACTOR + SUMMAND) % MODULUS) as u32
}

fn generated_code(alloc: Global, number: u32) -> Result<Vec<u8>, AllocError>
    ensures { IfOk result (λ code. code.items ≡ generated_code number) }
{
    let mut code = Vec::new(alloc);
    code.extend_from_slice(&FRONT)?;
    let mut x = number;
    for _group in 0..number {
        Group::of(x).push(&mut code)?;
        x = next_number(x);
    }
    code.extend_from_slice(&BACK)?;
    Ok(code)
}

/// The page table of the two sections, by address.
fn pages_of(alloc: Global, code: &[u8]) -> Result<Pages, AllocError>
    requires some { 1 ≤ length code.now }
    requires few { length code.now ≤ 2 ^ 19 }
    ensures { IfOk result (λ pages. pages ≡ pages_of (sections_with code.now)) }
{
    let count = (code.len() as u32).div_ceil(PAGE_SIZE);
    let code_pages = PageRange {
        first: CODE_START / PAGE_SIZE,
        count,
        writable: false,
        place: 0,
    };
    let mut ranges = Vec::new(alloc);
    ranges.push(DATA_PAGES)?;
    ranges.push(code_pages)?;
    let mut bytes = Vec::from_slice(alloc, code)?;
    bytes.resize((PAGE_SIZE * count) as usize, 0)?;
    Ok(Pages {
        ranges,
        code: bytes,
    })
}

/// The two sections, with that code.
fn sections_of(alloc: Global, code: Vec<u8>) -> Result<Vec<Section>, AllocError>
    requires { length code.items < 2 ^ 32 }
    ensures { IfOk result (λ sections. sections.items ≡ sections_with code.items) }
{
    let mut sections = Vec::new(alloc);
    sections.push(Section {
        start: CODE_START,
        size: code.len() as u32,
        writable: false,
        stored: code,
    })?;
    sections.push(Section {
        start: DATA_START,
        size: DATA_BYTES,
        writable: true,
        stored: Vec::new(alloc),
    })?;
    Ok(sections)
}

/// The four threads, which start alike.
fn threads_of(alloc: Global) -> Result<Vec<Start>, AllocError>
    ensures { IfOk result (λ threads. threads.items ≡ replicate 4 generated_start) }
{
    let start = Start {
        pc: CODE_START,
        sp: STACK,
        first: [0; FIRST_REGISTERS],
    };
    vec![in alloc; start; THREADS]
}

/// The image that is generated for a number up to 32,000: a whole one of version 1.
pub fn generated(alloc: Global, number: u32) -> Result<Image, WantOfMemory>
    requires { number ≤ MOST_GROUPS }
    ensures exact { IfOk result (λ image. image ≡ generated_image number) }
    ensures whole { IfOk result (λ image. IsWhole image) }
{
    let code = generated_code(alloc, number)?;
    let pages = pages_of(alloc, &code)?;
    Ok(Image {
        version: VERSION_1,
        threads: threads_of(alloc)?,
        sections: sections_of(alloc, code)?,
        entries: Vec::new(alloc),
        pages,
    })
}

/// The length of that image's file. It takes no memory.
pub fn generated_bytes(number: u32) -> u64
    requires { number ≤ MOST_GROUPS }
    ensures { result ≡ length (spelling (generated_image number)) }
{
    let mut bytes = BYTES_WITHOUT_GROUPS;
    let mut x = number;
    for _group in 0..number {
        bytes += Group::of(x).bytes();
        x = next_number(x);
    }
    bytes
}
