// Runs of prepared code: how many steps it makes, where it comes to, and what is known of the block at which it arrives.
ghost use Rattle.std.specs.Prelude.{◌≡◌, slice_index};

use address_map::AddressMap;
use alpha_machine::Cpu;
use anyhow::{Context, Result, bail};
use exception_records::{CodeRule, Point, Points, Rules};
use prepared_code::{Block, Prepared, prepare};
use row_tally::{Given, five_fields, longword, longwords, pairs};
use std::alloc::Global;
use vax_form::{PageRange, Pages};

/// What each register holds before, the place of R31 too.
const HELD: u64 = 3;

const POINT: Point = Point {
    vax_pc: 0,
    done: 0,
    count: 0,
    write: false,
    raises: 0,
    rules: Rules {
        n: CodeRule::Zero,
        z: CodeRule::Ready,
        v: CodeRule::Ready,
        c: CodeRule::Ready,
    },
};

/// More words than a row has.
const MANY_WORDS: usize = 1000;

/// One read-only page, in which each byte is the low byte of its address.
fn pages(alloc: Global) -> Result<Pages> {
    let mut code = vec![in alloc; 0; 512]?;
    for place in 0..512 {
        code[place] = (place % 256) as u8;
    }
    let mut ranges = Vec::new(alloc);
    ranges.push(PageRange {
        first: 1,
        count: 1,
        writable: false,
        place: 0,
    })?;
    Ok(Pages { ranges, code })
}

/// The map of pairs with commas between.
fn map_of(alloc: Global, text: &str) -> Result<AddressMap> {
    let pairs = pairs(alloc, text)?;
    match address_map::build(alloc, &pairs) {
        Ok(map) => Ok(map),
        Err(_) => bail!("no map: {text}"),
    }
}

/// A point at that word, or none.
fn pairs_with_points(alloc: Global, text: &str) -> Result<Vec<(u32, Point)>> {
    if text == "-" {
        return Ok(Vec::new(alloc));
    }
    Ok(vec![in alloc; (longword(text)?, POINT)]?)
}

fn points_of(alloc: Global, text: &str) -> Result<Points> {
    match exception_records::build(pairs_with_points(alloc, text)?) {
        Ok(points) => Ok(points),
        Err(_) => bail!("no point: {text}"),
    }
}

fn block_text(alloc: Global, block: Block) -> Result<String> {
    let address = block.address;
    let mut text = format!(in alloc; "{address:X}")?;
    match block.opcode {
        Some(opcode) => write!(text, " {opcode:X}")?,
        None => text.push_str(" none")?,
    }
    match block.rules {
        Some(rules) => write!(text, " {:?}", rules.n)?,
        None => text.push_str(" none")?,
    }
    Ok(text)
}

/// The word at which code begins to run, and the most steps.
#[derive(Clone, Copy)]
struct Start {
    from: u32,
    most: u64,
}

/// The code of a row.
#[derive(Drop)]
struct Code {
    words: Vec<u32>,
    map: AddressMap,
    points: Points,
}

/// Makes the step that arrives at a block, if there is one, and tells where it comes to and of the block. Register 31 has to
/// stand as it reads.
fn land(alloc: Global, prepared: &Prepared<'_>, cpu: &mut Cpu, text: &mut String) -> Result<()>
    requires { slice_index cpu.old.r 31 ≡ 0 }
{
    if let Some(landing) = prepared.landing(cpu) {
        landing.make(cpu);
        let (pc, sum) = (cpu.pc, cpu.r[1]);
        let block = block_text(alloc, landing.block)?;
        write!(text, ", {pc} {sum:X} {block}")?;
    }
    Ok(())
}

/// Runs inside a block, and tells where to and of the block at which it arrives then.
fn run(alloc: Global, prepared: &Prepared<'_>, start: Start) -> Result<String> {
    let mut cpu = Cpu {
        r: [HELD; 32],
        pc: start.from,
    };
    let made = prepared.run_inside(&mut cpu, start.most);
    let (pc, sum) = (cpu.pc, cpu.r[1]);
    let mut text = format!(in alloc; "{made} {pc} {sum:X}")?;
    land(alloc, prepared, &mut cpu, &mut text)?;
    Ok(text)
}

impl Start {
    fn read(from: &str, most: &str) -> Result<Start> {
        Ok(Start {
            from: longword(from)?,
            most: u64::from(longword(most)?),
        })
    }
}

impl Code {
    fn read(alloc: Global, words: &str, pairs: &str, point: &str) -> Result<Code> {
        let (words, map) = (longwords(alloc, words)?, map_of(alloc, pairs)?);
        let points = points_of(alloc, point)?;
        Ok(Code { words, map, points })
    }

    fn run(&self, alloc: Global, start: Start) -> Result<String> {
        if self.words.len() > MANY_WORDS {
            bail!("too many words");
        }
        let pages = pages(alloc)?;
        match prepare(alloc, &self.words, &self.map, &self.points, &pages) {
            Ok(prepared) => run(alloc, &prepared, start),
            Err(_) => bail!("want of memory"),
        }
    }
}

/// Answers WORDS PAIRS POINT FROM MOST.
pub fn answer(alloc: Global, _given: &Given<'_>, question: &str) -> Result<String> {
    let (words, pairs, point, from, most) = five_fields(question)?;
    let code = Code::read(alloc, words, pairs, point)?;
    code.run(alloc, Start::read(from, most)?)
}
