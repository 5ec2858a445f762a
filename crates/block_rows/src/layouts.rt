// Blocks one behind the other, whose exits have all forms.
ghost use Rattle.std.specs.Prelude.{IfOk, false};
ghost use Rattle.block_law.specs.Blocks.{IsBlockOf};

use crate::blocks::{Site, made};
use anyhow::{Result, bail};
use branch_layout::lay_out;
use exception_records::{Block, Point};
use micro_ops::{Arg, Exit, Micro, MicroOp};
use row_tally::Tally;
use std::alloc::Global;
use vax_form::{Flags, Size};

/// Words, the map's pairs, and the points.
type Code = (Vec<u32>, Vec<(u32, u32)>, Vec<(u32, Point)>);

static WORDS: [u32; 33] = [
    // to the next block: BR, since a block has a word
    0xC3E0_0000,
    // an exit alone, to the first block: BR two words back
    0xC3FF_FFFE,
    // to no block: LDAH R26,2(R31); LDA R26,-32768(R26); CALL_PAL 86
    0x275F_0002,
    0x235A_8000,
    0x0000_0086,
    // to the first block, else to the next: ZAPNOT R1,#1,R21; BNE R21
    0x4820_3635,
    0xF6BF_FFF9,
    // to the next block, else to the first: ZAPNOT; BEQ R21
    0x4820_3635,
    0xE6BF_FFF7,
    // to no block, else to the first: ZAPNOT; BEQ R21; LDAH; LDA; CALL_PAL 86
    0x4820_3635,
    0xE6BF_FFF5,
    0x275F_0002,
    0x235A_8000,
    0x0000_0086,
    // to the first, else to no block: ZAPNOT; BNE R21; LDAH; LDA; CALL_PAL 86
    0x4820_3635,
    0xF6BF_FFF0,
    0x275F_0002,
    0x235A_8000,
    0x0000_0086,
    // to no block either way: ZAPNOT; BEQ R21 over three words, which stand twice
    0x4820_3635,
    0xE6A0_0003,
    0x275F_0002,
    0x235A_8000,
    0x0000_0086,
    0x275F_0002,
    0x235A_8000,
    0x0000_0086,
    // to the next block, behind a service: ZAPNOT; LDAH R26,0(R31); LDA R26,600(R26); CALL_PAL 82; BR
    0x4820_3635,
    0x275F_0000,
    0x235A_0258,
    0x0000_0082,
    0xC3E0_0000,
    // the last block, to itself: BR one word back
    0xC3FF_FFFF,
];

static PAIRS: [(u32, u32); 10] = [
    (0x200, 0),
    (0x207, 1),
    (0x20D, 2),
    (0x212, 5),
    (0x21A, 7),
    (0x220, 9),
    (0x230, 14),
    (0x240, 19),
    (0x250, 27),
    (0x258, 32),
];

// each block's first word, and the word of the service
static POINTS: [(u32, u32); 11] = [
    (0x200, 0),
    (0x207, 1),
    (0x20D, 2),
    (0x212, 5),
    (0x21A, 7),
    (0x220, 9),
    (0x230, 14),
    (0x240, 19),
    (0x250, 27),
    (0x250, 30),
    (0x258, 32),
];

/// The opcode of an instruction that keeps the codes.
const NOP: u8 = 0x01;

/// R21 gets the low byte of R1.
const MOVES: Micro = Micro::Compute {
    to: 0,
    op: MicroOp::Move,
    size: Size::Byte,
    a: Arg::Register(1),
    b: Arg::Const(0),
};

/// The block of a program at an address.
fn block_at(alloc: Global, at: u32, program: &[Micro]) -> Result<Block>
    ensures { IfOk result (IsBlockOf false at) }
{
    let site = Site { at, after: at };
    made(alloc, site, NOP, program, Flags::NONE)
}

/// Where no block is.
const NOWHERE: u32 = 0x1_8000;

/// A word that nothing reads, and an exit to an address.
fn going(alloc: Global, at: u32, to: u32) -> Result<Block>
    ensures { IfOk result (IsBlockOf false at) }
{
    block_at(alloc, at, &[MOVES, Micro::Leave(Exit::Fixed(to))])
}

/// A word, and exits to two addresses: where it is not 0, and where it is.
fn choosing(alloc: Global, at: u32, taken: u32, other: u32) -> Result<Block>
    ensures { IfOk result (IsBlockOf false at) }
{
    let exit = Exit::Choice {
        when: 0,
        taken,
        other,
    };
    block_at(alloc, at, &[MOVES, Micro::Leave(exit)])
}

/// A word, and a service behind which it goes on.
fn serving(alloc: Global, at: u32, after: u32) -> Result<Block>
    ensures { IfOk result (IsBlockOf false at) }
{
    let program = [MOVES, Micro::Leave(Exit::Service(0))];
    made(alloc, Site { at, after }, NOP, &program, Flags::NONE)
}

/// Blocks of all ends.
fn laid_out(alloc: Global) -> Result<Code> {
    let blocks = [
        (0x200, going(alloc, 0x200, 0x207)?),
        (
            0x207,
            block_at(alloc, 0x207, &[Micro::Leave(Exit::Fixed(0x200))])?,
        ),
        (0x20D, going(alloc, 0x20D, NOWHERE)?),
        (0x212, choosing(alloc, 0x212, 0x200, 0x21A)?),
        (0x21A, choosing(alloc, 0x21A, 0x220, 0x200)?),
        (0x220, choosing(alloc, 0x220, NOWHERE, 0x200)?),
        (0x230, choosing(alloc, 0x230, 0x200, NOWHERE)?),
        (0x240, choosing(alloc, 0x240, NOWHERE, NOWHERE)?),
        (0x250, serving(alloc, 0x250, 0x258)?),
        (0x258, going(alloc, 0x258, 0x258)?),
    ];
    match lay_out(alloc, &blocks) {
        Ok(code) => Ok(code),
        Err(_) => bail!("want of memory"),
    }
}

/// Words, pairs and points as they are worked out.
fn check_code(rt: &impl Print, tally: &mut Tally, code: &Code) -> Result<()> {
    let (words, map, points) = code;
    tally.check(rt, "words", &words.as_slice(), &WORDS.as_slice())?;
    tally.check(rt, "pairs", &map.as_slice(), &PAIRS.as_slice())?;
    tally.check(rt, "points", &points.len(), &POINTS.len())?;
    for ((word, point), wanted) in points.iter().zip(POINTS.iter()) {
        tally.check(rt, "point", &(point.vax_pc, *word), wanted)?;
    }
    Ok(())
}

/// Checks the code of these blocks.
pub fn all_ends(rt: &(impl Print + AllocGlobal)) -> Result<Tally> {
    let mut tally = Tally::NONE;
    check_code(rt, &mut tally, &laid_out(rt.alloc())?)?;
    tally.print(rt, "layouts")?;
    Ok(tally)
}
