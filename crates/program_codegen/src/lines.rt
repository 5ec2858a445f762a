// The words of a block with their points and exits, and the block that they make.
ghost use Rattle.std.specs.Prelude.{◌≡◌, ◌++◌, ◌≤◌, Some, None, length, map, IfOk, OnOk, []};
ghost use Rattle.program_codegen.specs.Homes.{is_temporary};
ghost use Rattle.program_codegen.specs.Words.{plain, marked, exit_lines, holder, copy, with_first, words_of, points_from, exits_from, block_of};

use alpha_encode::registers::{ADDRESS, TEMPORARIES};
use alpha_encode::{AlphaInstr, NOP, OperateOp, operate_by, pal};
use exception_records::{Block, Point};
use std::alloc::{AllocError, Global};

/// R0 to R14 are the registers of the VAX.
pub(crate) const VAX_REGISTERS: u8 = 15;
/// The call that raises a fault.
pub(crate) const RAISE: AlphaInstr = AlphaInstr::Pal(pal::RAISE);

/// A word of a block, with its point, and the address to which the exit goes that begins there.
#[derive(Clone, Copy)]
pub(crate) struct Line {
    pub(crate) instr: AlphaInstr,
    pub(crate) point: Option<Point>,
    pub(crate) exit: Option<u32>,
}

pub(crate) fn plain(instr: AlphaInstr) -> Line
    ensures { result ≡ plain instr }
{
    Line {
        instr,
        point: None,
        exit: None,
    }
}

pub(crate) fn marked(instr: AlphaInstr, point: Point) -> Line
    ensures { result ≡ marked instr point }
{
    Line {
        instr,
        point: Some(point),
        exit: None,
    }
}

/// The register that holds a temporary.
pub(crate) fn holder(temp: u8) -> u8
    requires { temp ≤ 5 }
    ensures { result ≡ holder temp }
{
    TEMPORARIES + temp
}

/// Whether it is the register of a temporary.
pub(crate) fn is_temporary(register: u8) -> bool
    ensures { result ≡ is_temporary register }
{
    TEMPORARIES <= register && register < ADDRESS
}

pub(crate) fn copy(from: u8, to: u8) -> AlphaInstr
    ensures { result ≡ copy from to }
{
    operate_by(OperateOp::Bis, from, 0, to)
}

pub(crate) fn push_words(lines: &mut Vec<Line>, words: &[AlphaInstr]) -> Result<(), AllocError>
    ensures { OnOk result (lines.new.items ≡ lines.old.items ++ map plain words.now) }
{
    for word in words {
        lines.push(plain(*word))?;
    }
    Ok(())
}

/// The three words of an exit, which are filled where the block is laid out.
pub(crate) fn push_exit(lines: &mut Vec<Line>, address: u32) -> Result<(), AllocError>
    ensures { OnOk result (lines.new.items ≡ lines.old.items ++ exit_lines address) }
{
    let first = Line {
        instr: NOP,
        point: None,
        exit: Some(address),
    };
    lines.extend_from_slice(&[first, plain(NOP), plain(NOP)])
}

/// The first word gets the point, where it has none of its own.
pub(crate) fn mark_first(lines: &mut Vec<Line>, point: Point)
    ensures { lines.new.items ≡ with_first point lines.old.items }
{
    if let Some(line) = lines.first_mut() {
        line.point = Some(line.point.unwrap_or(point));
    }
}

// Each line's word, its point and its exit beside its number.
fn push_lines(block: &mut Block, lines: &[Line]) -> Result<(), AllocError>
    requires few { length lines.now ≤ 256 }
    requires words { block.old.words ≡ [] }
    requires exits { block.old.exits ≡ [] }
    requires points { block.old.points ≡ [] }
    ensures { OnOk result (block.new ≡ block_of lines.now) }
{
    for (word, line) in lines.iter().enumerate() {
        block.words.push(line.instr)?;
        if let Some(address) = line.exit {
            block.exits.push((word as u32, address))?;
        }
        if let Some(point) = line.point {
            block.points.push((word as u32, point))?;
        }
    }
    Ok(())
}

/// The block of these lines.
pub(crate) fn block_of(alloc: Global, lines: &[Line]) -> Result<Block, AllocError>
    requires few { length lines.now ≤ 256 }
    ensures { IfOk result (λ block. block ≡ block_of lines.now) }
{
    let mut block = Block {
        words: Vec::new(alloc),
        exits: Vec::new(alloc),
        points: Vec::new(alloc),
    };
    push_lines(&mut block, lines)?;
    Ok(block)
}
