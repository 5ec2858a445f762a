// The blocks that copy a string, written by hand.
ghost use Rattle.std.specs.Prelude.{◌≡◌, ◌++◌, IfOk, true};
ghost use Rattle.block_law.specs.Blocks.{IsBlockOf};
ghost use Rattle.loop_rows.specs.Copying.{Copies, MeetsAll, copy_words, loop_words, point_of, probe_words, turn_words};
ghost use Rattle.loop_rows.specs.Measuring.{Measures, MeasuresAll, measured_words, word_point};

use alpha_encode::registers::{ADDRESS, BYTES, QUAD, QUAD_ADDRESS, TEMPORARIES, ZERO};
use alpha_encode::{
    AlphaInstr, BranchOp, MemoryOp, NOP, OperateOp, branch, memory, operate, operate_by, pal,
};
use byte_sequences::read_words;
use exception_records::{Block, Point, Rules};
use std::alloc::{AllocError, Global};

const PROBE: AlphaInstr = AlphaInstr::Pal(pal::PROBE);
/// The address of the byte that is read.
const SOURCE_REGISTER: u8 = TEMPORARIES + 1;
/// The byte.
const BYTE_REGISTER: u8 = TEMPORARIES + 2;
/// The address to which it is written.
const TARGET_REGISTER: u8 = TEMPORARIES + 3;

/// Both strings are probed, and R0 gets the low word of R21.
fn probes() -> [AlphaInstr; 5]
    ensures { result ≡ probe_words }
{
    [
        operate(OperateOp::Addq, ZERO, 1, ADDRESS),
        PROBE,
        operate(OperateOp::Addq, ZERO, 3, ADDRESS),
        PROBE,
        operate_by(OperateOp::Extwl, TEMPORARIES, 0, 0),
    ]
}

/// A byte is read and written, and R1, R3 and R0 go on, until R0 is 0.
fn turn() -> [AlphaInstr; 16]
    ensures { result ≡ turn_words }
{
    [
        branch(BranchOp::Beq, 0, 15),
        operate_by(OperateOp::Extll, 1, 0, SOURCE_REGISTER),
        memory(MemoryOp::LdqU, QUAD, SOURCE_REGISTER, 0),
        operate(OperateOp::Extbl, QUAD, SOURCE_REGISTER, BYTE_REGISTER),
        operate_by(OperateOp::Extll, 3, 0, TARGET_REGISTER),
        operate_by(OperateOp::Bic, TARGET_REGISTER, 7, QUAD_ADDRESS),
        memory(MemoryOp::LdqL, QUAD, QUAD_ADDRESS, 0),
        operate(OperateOp::Mskbl, QUAD, TARGET_REGISTER, QUAD),
        operate(OperateOp::Insbl, BYTE_REGISTER, TARGET_REGISTER, BYTES),
        operate(OperateOp::Bis, QUAD, BYTES, QUAD),
        memory(MemoryOp::StqC, QUAD, QUAD_ADDRESS, 0),
        branch(BranchOp::Beq, QUAD, -6),
        operate_by(OperateOp::Addl, 1, 1, 1),
        operate_by(OperateOp::Addl, 3, 1, 3),
        operate_by(OperateOp::Subl, 0, 1, 0),
        branch(BranchOp::Br, ZERO, -16),
    ]
}

/// A point whose probe checks a word.
fn word_point(address: u32) -> Point
    ensures { result ≡ word_point address }
{
    Point {
        count: 2,
        ..point_of(address, false)
    }
}

/// A point whose probe takes its count from R21.
fn point_of(address: u32, write: bool) -> Point
    ensures { result ≡ point_of address write }
{
    Point {
        vax_pc: address,
        done: 0,
        count: 0,
        write,
        raises: 0,
        rules: Rules::READY,
    }
}

/// The loop behind these words, with three for the exit.
fn add_loop(words: &mut Vec<AlphaInstr>) -> Result<(), AllocError>
    ensures { IfOk result (λ _. words.new.items ≡ words.old.items ++ loop_words) }
{
    words.extend_from_slice(&probes())?;
    words.extend_from_slice(&turn())?;
    words.extend_from_slice(&[NOP, NOP, NOP])?;
    Ok(())
}

fn copy_words(alloc: Global) -> Result<Vec<AlphaInstr>, AllocError>
    ensures { IfOk result (λ words. words.items ≡ copy_words) }
{
    let mut words = vec![in alloc; operate(OperateOp::Addq, ZERO, 0, TEMPORARIES)]?;
    add_loop(&mut words)?;
    Ok(words)
}

/// R21 gets the word at the address in R2, and the loop stands behind.
fn measured_words(alloc: Global) -> Result<Vec<AlphaInstr>, AllocError>
    ensures { IfOk result (λ words. words.items ≡ measured_words) }
{
    let mut words = vec![in alloc;
        operate(OperateOp::Addq, ZERO, 2, ADDRESS),
        PROBE,
        operate_by(OperateOp::Extll, 2, 0, SOURCE_REGISTER),
    ]?;
    let read = read_words(alloc, SOURCE_REGISTER, 2, TEMPORARIES).map_err(|_| AllocError)?;
    words.extend_from_slice(&read)?;
    add_loop(&mut words)?;
    Ok(words)
}

/// The block of an instruction at `address` that copies as many bytes as the low word of R0 says from the address in R1
/// to that in R3, and goes on at `after`.
pub fn copy_block(alloc: Global, address: u32, after: u32) -> Result<Block, AllocError>
    // It has words that have encodings, and writes nothing that a boundary shows before its last probe.
    ensures shape { IfOk result (λ block. IsBlockOf true address block) }
    // Wherever it stands, it copies byte by byte.
    ensures means { IfOk result (λ block. Copies address after block) }
    // It is all that a block has to be.
    ensures meets { IfOk result (λ block. MeetsAll address after block) }
{
    let point = point_of(address, false);
    Ok(Block {
        words: copy_words(alloc)?,
        exits: vec![in alloc; (22, after)]?,
        points: vec![in alloc; (0, point), (2, point), (4, point_of(address, true))]?,
    })
}

/// The block of an instruction at `address` that copies as many bytes as the word at the address in R2 says from the
/// address in R1 to that in R3, and goes on at `after`.
pub fn measured_block(alloc: Global, address: u32, after: u32) -> Result<Block, AllocError>
    // It has words that have encodings, and writes nothing that a boundary shows before its last probe.
    ensures shape { IfOk result (λ block. IsBlockOf true address block) }
    // Wherever it stands, it reads the length and then copies byte by byte.
    ensures means { IfOk result (λ block. Measures address after block) }
    // It is all that a block has to be.
    ensures meets { IfOk result (λ block. MeasuresAll address after block) }
{
    let word = word_point(address);
    let source = point_of(address, false);
    let target = point_of(address, true);
    Ok(Block {
        words: measured_words(alloc)?,
        exits: vec![in alloc; (33, after)]?,
        points: vec![in alloc; (0, word), (1, word), (13, source), (15, target)]?,
    })
}
