// The words that write an operand.
ghost use Rattle.std.specs.Prelude.{◌≡◌, ◌≤◌, ◌++◌, length, All, IfOk, OnOk, true};
ghost use Rattle.std.specs.List.{list_all};
ghost use Rattle.vt_words.specs.Quad.{IsCount};
ghost use Rattle.alpha_encode.specs.Words.{IsEncodable};
ghost use Rattle.alpha_meaning.specs.Loops.{retry};
ghost use Rattle.byte_sequences.specs.Instructions.{IsArgument, is_scratch, writes_only};
ghost use Rattle.byte_sequences.specs.Words.{replacing, first_write, second_write, tested_second_write, unaligned_write, longword_write, quadword_write, write_code, bw_word_write, bw_write_code};
ghost use Rattle.byte_sequences.specs.Promises.{WritesPlan, stored_bytes, bw_stored_bytes, most_write_words};

use crate::operators::{insert_high, insert_low, mask_high, mask_low};
use alpha_encode::registers::{BYTES, QUAD, QUAD_ADDRESS, ZERO};
use alpha_encode::{
    AlphaInstr, BranchOp, MemoryOp, OperateOp, branch, memory, operate, operate_by,
};
use std::alloc::{AllocError, Global};
use vax_form::WantOfMemory;

/// A loop that replaces bytes of the quadword at R27 by those of `from`.
fn push_loop(
    words: &mut Vec<AlphaInstr>,
    mask: OperateOp,
    insert: OperateOp,
    place: u8,
    from: u8,
) -> Result<(), AllocError>
    ensures { OnOk result (words.new.items ≡ words.old.items ++ retry (replacing mask insert place from)) }
{
    words.extend_from_slice(&[
        memory(MemoryOp::LdqL, QUAD, QUAD_ADDRESS, 0),
        operate(mask, QUAD, place, QUAD),
        operate(insert, from, place, BYTES),
        operate(OperateOp::Bis, QUAD, BYTES, QUAD),
        memory(MemoryOp::StqC, QUAD, QUAD_ADDRESS, 0),
        branch(BranchOp::Beq, QUAD, -6),
    ])?;
    Ok(())
}

fn push_first(words: &mut Vec<AlphaInstr>, place: u8, count: u8, from: u8) -> Result<(), AllocError>
    ensures { OnOk result (words.new.items ≡ words.old.items ++ first_write place count from) }
{
    words.push(operate_by(OperateOp::Bic, place, 7, QUAD_ADDRESS))?;
    push_loop(words, mask_low(count), insert_low(count), place, from)
}

fn push_second(
    words: &mut Vec<AlphaInstr>,
    place: u8,
    count: u8,
    from: u8,
) -> Result<(), AllocError>
    ensures { OnOk result (words.new.items ≡ words.old.items ++ second_write place count from) }
{
    words.push(operate_by(OperateOp::Addq, QUAD_ADDRESS, 8, QUAD_ADDRESS))?;
    push_loop(words, mask_high(count), insert_high(count), place, from)
}

/// The second part, where the operand has one.
fn push_tested_second(
    words: &mut Vec<AlphaInstr>,
    place: u8,
    count: u8,
    from: u8,
) -> Result<(), AllocError>
    requires { count ≤ 8 }
    ensures { OnOk result (words.new.items ≡ words.old.items ++ tested_second_write place count from) }
{
    words.extend_from_slice(&[
        operate_by(OperateOp::And, place, 7, QUAD),
        operate_by(OperateOp::Cmpult, QUAD, 9 - count, QUAD),
        branch(BranchOp::Bne, QUAD, 7),
    ])?;
    push_second(words, place, count, from)
}

fn push_unaligned(
    words: &mut Vec<AlphaInstr>,
    place: u8,
    count: u8,
    from: u8,
) -> Result<(), AllocError>
    requires { count ≤ 8 }
    ensures { OnOk result (words.new.items ≡ words.old.items ++ unaligned_write place count from) }
{
    push_first(words, place, count, from)?;
    push_tested_second(words, place, count, from)
}

fn byte_write(alloc: Global, place: u8, from: u8) -> Result<Vec<AlphaInstr>, AllocError>
    ensures { IfOk result (λ words. words.items ≡ first_write place 1 from) }
{
    let mut words = Vec::new(alloc);
    push_first(&mut words, place, 1, from)?;
    Ok(words)
}

fn word_write(alloc: Global, place: u8, from: u8) -> Result<Vec<AlphaInstr>, AllocError>
    ensures { IfOk result (λ words. words.items ≡ unaligned_write place 2 from) }
{
    let mut words = Vec::new(alloc);
    push_unaligned(&mut words, place, 2, from)?;
    Ok(words)
}

fn longword_write(alloc: Global, place: u8, from: u8) -> Result<Vec<AlphaInstr>, AllocError>
    ensures { IfOk result (λ words. words.items ≡ longword_write place from) }
{
    let mut words = vec![in alloc;
        operate_by(OperateOp::And, place, 3, QUAD),
        branch(BranchOp::Beq, QUAD, 18),
    ]?;
    push_unaligned(&mut words, place, 4, from)?;
    words.extend_from_slice(&[
        branch(BranchOp::Br, ZERO, 1),
        memory(MemoryOp::Stl, from, place, 0),
    ])?;
    Ok(words)
}

fn quadword_write(alloc: Global, place: u8, from: u8) -> Result<Vec<AlphaInstr>, AllocError>
    ensures { IfOk result (λ words. words.items ≡ quadword_write place from) }
{
    let mut words = vec![in alloc;
        operate_by(OperateOp::And, place, 3, QUAD),
        branch(BranchOp::Bne, QUAD, 8),
        operate_by(OperateOp::And, place, 7, QUAD),
        branch(BranchOp::Bne, QUAD, 2),
        memory(MemoryOp::Stq, from, place, 0),
        branch(BranchOp::Br, ZERO, 18),
        memory(MemoryOp::Stl, from, place, 0),
        operate_by(OperateOp::Srl, from, 32, QUAD),
        memory(MemoryOp::Stl, QUAD, place, 4),
        branch(BranchOp::Br, ZERO, 14),
    ]?;
    push_first(&mut words, place, 8, from)?;
    push_second(&mut words, place, 8, from)?;
    Ok(words)
}

fn write_code(alloc: Global, place: u8, count: u8, from: u8) -> Result<Vec<AlphaInstr>, AllocError>
    requires { IsCount count }
    ensures { IfOk result (λ words. words.items ≡ write_code place count from) }
{
    match count {
        1 => byte_write(alloc, place, from),
        2 => word_write(alloc, place, from),
        4 => longword_write(alloc, place, from),
        _ => quadword_write(alloc, place, from),
    }
}

/// The words that write the low `count` bytes of `from` to the operand at the address in `place`.
pub fn write_words(
    alloc: Global,
    place: u8,
    count: u8,
    from: u8,
) -> Result<Vec<AlphaInstr>, WantOfMemory>
    requires place { IsArgument place }
    requires from { IsArgument from }
    requires count { IsCount count }
    // Each part is written once, wherever the words stand and however often a store conditional fails.
    ensures writes { IfOk result (λ words. WritesPlan stored_bytes place count from words.items) }
    ensures short { IfOk result (λ words. length words.items ≤ most_write_words count) }
    ensures encodable { IfOk result (λ words. All IsEncodable words.items) }
    ensures scratch { IfOk result (λ words. list_all (writes_only is_scratch) words.items ≡ true) }
    ensures words { IfOk result (λ words. words.items ≡ write_code place count from) }
{
    Ok(write_code(alloc, place, count, from)?)
}

/// A word at an even address is stored as a whole.
fn bw_word_write(alloc: Global, place: u8, from: u8) -> Result<Vec<AlphaInstr>, AllocError>
    ensures { IfOk result (λ words. words.items ≡ bw_word_write place from) }
{
    let mut words = vec![in alloc;
        branch(BranchOp::Blbs, place, 2),
        memory(MemoryOp::Stw, from, place, 0),
        branch(BranchOp::Br, ZERO, 17),
    ]?;
    push_unaligned(&mut words, place, 2, from)?;
    Ok(words)
}

fn bw_write_code(
    alloc: Global,
    place: u8,
    count: u8,
    from: u8,
) -> Result<Vec<AlphaInstr>, AllocError>
    requires { IsCount count }
    ensures { IfOk result (λ words. words.items ≡ bw_write_code place count from) }
{
    match count {
        1 => Ok(vec![in alloc; memory(MemoryOp::Stb, from, place, 0)]?),
        2 => bw_word_write(alloc, place, from),
        _ => write_code(alloc, place, count, from),
    }
}

/// The same with the byte-word extension: a byte is stored by STB, a word at an even address by STW.
pub fn bw_write_words(
    alloc: Global,
    place: u8,
    count: u8,
    from: u8,
) -> Result<Vec<AlphaInstr>, WantOfMemory>
    requires place { IsArgument place }
    requires from { IsArgument from }
    requires count { IsCount count }
    // Each part is written once, wherever the words stand and however often a store conditional fails.
    ensures writes { IfOk result (λ words. WritesPlan bw_stored_bytes place count from words.items) }
    ensures short { IfOk result (λ words. length words.items ≤ most_write_words count) }
    ensures encodable { IfOk result (λ words. All IsEncodable words.items) }
    ensures scratch { IfOk result (λ words. list_all (writes_only is_scratch) words.items ≡ true) }
    ensures words { IfOk result (λ words. words.items ≡ bw_write_code place count from) }
{
    Ok(bw_write_code(alloc, place, count, from)?)
}
