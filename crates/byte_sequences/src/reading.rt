// The words that read an operand.
ghost use Rattle.std.specs.Prelude.{◌≡◌, ◌≤◌, length, All, IfOk, true};
ghost use Rattle.std.specs.List.{list_all};
ghost use Rattle.vt_words.specs.Quad.{IsCount};
ghost use Rattle.alpha_encode.specs.Words.{IsEncodable};
ghost use Rattle.byte_sequences.specs.Instructions.{IsArgument, is_scratch_or, writes_only};
ghost use Rattle.byte_sequences.specs.Words.{byte_read, word_read, longword_read, quadword_read, extended_read, read_code, bw_word_read, bw_read_code};
ghost use Rattle.byte_sequences.specs.Promises.{ReadsPlan, ReadsExtended, loaded_bytes, bw_loaded_bytes, most_read_words};

use alpha_encode::registers::{BYTES, QUAD, ZERO};
use alpha_encode::{
    AlphaInstr, BranchOp, MemoryOp, OperateOp, branch, memory, operate, operate_by,
};
use std::alloc::{AllocError, Global};
use vax_form::WantOfMemory;

fn byte_read(alloc: Global, place: u8, to: u8) -> Result<Vec<AlphaInstr>, AllocError>
    ensures { IfOk result (λ words. words.items ≡ byte_read place to) }
{
    Ok(vec![in alloc;
        memory(MemoryOp::LdqU, QUAD, place, 0),
        operate(OperateOp::Extbl, QUAD, place, to),
    ]?)
}

/// The second quadword is loaded only where the word crosses to it.
fn word_read(alloc: Global, place: u8, to: u8) -> Result<Vec<AlphaInstr>, AllocError>
    ensures { IfOk result (λ words. words.items ≡ word_read place to) }
{
    Ok(vec![in alloc;
        operate_by(OperateOp::And, place, 7, BYTES),
        operate_by(OperateOp::Cmpult, BYTES, 7, BYTES),
        memory(MemoryOp::LdqU, QUAD, place, 0),
        operate(OperateOp::Extwl, QUAD, place, QUAD),
        branch(BranchOp::Bne, BYTES, 3),
        memory(MemoryOp::LdqU, BYTES, place, 1),
        operate(OperateOp::Extwh, BYTES, place, BYTES),
        operate(OperateOp::Bis, QUAD, BYTES, QUAD),
        operate_by(OperateOp::Bis, QUAD, 0, to),
    ]?)
}

/// An aligned longword is loaded as a whole.
fn longword_read(alloc: Global, place: u8, to: u8) -> Result<Vec<AlphaInstr>, AllocError>
    ensures { IfOk result (λ words. words.items ≡ longword_read place to) }
{
    Ok(vec![in alloc;
        operate_by(OperateOp::And, place, 3, QUAD),
        branch(BranchOp::Beq, QUAD, 8),
        operate_by(OperateOp::And, place, 4, BYTES),
        memory(MemoryOp::LdqU, QUAD, place, 0),
        operate(OperateOp::Extll, QUAD, place, QUAD),
        branch(BranchOp::Beq, BYTES, 5),
        memory(MemoryOp::LdqU, BYTES, place, 3),
        operate(OperateOp::Extlh, BYTES, place, BYTES),
        operate(OperateOp::Bis, QUAD, BYTES, QUAD),
        branch(BranchOp::Br, ZERO, 1),
        memory(MemoryOp::Ldl, QUAD, place, 0),
        operate_by(OperateOp::Zapnot, QUAD, 0x0f, to),
    ]?)
}

/// The same, but for the sign: what is read is extended with it.
fn extended_read(alloc: Global, place: u8, to: u8) -> Result<Vec<AlphaInstr>, AllocError>
    ensures { IfOk result (λ words. words.items ≡ extended_read place to) }
{
    Ok(vec![in alloc;
        operate_by(OperateOp::And, place, 3, QUAD),
        branch(BranchOp::Beq, QUAD, 9),
        operate_by(OperateOp::And, place, 4, BYTES),
        memory(MemoryOp::LdqU, QUAD, place, 0),
        operate(OperateOp::Extll, QUAD, place, QUAD),
        branch(BranchOp::Beq, BYTES, 3),
        memory(MemoryOp::LdqU, BYTES, place, 3),
        operate(OperateOp::Extlh, BYTES, place, BYTES),
        operate(OperateOp::Bis, QUAD, BYTES, QUAD),
        operate_by(OperateOp::Addl, QUAD, 0, to),
        branch(BranchOp::Br, ZERO, 1),
        memory(MemoryOp::Ldl, to, place, 0),
    ]?)
}

/// An aligned quadword is loaded as a whole.
fn quadword_read(alloc: Global, place: u8, to: u8) -> Result<Vec<AlphaInstr>, AllocError>
    ensures { IfOk result (λ words. words.items ≡ quadword_read place to) }
{
    Ok(vec![in alloc;
        operate_by(OperateOp::And, place, 7, QUAD),
        branch(BranchOp::Beq, QUAD, 6),
        memory(MemoryOp::LdqU, QUAD, place, 0),
        operate(OperateOp::Extql, QUAD, place, QUAD),
        memory(MemoryOp::LdqU, BYTES, place, 7),
        operate(OperateOp::Extqh, BYTES, place, BYTES),
        operate(OperateOp::Bis, QUAD, BYTES, to),
        branch(BranchOp::Br, ZERO, 1),
        memory(MemoryOp::Ldq, to, place, 0),
    ]?)
}

fn read_code(alloc: Global, place: u8, count: u8, to: u8) -> Result<Vec<AlphaInstr>, AllocError>
    requires { IsCount count }
    ensures { IfOk result (λ words. words.items ≡ read_code place count to) }
{
    match count {
        1 => byte_read(alloc, place, to),
        2 => word_read(alloc, place, to),
        4 => longword_read(alloc, place, to),
        _ => quadword_read(alloc, place, to),
    }
}

/// The words that read an operand of `count` bytes at the address in `place` into `to`.
pub fn read_words(
    alloc: Global,
    place: u8,
    count: u8,
    to: u8,
) -> Result<Vec<AlphaInstr>, WantOfMemory>
    requires place { IsArgument place }
    requires to { IsArgument to }
    requires count { IsCount count }
    // One load for each part, and the operand in the register, wherever the words stand.
    ensures reads { IfOk result (λ words. ReadsPlan loaded_bytes place count to words.items) }
    ensures short { IfOk result (λ words. length words.items ≤ most_read_words count) }
    ensures encodable { IfOk result (λ words. All IsEncodable words.items) }
    ensures writes { IfOk result (λ words. list_all (writes_only (is_scratch_or to)) words.items ≡ true) }
    ensures words { IfOk result (λ words. words.items ≡ read_code place count to) }
{
    Ok(read_code(alloc, place, count, to)?)
}

/// The words that read the longword at the address in `place` into `to`, extended with its sign. They are the same with the
/// byte-word extension.
pub fn extended_read_words(
    alloc: Global,
    place: u8,
    to: u8,
) -> Result<Vec<AlphaInstr>, WantOfMemory>
    requires place { IsArgument place }
    requires to { IsArgument to }
    // One load for each part, and the longword in the register, wherever the words stand.
    ensures reads { IfOk result (λ words. ReadsExtended place to words.items) }
    ensures short { IfOk result (λ words. length words.items ≤ most_read_words 4) }
    ensures encodable { IfOk result (λ words. All IsEncodable words.items) }
    ensures writes { IfOk result (λ words. list_all (writes_only (is_scratch_or to)) words.items ≡ true) }
    ensures words { IfOk result (λ words. words.items ≡ extended_read place to) }
{
    Ok(extended_read(alloc, place, to)?)
}

/// A word at an even address is loaded as a whole.
fn bw_word_read(alloc: Global, place: u8, to: u8) -> Result<Vec<AlphaInstr>, AllocError>
    ensures { IfOk result (λ words. words.items ≡ bw_word_read place to) }
{
    let mut words = vec![in alloc;
        branch(BranchOp::Blbs, place, 2),
        memory(MemoryOp::Ldwu, to, place, 0),
        branch(BranchOp::Br, ZERO, 9),
    ]?;
    words.extend_from_slice(&word_read(alloc, place, to)?)?;
    Ok(words)
}

fn bw_read_code(alloc: Global, place: u8, count: u8, to: u8) -> Result<Vec<AlphaInstr>, AllocError>
    requires { IsCount count }
    ensures { IfOk result (λ words. words.items ≡ bw_read_code place count to) }
{
    match count {
        1 => Ok(vec![in alloc; memory(MemoryOp::Ldbu, to, place, 0)]?),
        2 => bw_word_read(alloc, place, to),
        _ => read_code(alloc, place, count, to),
    }
}

/// The same with the byte-word extension: a byte is loaded by LDBU, a word at an even address by LDWU.
pub fn bw_read_words(
    alloc: Global,
    place: u8,
    count: u8,
    to: u8,
) -> Result<Vec<AlphaInstr>, WantOfMemory>
    requires place { IsArgument place }
    requires to { IsArgument to }
    requires count { IsCount count }
    // One load for each part, and the operand in the register, wherever the words stand.
    ensures reads { IfOk result (λ words. ReadsPlan bw_loaded_bytes place count to words.items) }
    ensures short { IfOk result (λ words. length words.items ≤ most_read_words count) }
    ensures encodable { IfOk result (λ words. All IsEncodable words.items) }
    ensures writes { IfOk result (λ words. list_all (writes_only (is_scratch_or to)) words.items ≡ true) }
    ensures words { IfOk result (λ words. words.items ≡ bw_read_code place count to) }
{
    Ok(bw_read_code(alloc, place, count, to)?)
}
