// The words of an interlocked change of a word or of a bit.
ghost use Rattle.std.specs.Prelude.{◌≡◌, ◌≢◌, ◌≤◌, length, All, IfOk, true};
ghost use Rattle.std.specs.List.{list_all};
ghost use Rattle.alpha_encode.specs.Words.{IsEncodable};
ghost use Rattle.byte_sequences.specs.Instructions.{IsArgument, is_scratch_or, writes_only};
ghost use Rattle.byte_sequences.specs.Words.{bit_changed, locked_loop, locked_code};
ghost use Rattle.byte_sequences.specs.Promises.{LockedPlan, most_locked_words};

use alpha_encode::registers::{BYTES, QUAD, QUAD_ADDRESS};
use alpha_encode::{
    AlphaInstr, BranchOp, MemoryOp, OperateOp, branch, memory, operate, operate_by,
};
use micro_ops::LockedOp;
use std::alloc::{AllocError, Global};
use vax_form::WantOfMemory;

fn word_words(alloc: Global, place: u8, from: u8, to: u8) -> Result<Vec<AlphaInstr>, AllocError>
    ensures { IfOk result (λ words. words.items ≡ locked_code LockedOp.AddWord place from to) }
{
    Ok(vec![in alloc;
        operate_by(OperateOp::Bic, place, 7, QUAD_ADDRESS),
        memory(MemoryOp::LdqL, QUAD, QUAD_ADDRESS, 0),
        operate(OperateOp::Extwl, QUAD, place, to),
        operate(OperateOp::Addq, to, from, BYTES),
        operate(OperateOp::Inswl, BYTES, place, BYTES),
        operate(OperateOp::Mskwl, QUAD, place, QUAD),
        operate(OperateOp::Bis, QUAD, BYTES, QUAD),
        memory(MemoryOp::StqC, QUAD, QUAD_ADDRESS, 0),
        branch(BranchOp::Beq, QUAD, -8),
    ]?)
}

/// BIS sets the bit, BIC clears it.
fn bit_words(
    alloc: Global,
    op: OperateOp,
    place: u8,
    from: u8,
    to: u8,
) -> Result<Vec<AlphaInstr>, AllocError>
    ensures { IfOk result (λ words. words.items ≡ locked_loop place (bit_changed op place from to)) }
{
    Ok(vec![in alloc;
        operate_by(OperateOp::Bic, place, 7, QUAD_ADDRESS),
        memory(MemoryOp::LdqL, QUAD, QUAD_ADDRESS, 0),
        operate(OperateOp::Extbl, QUAD, place, to),
        operate(OperateOp::Cmpeq, QUAD, QUAD, BYTES),
        operate(OperateOp::Sll, BYTES, from, BYTES),
        operate(op, to, BYTES, BYTES),
        operate(OperateOp::Insbl, BYTES, place, BYTES),
        operate(OperateOp::Mskbl, QUAD, place, QUAD),
        operate(OperateOp::Bis, QUAD, BYTES, QUAD),
        memory(MemoryOp::StqC, QUAD, QUAD_ADDRESS, 0),
        branch(BranchOp::Beq, QUAD, -10),
    ]?)
}

fn locked_code(
    alloc: Global,
    place: u8,
    kind: LockedOp,
    from: u8,
    to: u8,
) -> Result<Vec<AlphaInstr>, AllocError>
    ensures { IfOk result (λ words. words.items ≡ locked_code kind place from to) }
{
    match kind {
        LockedOp::AddWord => word_words(alloc, place, from, to),
        LockedOp::SetBit => bit_words(alloc, OperateOp::Bis, place, from, to),
        LockedOp::ClearBit => bit_words(alloc, OperateOp::Bic, place, from, to),
    }
}

/// The words of one interlocked change, by `from`, of the word or byte at the address in `place`.
/// What was there before goes into `to`.
pub fn locked_words(
    alloc: Global,
    place: u8,
    kind: LockedOp,
    from: u8,
    to: u8,
) -> Result<Vec<AlphaInstr>, WantOfMemory>
    requires place { IsArgument place }
    requires from { IsArgument from }
    requires to { IsArgument to }
    requires place_stays { place ≢ to }
    requires from_stays { from ≢ to }
    // One access that counts: a store conditional that found what its load-locked access found.
    ensures locks { IfOk result (λ words. LockedPlan kind place from to words.items) }
    ensures short { IfOk result (λ words. length words.items ≤ most_locked_words) }
    ensures encodable { IfOk result (λ words. All IsEncodable words.items) }
    ensures writes { IfOk result (λ words. list_all (writes_only (is_scratch_or to)) words.items ≡ true) }
    ensures words { IfOk result (λ words. words.items ≡ locked_code kind place from to) }
{
    Ok(locked_code(alloc, place, kind, from, to)?)
}
