// V of a sum and of a difference: the true result is made from the operands with their signs, as a quadword.
ghost use Rattle.std.specs.Prelude.{◌≡◌, ◌≢◌, ◌≤◌, ◌<◌, ◌++◌, length, All, IfOk, OnOk, true};
ghost use Rattle.std.specs.List.{list_all};
ghost use Rattle.alpha_encode.specs.Registers.{ADDRESS};
ghost use Rattle.alpha_encode.specs.Words.{IsEncodable};
ghost use Rattle.compute_sequences.specs.Registers.{IsTarget, may_change};
ghost use Rattle.compute_sequences.specs.Promises.{changes_only};
ghost use Rattle.compute_sequences.specs.Overflow.{quad_operation, overflow_code, LeavesOverflow, most_overflow_words};

use crate::arguments::SCRATCH;
use crate::parts::push_extended;
use alpha_encode::{AlphaInstr, OperateOp, operate, operate_by};
use std::alloc::{AllocError, Global};
use vax_form::{WantOfMemory, Width};

/// What may overflow.
#[derive(Clone, Copy, Debug, PartialEq, Eq)]
pub enum Arithmetic {
    Sum,
    /// The first operand minus the second.
    Difference,
}

fn quad_operation(arithmetic: Arithmetic) -> OperateOp
    ensures { result ≡ quad_operation arithmetic }
{
    match arithmetic {
        Arithmetic::Sum => OperateOp::Addq,
        Arithmetic::Difference => OperateOp::Subq,
    }
}

fn overflow_code(
    alloc: Global,
    arithmetic: Arithmetic,
    width: Width,
    x: u8,
    y: u8,
    to: u8,
) -> Result<Vec<AlphaInstr>, AllocError>
    ensures { IfOk result (λ words. words.items ≡ overflow_code arithmetic width x y to) }
{
    let size = width.size();
    let mut words = Vec::new(alloc);
    push_extended(&mut words, size, x, SCRATCH)?;
    push_extended(&mut words, size, y, to)?;
    words.push(operate(quad_operation(arithmetic), SCRATCH, to, to))?;
    push_extended(&mut words, size, to, SCRATCH)?;
    words.extend_from_slice(&[
        operate(OperateOp::Cmpeq, SCRATCH, to, to),
        operate_by(OperateOp::Xor, to, 1, to),
    ])?;
    Ok(words)
}

/// The words that put V of a sum, or of a difference, of the low bytes of two registers into a third, as 0 or 1. The
/// second operand may stand in the register of the result.
pub fn overflow_words(
    alloc: Global,
    arithmetic: Arithmetic,
    width: Width,
    x: u8,
    y: u8,
    to: u8,
) -> Result<Vec<AlphaInstr>, WantOfMemory>
    requires x { x < 32 }
    requires y { y < 32 }
    requires y_stays { y ≢ ADDRESS }
    requires to { IsTarget to }
    // Wherever the words stand.
    ensures leaves { IfOk result (λ words. LeavesOverflow arithmetic width x y to words.items) }
    ensures short { IfOk result (λ words. length words.items ≤ most_overflow_words width) }
    ensures encodable { IfOk result (λ words. All IsEncodable words.items) }
    ensures writes { IfOk result (λ words. list_all (changes_only (may_change to)) words.items ≡ true) }
    ensures words { IfOk result (λ words. words.items ≡ overflow_code arithmetic width x y to) }
{
    Ok(overflow_code(alloc, arithmetic, width, x, y, to)?)
}
