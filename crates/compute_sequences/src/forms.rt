// The forms that operations on two numbers of a size have. Registers: `x` and `y` hold the numbers, `free` is scratch from
// the beginning, `other` once `y` is used, and `to` gets the result.
ghost use Rattle.std.specs.Prelude.{◌≡◌, ◌++◌, OnOk};
ghost use Rattle.compute_sequences.specs.Words.{lowered, compared, counted, within_size, left_shift, right_shift, signed_start, signed_rest, signed_shift, high_product};

use crate::parts::{QUAD_BITS, bits_of, narrow, push_extended, raise};
use alpha_encode::{AlphaInstr, OperateOp, operate, operate_by};
use std::alloc::AllocError;
use vax_form::Size;

/// The registers of an operation.
#[derive(Clone, Copy)]
pub(crate) struct Registers {
    pub(crate) x: u8,
    pub(crate) y: u8,
    pub(crate) free: u8,
    pub(crate) other: u8,
    pub(crate) to: u8,
}

/// One instruction whose low bytes are those of the result.
pub(crate) fn push_lowered(
    words: &mut Vec<AlphaInstr>,
    op: OperateOp,
    size: Size,
    at: Registers,
) -> Result<(), AllocError>
    ensures { OnOk result (words.new.items ≡ words.old.items ++ lowered op size at.x at.y at.to) }
{
    let result = operate(op, at.x, at.y, at.to);
    match size {
        Size::Quad => words.push(result)?,
        _ => words.extend_from_slice(&[result, narrow(size, at.to, at.to)])?,
    }
    Ok(())
}

/// 1 where the comparison holds, else 0.
pub(crate) fn push_compared(
    words: &mut Vec<AlphaInstr>,
    op: OperateOp,
    size: Size,
    at: Registers,
) -> Result<(), AllocError>
    ensures { OnOk result (words.new.items ≡ words.old.items ++ compared op size at.x at.y at.free at.other at.to) }
{
    match size {
        Size::Quad => words.push(operate(op, at.x, at.y, at.to))?,
        _ => words.extend_from_slice(&[
            raise(size, at.x, at.free),
            raise(size, at.y, at.other),
            operate(op, at.free, at.other, at.to),
        ])?,
    }
    Ok(())
}

/// `other` becomes 1 where the count is below the bound, else 0.
fn push_counted(
    words: &mut Vec<AlphaInstr>,
    size: Size,
    bound: u8,
    y: u8,
    other: u8,
) -> Result<(), AllocError>
    ensures { OnOk result (words.new.items ≡ words.old.items ++ counted size bound y other) }
{
    match size {
        Size::Quad => words.push(operate_by(OperateOp::Cmpult, y, bound, other))?,
        _ => words.extend_from_slice(&[
            narrow(size, y, other),
            operate_by(OperateOp::Cmpult, other, bound, other),
        ])?,
    }
    Ok(())
}

/// A shift counts modulo 64, so nothing is left where the count is not below the size's bits.
fn push_within_size(
    words: &mut Vec<AlphaInstr>,
    size: Size,
    at: Registers,
) -> Result<(), AllocError>
    ensures { OnOk result (words.new.items ≡ words.old.items ++ within_size size at.y at.free at.other at.to) }
{
    push_counted(words, size, bits_of(size), at.y, at.other)?;
    words.extend_from_slice(&[
        operate_by(OperateOp::Cmoveq, at.other, 0, at.free),
        narrow(size, at.free, at.to),
    ])?;
    Ok(())
}

pub(crate) fn push_left_shift(
    words: &mut Vec<AlphaInstr>,
    size: Size,
    at: Registers,
) -> Result<(), AllocError>
    ensures { OnOk result (words.new.items ≡ words.old.items ++ left_shift size at.x at.y at.free at.other at.to) }
{
    words.push(operate(OperateOp::Sll, at.x, at.y, at.free))?;
    push_within_size(words, size, at)
}

pub(crate) fn push_right_shift(
    words: &mut Vec<AlphaInstr>,
    size: Size,
    at: Registers,
) -> Result<(), AllocError>
    ensures { OnOk result (words.new.items ≡ words.old.items ++ right_shift size at.x at.y at.free at.other at.to) }
{
    match size {
        Size::Quad => words.push(operate(OperateOp::Srl, at.x, at.y, at.free))?,
        _ => words.extend_from_slice(&[
            narrow(size, at.x, at.free),
            operate(OperateOp::Srl, at.free, at.y, at.free),
        ])?,
    }
    push_within_size(words, size, at)
}

/// The shift by the count modulo 64.
fn push_signed_start(
    words: &mut Vec<AlphaInstr>,
    size: Size,
    at: Registers,
) -> Result<(), AllocError>
    ensures { OnOk result (words.new.items ≡ words.old.items ++ signed_start size at.x at.y at.free) }
{
    match size {
        Size::Quad => words.push(operate(OperateOp::Sra, at.x, at.y, at.free))?,
        _ => {
            push_extended(words, size, at.x, at.free)?;
            words.push(operate(OperateOp::Sra, at.free, at.y, at.free))?;
        }
    }
    Ok(())
}

/// By 63 bits more where the count is not below 64, which leaves the sign.
fn push_signed_rest(
    words: &mut Vec<AlphaInstr>,
    size: Size,
    at: Registers,
) -> Result<(), AllocError>
    ensures { OnOk result (words.new.items ≡ words.old.items ++ (counted size 64 at.y at.other ++ signed_rest size at.free at.other at.to)) }
{
    push_counted(words, size, QUAD_BITS, at.y, at.other)?;
    words.extend_from_slice(&[
        operate_by(OperateOp::Subq, at.other, 1, at.other),
        operate(OperateOp::Sra, at.free, at.other, at.free),
        narrow(size, at.free, at.to),
    ])?;
    Ok(())
}

pub(crate) fn push_signed_shift(
    words: &mut Vec<AlphaInstr>,
    size: Size,
    at: Registers,
) -> Result<(), AllocError>
    ensures { OnOk result (words.new.items ≡ words.old.items ++ signed_shift size at.x at.y at.free at.other at.to) }
{
    push_signed_start(words, size, at)?;
    push_signed_rest(words, size, at)
}

/// The product of two numbers of a size below a quadword is a quadword.
pub(crate) fn push_high_product(
    words: &mut Vec<AlphaInstr>,
    size: Size,
    at: Registers,
) -> Result<(), AllocError>
    ensures { OnOk result (words.new.items ≡ words.old.items ++ high_product size at.x at.y at.free at.other at.to) }
{
    match size {
        Size::Quad => words.push(operate(OperateOp::Umulh, at.x, at.y, at.to))?,
        _ => words.extend_from_slice(&[
            narrow(size, at.x, at.free),
            narrow(size, at.y, at.other),
            operate(OperateOp::Mulq, at.free, at.other, at.to),
            operate_by(OperateOp::Srl, at.to, bits_of(size), at.to),
        ])?,
    }
    Ok(())
}
