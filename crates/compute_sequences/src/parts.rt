// Numbers of a size in quadwords.
ghost use Rattle.std.specs.Prelude.{◌≡◌, ◌≤◌, ◌++◌, OnOk};
ghost use Rattle.micro_ops.specs.Values.{bits_of};
ghost use Rattle.compute_sequences.specs.Words.{mask_of, narrow, raise, extend};

use alpha_encode::{AlphaInstr, OperateOp, operate_by};
use std::alloc::AllocError;
use vax_form::Size;

pub(crate) const QUAD_BITS: u8 = 64;

pub(crate) fn bits_of(size: Size) -> u8
    ensures value { result ≡ bits_of size }
    ensures most { result ≤ 64 }
{
    match size {
        Size::Byte => 8,
        Size::Word => 16,
        Size::Long => 32,
        Size::Quad => QUAD_BITS,
    }
}

/// ZAPNOT's mask: a bit for each byte.
pub(crate) fn mask_of(size: Size) -> u8
    ensures { result ≡ mask_of size }
{
    match size {
        Size::Byte => 0x01,
        Size::Word => 0x03,
        Size::Long => 0x0f,
        Size::Quad => 0xff,
    }
}

/// The low bytes, zero-extended.
pub(crate) fn narrow(size: Size, from: u8, to: u8) -> AlphaInstr
    ensures { result ≡ narrow size from to }
{
    operate_by(OperateOp::Zapnot, from, mask_of(size), to)
}

/// The low bytes as the highest ones, so that quadwords compare as they do.
pub(crate) fn raise(size: Size, from: u8, to: u8) -> AlphaInstr
    ensures { result ≡ raise size from to }
{
    operate_by(OperateOp::Sll, from, QUAD_BITS - bits_of(size), to)
}

/// The low bytes with their sign.
pub(crate) fn push_extended(
    words: &mut Vec<AlphaInstr>,
    size: Size,
    from: u8,
    to: u8,
) -> Result<(), AllocError>
    ensures { OnOk result (words.new.items ≡ words.old.items ++ extend size from to) }
{
    match size {
        Size::Byte | Size::Word => {
            let lowered = operate_by(OperateOp::Sra, to, QUAD_BITS - bits_of(size), to);
            words.extend_from_slice(&[raise(size, from, to), lowered])?;
        }
        Size::Long => words.push(operate_by(OperateOp::Addl, from, 0, to))?,
        Size::Quad => words.push(narrow(size, from, to))?,
    }
    Ok(())
}
