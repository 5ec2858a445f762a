// Rows of a few instructions of the operate format.
ghost use Rattle.std.specs.Prelude.{◌≡◌, ◌++◌, ◌-◌, ◌<◌, OnOk};
ghost use Rattle.micro_ops.specs.Values.{bits_of};
ghost use Rattle.compute_sequences.specs.Words.{raise};
ghost use Rattle.flag_codegen.specs.Words.{move, clear, sign, bit_words, less_words, unlike_words};

use alpha_encode::registers::{TEMPORARIES, ZERO};
use alpha_encode::{AlphaInstr, OperateOp, operate, operate_by};
use std::alloc::AllocError;
use vax_form::Size;

/// The first temporary of a micro program, and the next two: the operands of a rule, and the result.
pub(crate) const FIRST: u8 = TEMPORARIES;

pub(crate) const SECOND: u8 = TEMPORARIES + 1;

pub(crate) const RESULT: u8 = TEMPORARIES + 2;
/// The next two, which no rule needs.
const SCRATCH: u8 = TEMPORARIES + 3;

const OTHER_SCRATCH: u8 = TEMPORARIES + 4;

const QUAD_BITS: u8 = 64;

pub(crate) fn move_to(from: u8, to: u8) -> AlphaInstr
    ensures { result ≡ move from to }
{
    operate(OperateOp::Bis, ZERO, from, to)
}

pub(crate) fn clear(to: u8) -> AlphaInstr
    ensures { result ≡ clear to }
{
    move_to(ZERO, to)
}

// The bits of a size but for the highest.
fn bits_below_sign(size: Size) -> u8
    ensures value { result ≡ bits_of size - 1 }
    ensures most { result < 64 }
{
    match size {
        Size::Byte => 7,
        Size::Word => 15,
        Size::Long => 31,
        Size::Quad => 63,
    }
}

/// The sign of a zero-extended number.
pub(crate) fn sign(size: Size, from: u8, to: u8) -> AlphaInstr
    ensures { result ≡ sign size from to }
{
    operate_by(OperateOp::Srl, from, bits_below_sign(size), to)
}

// The low bytes as the highest ones, so that quadwords compare as they do.
fn raise(size: Size, from: u8, to: u8) -> AlphaInstr
    ensures { result ≡ raise size from to }
{
    operate_by(
        OperateOp::Sll,
        from,
        QUAD_BITS - 1 - bits_below_sign(size),
        to,
    )
}

/// A bit of the result.
pub(crate) fn push_bit(words: &mut Vec<AlphaInstr>, place: u8, to: u8) -> Result<(), AllocError>
    ensures { OnOk result (words.new.items ≡ words.old.items ++ bit_words place to) }
{
    words.extend_from_slice(&[
        operate_by(OperateOp::Srl, RESULT, place, to),
        operate_by(OperateOp::And, to, 1, to),
    ])
}

/// Whether one number is less than another, with their signs.
pub(crate) fn push_less(
    words: &mut Vec<AlphaInstr>,
    size: Size,
    a: u8,
    b: u8,
    to: u8,
) -> Result<(), AllocError>
    ensures { OnOk result (words.new.items ≡ words.old.items ++ less_words size a b to) }
{
    words.extend_from_slice(&[
        raise(size, a, SCRATCH),
        raise(size, b, OTHER_SCRATCH),
        operate(OperateOp::Cmplt, SCRATCH, OTHER_SCRATCH, to),
    ])
}

/// Whether one number is less than another and a third isn't negative, or the other way round.
pub(crate) fn push_unlike(
    words: &mut Vec<AlphaInstr>,
    size: Size,
    a: u8,
    b: u8,
    negative: u8,
    to: u8,
) -> Result<(), AllocError>
    ensures { OnOk result (words.new.items ≡ words.old.items ++ unlike_words size a b negative to) }
{
    push_less(words, size, a, b, SCRATCH)?;
    words.extend_from_slice(&[
        sign(size, negative, OTHER_SCRATCH),
        operate(OperateOp::Xor, SCRATCH, OTHER_SCRATCH, to),
    ])
}
