// Computations whose instruction has a constant in itself.
ghost use Rattle.std.specs.Prelude.{◌≡◌, ◌<◌, ◌++◌, ◌&&◌, OnOk, MatchOption, true, false};
ghost use Rattle.micro_ops.specs.Uses.{is_unary};
ghost use Rattle.compute_sequences.specs.Words.{is_constant, is_zero, constant_of, is_short, is_displacement, takes_literal, takes_zero, is_moved, is_sum, lowered_one, unsigned_by, signed_by, by_literal, is_clearing, is_low_bytes, kept_mask, low_cleared, displaced, literal_form, zero_form};

use crate::constants::add_short;
use crate::parts::{bits_of, mask_of, narrow, push_extended};
use alpha_encode::registers::ZERO;
use alpha_encode::{AlphaInstr, OperateOp, operate, operate_by};
use micro_ops::{Arg, MicroOp};
use std::alloc::AllocError;
use vax_form::Size;

/// A literal is below.
const LITERALS: u64 = 1 << 8;

/// A literal below has a positive sign at every size.
const POSITIVE: u64 = 1 << 7;

/// A number that LDA leaves as it is, is below.
const SHORT: u64 = 1 << 15;

/// As many numbers are a displacement of LDA.
const DISPLACEMENTS: u128 = 1 << 16;

fn is_moved(op: MicroOp) -> bool
    ensures { result ≡ is_moved op }
{
    matches!(op, MicroOp::Move | MicroOp::ZeroExtend)
}

/// Whether one LDA leaves the value as it is, and the size has it.
fn is_short(size: Size, value: u64) -> bool
    ensures { result ≡ is_short size value }
{
    match size {
        Size::Byte => value < 1 << 8 && value < SHORT,
        Size::Word | Size::Long | Size::Quad => value < SHORT,
    }
}

/// The value that an operation moves, where one LDA leaves it.
pub(crate) fn moved_constant(op: MicroOp, size: Size, a: Arg) -> Option<u64>
    ensures { MatchOption result ((is_moved op && is_constant (is_short size) a) ≡ false) (λ value. ((is_moved op && is_constant (is_short size) a) ≡ true) × (value ≡ constant_of a)) }
{
    match a {
        Arg::Const(value) if is_moved(op) && is_short(size, value) => Some(value),
        Arg::Const(_) | Arg::Temp(_) | Arg::Register(_) | Arg::Flag(_) => None,
    }
}

/// Whether a signed displacement of 16 bits has the low bytes of a value.
fn is_displacement(size: Size, value: u64) -> bool
    ensures { result ≡ is_displacement size value }
{
    let above = u128::from(value) + u128::from(SHORT);
    match size {
        Size::Byte | Size::Word => true,
        Size::Long => above % (1 << 32) < DISPLACEMENTS,
        Size::Quad => above % (1 << 64) < DISPLACEMENTS,
    }
}

/// The constant that a sum has as a displacement.
pub(crate) fn displacement(op: MicroOp, size: Size, b: Arg) -> Option<u64>
    ensures { MatchOption result ((is_sum op && is_constant (is_displacement size) b) ≡ false) (λ value. ((is_sum op && is_constant (is_displacement size) b) ≡ true) × (value ≡ constant_of b)) }
{
    match (op, b) {
        (MicroOp::Add, Arg::Const(value)) if is_displacement(size, value) => Some(value),
        _ => None,
    }
}

/// The low byte or the low word.
fn is_low_bytes(value: u64) -> bool
    ensures { result ≡ is_low_bytes value }
{
    value == 0xff || value == 0xffff
}

/// The low bytes that an operation clears.
pub(crate) fn cleared(op: MicroOp, b: Arg) -> Option<u64>
    ensures { MatchOption result ((is_clearing op && is_constant is_low_bytes b) ≡ false) (λ value. ((is_clearing op && is_constant is_low_bytes b) ≡ true) × (value ≡ constant_of b)) }
{
    match (op, b) {
        (MicroOp::AndNot, Arg::Const(value)) if is_low_bytes(value) => Some(value),
        _ => None,
    }
}

/// The bytes that are kept where the low ones are cleared, as ZAPNOT's mask.
fn kept_mask(size: Size, value: u64) -> u8
    ensures { result ≡ kept_mask size value }
{
    mask_of(size).saturating_sub(if value == 0xff { 0x01 } else { 0x03 })
}

/// The number with its low bytes cleared.
pub(crate) fn push_low_cleared(
    words: &mut Vec<AlphaInstr>,
    size: Size,
    x: u8,
    value: u64,
    to: u8,
) -> Result<(), AllocError>
    ensures { OnOk result (words.new.items ≡ words.old.items ++ low_cleared size x value to) }
{
    words.push(operate_by(OperateOp::Zapnot, x, kept_mask(size, value), to))?;
    Ok(())
}

/// Whether the instruction of an operation can have the value as its literal.
fn takes_literal(op: MicroOp, size: Size, value: u64) -> bool
    ensures takes { result ≡ takes_literal op size value }
    ensures small { result ≡ true → value < 256 }
{
    match op {
        MicroOp::Sub
        | MicroOp::Mul
        | MicroOp::And
        | MicroOp::Or
        | MicroOp::Xor
        | MicroOp::AndNot
        | MicroOp::Equal
        | MicroOp::LessUnsigned => value < LITERALS,
        MicroOp::Less => value < POSITIVE,
        MicroOp::ShiftLeft | MicroOp::ShiftRight | MicroOp::ShiftSigned => {
            value < u64::from(bits_of(size))
        }
        MicroOp::Move
        | MicroOp::Add
        | MicroOp::SignExtend
        | MicroOp::ZeroExtend
        | MicroOp::SelectNonzero
        | MicroOp::MulHigh => false,
    }
}

/// The second argument, where it is the literal of the operation's instruction.
pub(crate) fn literal(op: MicroOp, size: Size, b: Arg) -> Option<u8>
    ensures { MatchOption result (is_constant (takes_literal op size) b ≡ false) (λ literal. (is_constant (takes_literal op size) b ≡ true) × (literal ≡ constant_of b)) }
{
    match b {
        Arg::Const(value) if takes_literal(op, size, value) => Some(value as u8),
        Arg::Const(_) | Arg::Temp(_) | Arg::Register(_) | Arg::Flag(_) => None,
    }
}

fn takes_zero(op: MicroOp) -> bool
    ensures takes { result ≡ takes_zero op }
    ensures two { result ≡ true → is_unary op ≡ false }
{
    matches!(op, MicroOp::Sub | MicroOp::Less | MicroOp::LessUnsigned)
}

/// Whether the first argument is 0, and R31 stands for it.
pub(crate) fn begins_with_zero(op: MicroOp, a: Arg) -> bool
    ensures begins { result ≡ (takes_zero op && is_constant is_zero a) }
    ensures two { result ≡ true → is_unary op ≡ false }
{
    match a {
        Arg::Const(value) => takes_zero(op) && value == 0,
        Arg::Temp(_) | Arg::Register(_) | Arg::Flag(_) => false,
    }
}

/// One instruction, of whose result the low bytes are kept.
fn push_lowered_one(
    words: &mut Vec<AlphaInstr>,
    size: Size,
    instr: AlphaInstr,
    to: u8,
) -> Result<(), AllocError>
    ensures { OnOk result (words.new.items ≡ words.old.items ++ lowered_one size instr to) }
{
    match size {
        Size::Quad => words.push(instr)?,
        _ => words.extend_from_slice(&[instr, narrow(size, to, to)])?,
    }
    Ok(())
}

/// The sum with a displacement.
pub(crate) fn push_displaced(
    words: &mut Vec<AlphaInstr>,
    size: Size,
    x: u8,
    value: u64,
    to: u8,
) -> Result<(), AllocError>
    ensures { OnOk result (words.new.items ≡ words.old.items ++ displaced size x value to) }
{
    push_lowered_one(words, size, add_short(to, x, value), to)
}

fn push_by_literal(
    words: &mut Vec<AlphaInstr>,
    op: OperateOp,
    size: Size,
    x: u8,
    literal: u8,
    to: u8,
) -> Result<(), AllocError>
    ensures { OnOk result (words.new.items ≡ words.old.items ++ by_literal op size x literal to) }
{
    push_lowered_one(words, size, operate_by(op, x, literal, to), to)
}

/// An operation on the zero-extended number.
fn push_unsigned_by(
    words: &mut Vec<AlphaInstr>,
    op: OperateOp,
    size: Size,
    x: u8,
    literal: u8,
    to: u8,
) -> Result<(), AllocError>
    ensures { OnOk result (words.new.items ≡ words.old.items ++ unsigned_by op size x literal to) }
{
    match size {
        Size::Quad => words.push(operate_by(op, x, literal, to))?,
        _ => words.extend_from_slice(&[narrow(size, x, to), operate_by(op, to, literal, to)])?,
    }
    Ok(())
}

/// An operation on the number with its sign.
fn push_signed_by(
    words: &mut Vec<AlphaInstr>,
    op: OperateOp,
    size: Size,
    x: u8,
    literal: u8,
    to: u8,
) -> Result<(), AllocError>
    ensures { OnOk result (words.new.items ≡ words.old.items ++ signed_by op size x literal to) }
{
    match size {
        Size::Quad => words.push(operate_by(op, x, literal, to))?,
        _ => {
            push_extended(words, size, x, to)?;
            words.push(operate_by(op, to, literal, to))?;
        }
    }
    Ok(())
}

/// The words of an operation by a literal.
pub(crate) fn push_literal_form(
    words: &mut Vec<AlphaInstr>,
    op: MicroOp,
    size: Size,
    x: u8,
    literal: u8,
    to: u8,
) -> Result<(), AllocError>
    ensures { OnOk result (words.new.items ≡ words.old.items ++ literal_form op size x literal to) }
{
    match op {
        MicroOp::Sub => push_by_literal(words, OperateOp::Subq, size, x, literal, to),
        MicroOp::Mul => push_by_literal(words, OperateOp::Mulq, size, x, literal, to),
        MicroOp::And => {
            words.push(operate_by(OperateOp::And, x, literal, to))?;
            Ok(())
        }
        MicroOp::Or => push_by_literal(words, OperateOp::Bis, size, x, literal, to),
        MicroOp::Xor => push_by_literal(words, OperateOp::Xor, size, x, literal, to),
        MicroOp::AndNot => push_by_literal(words, OperateOp::Bic, size, x, literal, to),
        MicroOp::ShiftLeft => push_by_literal(words, OperateOp::Sll, size, x, literal, to),
        MicroOp::ShiftRight => push_unsigned_by(words, OperateOp::Srl, size, x, literal, to),
        MicroOp::ShiftSigned => {
            push_signed_by(words, OperateOp::Sra, size, x, literal, to)?;
            words.push(narrow(size, to, to))?;
            Ok(())
        }
        MicroOp::Equal => push_unsigned_by(words, OperateOp::Cmpeq, size, x, literal, to),
        MicroOp::Less => push_signed_by(words, OperateOp::Cmplt, size, x, literal, to),
        MicroOp::LessUnsigned => push_unsigned_by(words, OperateOp::Cmpult, size, x, literal, to),
        MicroOp::Move
        | MicroOp::Add
        | MicroOp::SignExtend
        | MicroOp::ZeroExtend
        | MicroOp::SelectNonzero
        | MicroOp::MulHigh => Ok(()),
    }
}

/// The words of an operation on 0 and a number.
pub(crate) fn push_zero_form(
    words: &mut Vec<AlphaInstr>,
    op: MicroOp,
    size: Size,
    y: u8,
    to: u8,
) -> Result<(), AllocError>
    ensures { OnOk result (words.new.items ≡ words.old.items ++ zero_form op size y to) }
{
    match op {
        MicroOp::Less => {
            push_extended(words, size, y, to)?;
            words.push(operate(OperateOp::Cmplt, ZERO, to, to))?;
        }
        MicroOp::LessUnsigned => words.extend_from_slice(&[
            narrow(size, y, to),
            operate(OperateOp::Cmpult, ZERO, to, to),
        ])?,
        _ => push_lowered_one(words, size, operate(OperateOp::Subq, ZERO, y, to), to)?,
    }
    Ok(())
}
