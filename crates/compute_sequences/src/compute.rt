// Computations: the words of the arguments that have some, and then those of the operation.
ghost use Rattle.std.specs.Prelude.{◌≡◌, ◌≤◌, ◌++◌, length, All, IfOk, OnOk, true, false};
ghost use Rattle.std.specs.List.{list_all};
ghost use Rattle.alpha_encode.specs.Words.{IsEncodable};
ghost use Rattle.micro_ops.specs.Uses.{is_unary, is_select};
ghost use Rattle.micro_ops.specs.WordCounts.{words_of};
ghost use Rattle.compute_sequences.specs.Registers.{IsTarget, IsArgument, may_change};
ghost use Rattle.compute_sequences.specs.Words.{chosen, select_code, binary_code, behind_first, register_code, compute_code};
ghost use Rattle.compute_sequences.specs.Promises.{LeavesComputed, changes_only};

use crate::arguments::{
    SCRATCH, first_register, free_of, is_loaded, load_words, other_of, push_load, register_at,
    second_register, second_target,
};
use crate::constants::{load_short, low_long};
use crate::forms::{
    Registers, push_compared, push_high_product, push_left_shift, push_lowered, push_right_shift,
    push_signed_shift,
};
use crate::literals::{
    begins_with_zero, cleared, displacement, literal, moved_constant, push_displaced,
    push_literal_form, push_low_cleared, push_zero_form,
};
use crate::parts::{narrow, push_extended};
use alpha_encode::{AlphaInstr, BranchOp, OperateOp, operate};
use micro_ops::{Arg, Micro, MicroOp};
use std::alloc::{AllocError, Global};
use vax_form::{Size, WantOfMemory};

/// The words of an operation on two numbers in registers.
fn push_binary(
    words: &mut Vec<AlphaInstr>,
    op: MicroOp,
    size: Size,
    x: u8,
    y: u8,
    to: u8,
) -> Result<(), AllocError>
    ensures { OnOk result (words.new.items ≡ words.old.items ++ binary_code op size x y to) }
{
    let at = Registers {
        x,
        y,
        free: free_of(y, to),
        other: other_of(y, to),
        to,
    };
    match op {
        MicroOp::Add => push_lowered(words, OperateOp::Addq, size, at),
        MicroOp::Sub => push_lowered(words, OperateOp::Subq, size, at),
        MicroOp::Mul => push_lowered(words, OperateOp::Mulq, size, at),
        MicroOp::And => push_lowered(words, OperateOp::And, size, at),
        MicroOp::Or => push_lowered(words, OperateOp::Bis, size, at),
        MicroOp::Xor => push_lowered(words, OperateOp::Xor, size, at),
        MicroOp::AndNot => push_lowered(words, OperateOp::Bic, size, at),
        MicroOp::ShiftLeft => push_left_shift(words, size, at),
        MicroOp::ShiftRight => push_right_shift(words, size, at),
        MicroOp::ShiftSigned => push_signed_shift(words, size, at),
        MicroOp::Equal => push_compared(words, OperateOp::Cmpeq, size, at),
        MicroOp::Less => push_compared(words, OperateOp::Cmplt, size, at),
        MicroOp::LessUnsigned => push_compared(words, OperateOp::Cmpult, size, at),
        MicroOp::MulHigh => push_high_product(words, size, at),
        MicroOp::Move | MicroOp::SignExtend | MicroOp::ZeroExtend | MicroOp::SelectNonzero => {
            Ok(())
        }
    }
}

/// `to` becomes the second argument where `x` is not 0. Its words, if it has some, are passed over where `x` is.
fn push_chosen(
    words: &mut Vec<AlphaInstr>,
    size: Size,
    x: u8,
    b: Arg,
    to: u8,
) -> Result<(), AllocError>
    requires { IsArgument b }
    ensures { OnOk result (words.new.items ≡ words.old.items ++ chosen size x b to) }
{
    if is_loaded(size, b) {
        let branch = AlphaInstr::Branch {
            op: BranchOp::Beq,
            ra: x,
            disp: i32::from(load_words(size, b)),
        };
        words.push(branch)?;
        push_load(words, size, b, to)
    } else {
        words.push(operate(OperateOp::Cmovne, x, register_at(b), to))?;
        Ok(())
    }
}

fn push_select(
    words: &mut Vec<AlphaInstr>,
    size: Size,
    x: u8,
    b: Arg,
    to: u8,
) -> Result<(), AllocError>
    requires { IsArgument b }
    ensures { OnOk result (words.new.items ≡ words.old.items ++ select_code size x b to) }
{
    match size {
        Size::Quad => push_chosen(words, size, x, b, to),
        _ => {
            words.push(narrow(size, x, SCRATCH))?;
            push_chosen(words, size, SCRATCH, b, to)?;
            words.push(narrow(size, to, to))?;
            Ok(())
        }
    }
}

/// The words behind those of the first argument.
fn push_behind_first(
    words: &mut Vec<AlphaInstr>,
    op: MicroOp,
    size: Size,
    a: Arg,
    b: Arg,
    to: u8,
) -> Result<(), AllocError>
    requires a { IsArgument a }
    requires b { is_unary op ≡ false → IsArgument b }
    ensures { OnOk result (words.new.items ≡ words.old.items ++ behind_first op size a b to) }
{
    let x = first_register(size, a);
    match op {
        MicroOp::Move | MicroOp::ZeroExtend => {
            words.push(narrow(size, x, to))?;
            Ok(())
        }
        MicroOp::SignExtend => push_extended(words, size, x, to),
        MicroOp::SelectNonzero => push_select(words, size, x, b, to),
        _ => {
            push_load(words, size, b, second_target(size, a, to))?;
            push_binary(words, op, size, x, second_register(size, a, b, to), to)
        }
    }
}

fn push_register_code(
    words: &mut Vec<AlphaInstr>,
    op: MicroOp,
    size: Size,
    a: Arg,
    b: Arg,
    to: u8,
) -> Result<(), AllocError>
    requires a { IsArgument a }
    requires b { is_unary op ≡ false → IsArgument b }
    ensures { OnOk result (words.new.items ≡ words.old.items ++ register_code op size a b to) }
{
    push_load(words, size, a, SCRATCH)?;
    push_behind_first(words, op, size, a, b, to)
}

fn compute_code(
    alloc: Global,
    op: MicroOp,
    size: Size,
    a: Arg,
    b: Arg,
    to: u8,
) -> Result<Vec<AlphaInstr>, AllocError>
    requires a { IsArgument a }
    requires b { is_unary op ≡ false → IsArgument b }
    ensures { IfOk result (λ words. words.items ≡ compute_code op size a b to) }
{
    let mut words = Vec::new(alloc);
    if let Some(value) = moved_constant(op, size, a) {
        words.push(load_short(to, low_long(value)))?;
    } else if let Some(value) = displacement(op, size, b) {
        push_load(&mut words, size, a, SCRATCH)?;
        push_displaced(&mut words, size, first_register(size, a), value, to)?;
    } else if let Some(value) = cleared(op, b) {
        push_load(&mut words, size, a, SCRATCH)?;
        push_low_cleared(&mut words, size, first_register(size, a), value, to)?;
    } else if let Some(literal) = literal(op, size, b) {
        push_load(&mut words, size, a, SCRATCH)?;
        push_literal_form(&mut words, op, size, first_register(size, a), literal, to)?;
    } else if begins_with_zero(op, a) {
        push_load(&mut words, size, b, SCRATCH)?;
        push_zero_form(&mut words, op, size, first_register(size, b), to)?;
    } else {
        push_register_code(&mut words, op, size, a, b, to)?;
    }
    Ok(words)
}

/// The words of a computation into a register, by the registers of a block: R21 to R26 hold the temporaries 0 to 5, R0 to
/// R14 the registers, R16 to R19 the codes and R20 the other flags. They make no access, and of an operation with one
/// argument `b` is nothing.
pub fn compute_words(
    alloc: Global,
    op: MicroOp,
    size: Size,
    a: Arg,
    b: Arg,
    to: u8,
) -> Result<Vec<AlphaInstr>, WantOfMemory>
    requires a { IsArgument a }
    requires b { is_unary op ≡ false → IsArgument b }
    requires to { IsTarget to }
    // Wherever the words stand.
    ensures leaves { IfOk result (λ words. LeavesComputed op size a b to words.items) }
    ensures short { IfOk result (λ words. length words.items ≤ words_of (Micro.Compute to op size a b)) }
    ensures encodable { IfOk result (λ words. All IsEncodable words.items) }
    ensures writes { IfOk result (λ words. list_all (changes_only (may_change to)) words.items ≡ true) }
    ensures words { IfOk result (λ words. words.items ≡ compute_code op size a b to) }
{
    Ok(compute_code(alloc, op, size, a, b, to)?)
}
