// Constants in registers: one word for 16 bits, two for a longword, five for a quadword.
ghost use Rattle.std.specs.Prelude.{◌≡◌, ◌≤◌, ◌++◌, ℕ, ℤ, length, All, IfOk, OnOk, true};
ghost use Rattle.std.specs.List.{list_all};
ghost use Rattle.alpha_encode.specs.Words.{IsEncodable};
ghost use Rattle.micro_ops.specs.WordCounts.{argument_words};
ghost use Rattle.compute_sequences.specs.Registers.{IsTarget, may_change};
ghost use Rattle.compute_sequences.specs.Constants.{low_long, high_long, load_short, add_high, least_size, constant_code};
ghost use Rattle.compute_sequences.specs.Words.{add_short};
ghost use Rattle.compute_sequences.specs.Promises.{LeavesConstant, changes_only};

use alpha_encode::registers::ZERO;
use alpha_encode::{
    AlphaInstr, MemoryOp, OperateOp, load_high, load_longword, load_low, operate_by,
};
use micro_ops::Arg;
use std::alloc::{AllocError, Global};
use vax_form::{Size, WantOfMemory};

pub(crate) fn low_long(value: u64) -> u32
    ensures { result ≡ low_long value }
{
    (value % (1 << 32)) as u32
}

/// The two halves below are negative together from 7FFF8000 on.
fn high_long(value: u64) -> u32
    ensures { result ≡ high_long value }
{
    ((u128::from(value) + 0x8000_8000) / (1 << 32) % (1 << 32)) as u32
}

/// The same displacement from another register.
fn based_on(instr: AlphaInstr, base: u8) -> AlphaInstr
    ensures { (op : MemoryOp) (ra rb : ℕ) (disp : ℤ) → instr ≡ AlphaInstr.Memory op ra rb disp → result ≡ AlphaInstr.Memory op ra base disp }
{
    match instr {
        AlphaInstr::Memory { op, ra, disp, .. } => AlphaInstr::Memory {
            op,
            ra,
            rb: base,
            disp,
        },
        other => other,
    }
}

pub(crate) fn load_short(to: u8, value: u32) -> AlphaInstr
    ensures { result ≡ load_short to value }
{
    based_on(load_low(to, value), ZERO)
}

fn add_high(to: u8, value: u32) -> AlphaInstr
    ensures { result ≡ add_high to value }
{
    based_on(load_high(to, value), to)
}

/// The low 16 bits of a value, with their sign, are added to a register.
pub(crate) fn add_short(to: u8, x: u8, value: u64) -> AlphaInstr
    ensures { result ≡ add_short to x value }
{
    based_on(load_low(to, low_long(value)), x)
}

/// A number below 2^15 is one displacement, whatever the size.
fn least_size(value: u64, size: Size) -> Size
    ensures { result ≡ least_size value size }
{
    if value < 1 << 15 { Size::Word } else { size }
}

/// The words behind which a register has the low bytes of a value.
pub(crate) fn push_constant(
    words: &mut Vec<AlphaInstr>,
    value: u64,
    size: Size,
    to: u8,
) -> Result<(), AllocError>
    ensures { OnOk result (words.new.items ≡ words.old.items ++ constant_code value size to) }
{
    let (high, low) = (high_long(value), low_long(value));
    match least_size(value, size) {
        Size::Byte | Size::Word => words.push(load_short(to, low))?,
        Size::Long => words.extend_from_slice(&load_longword(to, low))?,
        Size::Quad => words.extend_from_slice(&[
            load_high(to, high),
            load_low(to, high),
            operate_by(OperateOp::Sll, to, 32, to),
            add_high(to, low),
            load_low(to, low),
        ])?,
    }
    Ok(())
}

/// How many words that are.
pub(crate) fn constant_length(value: u64, size: Size) -> u8
    ensures { (to : ℕ) → result ≡ length (constant_code value size to) }
{
    match least_size(value, size) {
        Size::Byte | Size::Word => 1,
        Size::Long => 2,
        Size::Quad => 5,
    }
}

fn constant_code(
    alloc: Global,
    value: u64,
    size: Size,
    to: u8,
) -> Result<Vec<AlphaInstr>, AllocError>
    ensures { IfOk result (λ words. words.items ≡ constant_code value size to) }
{
    let mut words = Vec::new(alloc);
    push_constant(&mut words, value, size, to)?;
    Ok(words)
}

/// The words that put a number with the low bytes of a value into a register, the value itself where the size is a
/// quadword.
pub fn constant_words(
    alloc: Global,
    value: u64,
    size: Size,
    to: u8,
) -> Result<Vec<AlphaInstr>, WantOfMemory>
    requires { IsTarget to }
    // Wherever the words stand.
    ensures leaves { IfOk result (λ words. LeavesConstant value size to words.items) }
    ensures short { IfOk result (λ words. length words.items ≤ argument_words (Arg.Const value) size) }
    ensures encodable { IfOk result (λ words. All IsEncodable words.items) }
    ensures writes { IfOk result (λ words. list_all (changes_only (may_change to)) words.items ≡ true) }
    ensures words { IfOk result (λ words. words.items ≡ constant_code value size to) }
{
    Ok(constant_code(alloc, value, size, to)?)
}
