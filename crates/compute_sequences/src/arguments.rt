// Arguments: most stand in registers of a block, and others have to be loaded.
ghost use Rattle.std.specs.Prelude.{◌≡◌, ◌≤◌, ◌++◌, ℕ, length, OnOk};
ghost use Rattle.compute_sequences.specs.Registers.{IsTarget, IsArgument, register_at, is_loaded};
ghost use Rattle.compute_sequences.specs.Words.{load_code, first_register, second_target, second_register, free_of, other_of};

use crate::constants::{constant_length, push_constant};
use crate::parts::narrow;
use alpha_encode::registers::{ADDRESS, NEGATIVE, STATUS, TEMPORARIES, ZERO};
use alpha_encode::{AlphaInstr, OperateOp, operate_by};
use micro_ops::Arg;
use std::alloc::AllocError;
use vax_form::Size;

pub(crate) const SCRATCH: u8 = ADDRESS;

/// How many flags have a register of their own.
const CODES: u8 = 4;

/// The register in which an argument stands, or where its words take it from.
pub(crate) fn register_at(arg: Arg) -> u8
    requires { IsArgument arg }
    ensures value { result ≡ register_at arg }
    ensures most { result ≤ 31 }
{
    match arg {
        Arg::Temp(temp) => TEMPORARIES + temp,
        Arg::Register(number) => number,
        Arg::Flag(flag) if flag < CODES => NEGATIVE + flag,
        Arg::Flag(_) => STATUS,
        Arg::Const(_) => ZERO,
    }
}

/// Whether an argument takes words of its own.
pub(crate) fn is_loaded(size: Size, arg: Arg) -> bool
    ensures { result ≡ is_loaded size arg }
{
    match arg {
        Arg::Temp(_) => false,
        Arg::Register(_) => matches!(size, Size::Quad),
        Arg::Flag(flag) => flag >= CODES,
        Arg::Const(_) => true,
    }
}

/// The words behind which a register has the low bytes of an argument that doesn't stand in one.
pub(crate) fn push_load(
    words: &mut Vec<AlphaInstr>,
    size: Size,
    arg: Arg,
    to: u8,
) -> Result<(), AllocError>
    ensures { OnOk result (words.new.items ≡ words.old.items ++ load_code size arg to) }
{
    match arg {
        Arg::Register(number) if is_loaded(size, arg) => {
            words.push(narrow(Size::Long, number, to))?;
        }
        Arg::Flag(flag) if is_loaded(size, arg) => {
            let shifted = operate_by(OperateOp::Srl, STATUS, flag, to);
            words.extend_from_slice(&[shifted, operate_by(OperateOp::And, to, 1, to)])?;
        }
        Arg::Const(value) => push_constant(words, value, size, to)?,
        Arg::Temp(_) | Arg::Register(_) | Arg::Flag(_) => {}
    }
    Ok(())
}

/// How many words that are.
pub(crate) fn load_words(size: Size, arg: Arg) -> u8
    ensures { (to : ℕ) → result ≡ length (load_code size arg to) }
{
    if !is_loaded(size, arg) {
        return 0;
    }
    match arg {
        Arg::Temp(_) => 0,
        Arg::Register(_) => 1,
        Arg::Flag(_) => 2,
        Arg::Const(value) => constant_length(value, size),
    }
}

pub(crate) fn first_register(size: Size, a: Arg) -> u8
    requires { IsArgument a }
    ensures { result ≡ first_register size a }
{
    if is_loaded(size, a) {
        SCRATCH
    } else {
        register_at(a)
    }
}

/// The register that the second argument is loaded into.
pub(crate) fn second_target(size: Size, a: Arg, to: u8) -> u8
    ensures { result ≡ second_target size a to }
{
    if is_loaded(size, a) { to } else { SCRATCH }
}

pub(crate) fn second_register(size: Size, a: Arg, b: Arg, to: u8) -> u8
    requires { IsArgument b }
    ensures { result ≡ second_register size a b to }
{
    if is_loaded(size, b) {
        second_target(size, a, to)
    } else {
        register_at(b)
    }
}

/// Of R27 and the result's register, the one that doesn't hold the second argument.
pub(crate) fn free_of(y: u8, to: u8) -> u8
    ensures { result ≡ free_of y to }
{
    if y == SCRATCH { to } else { SCRATCH }
}

/// The other of both.
pub(crate) fn other_of(y: u8, to: u8) -> u8
    ensures { result ≡ other_of y to }
{
    if y == SCRATCH { SCRATCH } else { to }
}
