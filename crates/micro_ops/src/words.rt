// How many words a program counts.
ghost use Rattle.std.specs.Prelude.{◌≡◌, ◌≤◌, min};
ghost use Rattle.micro_ops.specs.WordCounts.{by_size, operation_words, argument_words, has_literal, is_literal, second_words, by_count, words_of, program_words};

use crate::codes::CodeSources;
use crate::left_out::{NONE_USED, is_needed, use_from};
use crate::program::{Arg, Micro, MicroOp};
use crate::uses::is_unary;
use vax_form::Size;

/// One of a row of numbers by size: byte and word, longword, quadword.
fn by_size(size: Size, short: u32, long: u32, quad: u32) -> u32
    ensures { result ≡ by_size size short long quad }
{
    match size {
        Size::Byte | Size::Word => short,
        Size::Long => long,
        Size::Quad => quad,
    }
}

fn operation_words(op: MicroOp, size: Size) -> u32
    ensures value { result ≡ operation_words op size }
    ensures most { result ≤ 8 }
{
    match op {
        MicroOp::Move | MicroOp::ZeroExtend => 1,
        MicroOp::SignExtend => by_size(size, 2, 1, 1),
        MicroOp::Add | MicroOp::Sub | MicroOp::Mul => by_size(size, 2, 2, 1),
        MicroOp::And | MicroOp::Or | MicroOp::Xor | MicroOp::AndNot => by_size(size, 2, 2, 1),
        MicroOp::ShiftLeft => by_size(size, 5, 5, 4),
        MicroOp::ShiftRight => by_size(size, 6, 6, 4),
        MicroOp::ShiftSigned => by_size(size, 8, 7, 5),
        MicroOp::Equal | MicroOp::Less | MicroOp::LessUnsigned => by_size(size, 3, 3, 1),
        MicroOp::SelectNonzero => by_size(size, 3, 3, 1),
        MicroOp::MulHigh => by_size(size, 4, 4, 1),
    }
}

fn argument_words(arg: Arg, size: Size) -> u32
    ensures value { result ≡ argument_words arg size }
    ensures most { result ≤ 5 }
{
    match arg {
        Arg::Temp(_) => 0,
        Arg::Register(_) => by_size(size, 0, 0, 1),
        Arg::Flag(flag) => { if flag < 4 { 0 } else { 2 } }
        Arg::Const(_) => by_size(size, 1, 2, 5),
    }
}

/// Whether a literal as the second argument of the operation stands in the instruction.
fn has_literal(op: MicroOp) -> bool
    ensures { result ≡ has_literal op }
{
    matches!(
        op,
        MicroOp::Sub
            | MicroOp::Mul
            | MicroOp::Xor
            | MicroOp::Equal
            | MicroOp::Less
            | MicroOp::LessUnsigned
    )
}

/// Literals below this are the same with signs.
const SIGNED_LITERALS: u64 = 128;

fn is_literal(arg: Arg) -> bool
    ensures { result ≡ is_literal arg }
{
    match arg {
        Arg::Const(value) => value < SIGNED_LITERALS,
        Arg::Temp(_) | Arg::Register(_) | Arg::Flag(_) => false,
    }
}

fn second_words(op: MicroOp, b: Arg, size: Size) -> u32
    ensures value { result ≡ second_words op b size }
    ensures most { result ≤ 5 }
{
    if is_unary(op) || (has_literal(op) && is_literal(b)) {
        0
    } else {
        argument_words(b, size)
    }
}

/// One of a row of numbers by the count of bytes: 1, 2, and 4 or 8.
fn by_count(count: u8, one: u32, two: u32, more: u32) -> u32
    ensures { result ≡ by_count count one two more }
{
    match count {
        1 => one,
        2 => two,
        _ => more,
    }
}

/// How many words an operation is counted as, where it is not left out.
pub fn words_of(operation: Micro) -> u32
    ensures { result ≡ words_of operation }
{
    match operation {
        Micro::Compute { op, size, a, b, .. } => {
            operation_words(op, size) + argument_words(a, size) + second_words(op, b, size)
        }
        Micro::Probe { .. } | Micro::Refuse { .. } => 2,
        Micro::Read { count, .. } => by_count(count, 4, 12, 12),
        Micro::Write { count, .. } => by_count(count, 8, 20, 24),
        Micro::Locked { .. } => 12,
        Micro::Commit { .. } | Micro::SetPsw { .. } => 1,
        Micro::Codes { .. } | Micro::Leave(_) => 0,
    }
}

/// How many words a program is counted as, up to `u32::MAX`. What is left out counts nothing.
pub fn program_words(codes: CodeSources, program: &[Micro]) -> u32
    ensures { result ≡ min (program_words codes program.now) u32.MAX }
{
    let mut used = NONE_USED;
    let mut words: u32 = 0;
    for i in 0..program.len() {
        let operation = program[program.len() - 1 - i];
        if is_needed(operation, &used) {
            words = words.saturating_add(words_of(operation));
        }
        use_from(codes, operation, &mut used);
    }
    words
}
