//! Words and instructions as text.
ghost use Rattle.std.specs.Prelude.{◌≡◌, ◌+◌, ◌*◌, ◌≤◌, [], ◌++◌, codes, length};
ghost use Rattle.array_text.specs.Hexadecimal.{hexadecimal};
ghost use Rattle.std.specs.Fmt.{decimal, signed_decimal};
ghost use Rattle.alpha_text.specs.Text.{OneWordEach, distance_text, distance_of, first_text, instr_text, is_single, register_text, second_text, word_text};

use crate::names::{branch_name, memory_name, operate_name};
use alpha_encode::{AlphaInstr, OperateOp, Second, decode};
use array_text::{Line, ROOM, push_decimal, push_hexadecimal, push_text};

/// The most bytes of a number, and of a register.
const NUMBER: usize = 20;

const REGISTER: usize = 1 + NUMBER;

/// Appends a number.
#[tactic(auto, using(crate::proofs::Places::places))]
fn push_number(line: &mut Line, number: u64)
    requires { length line.old.items + NUMBER ≤ ROOM }
    ensures text { line.new.items ≡ line.old.items ++ decimal number }
    ensures room { length line.new.items ≤ length line.old.items + NUMBER }
{
    push_decimal(line, number);
}

fn push_register(line: &mut Line, register: u8)
    requires { length line.old.items + REGISTER ≤ ROOM }
    ensures text { line.new.items ≡ line.old.items ++ register_text register }
    ensures room { length line.new.items ≤ length line.old.items + REGISTER }
{
    line.push(b'$');
    push_number(line, u64::from(register));
}

fn push_signed(line: &mut Line, value: i16)
    requires { length line.old.items + REGISTER ≤ ROOM }
    ensures text { line.new.items ≡ line.old.items ++ signed_decimal value }
    ensures room { length line.new.items ≤ length line.old.items + REGISTER }
{
    if value < 0 {
        line.push(b'-');
    }
    push_number(line, u64::from(value.unsigned_abs()));
}

fn push_second(line: &mut Line, second: Second)
    requires { length line.old.items + REGISTER ≤ ROOM }
    ensures text { line.new.items ≡ line.old.items ++ second_text second }
    ensures room { length line.new.items ≤ length line.old.items + REGISTER }
{
    match second {
        Second::Register(register) => push_register(line, register),
        Second::Literal(value) => push_number(line, u64::from(value)),
    }
}

/// Appends how far a branch goes, in bytes from itself.
fn push_distance(line: &mut Line, words: i32)
    requires { length line.old.items + 2 + NUMBER ≤ ROOM }
    ensures text { line.new.items ≡ line.old.items ++ distance_text (distance_of words) }
    ensures room { length line.new.items ≤ length line.old.items + 2 + NUMBER }
{
    let bytes = 4 * i64::from(words) + 4;
    push_text(line, if bytes < 0 { b".-" } else { b".+" });
    push_number(line, bytes.unsigned_abs());
}

/// Whether an instruction has one operand, Rb.
#[tactic(auto, unfolding(crate::specs::Text::is_single))]
fn is_single(op: OperateOp) -> bool
    ensures { result ≡ is_single op }
{
    matches!(op, OperateOp::Sextb | OperateOp::Sextw)
}

fn push_first(line: &mut Line, op: OperateOp, ra: u8)
    requires { length line.old.items + REGISTER + 1 ≤ ROOM }
    ensures text { line.new.items ≡ line.old.items ++ first_text op ra }
    ensures room { length line.new.items ≤ length line.old.items + REGISTER + 1 }
{
    if !is_single(op) {
        push_register(line, ra);
        line.push(b',');
    }
}

/// Appends the registers of a load or a store, and its displacement.
fn push_memory(line: &mut Line, ra: u8, displacement: i16, rb: u8)
    requires { length line.old.items + 4 + 3 * REGISTER ≤ ROOM }
    ensures { line.new.items ≡ line.old.items ++ codes " " ++ register_text ra ++ codes "," ++ signed_decimal displacement ++ codes "(" ++ register_text rb ++ codes ")" }
{
    line.push(b' ');
    push_register(line, ra);
    line.push(b',');
    push_signed(line, displacement);
    line.push(b'(');
    push_register(line, rb);
    line.push(b')');
}

fn push_branch(line: &mut Line, ra: u8, words: i32)
    requires { length line.old.items + 4 + REGISTER + NUMBER ≤ ROOM }
    ensures { line.new.items ≡ line.old.items ++ codes " " ++ register_text ra ++ codes "," ++ distance_text (distance_of words) }
{
    line.push(b' ');
    push_register(line, ra);
    line.push(b',');
    push_distance(line, words);
}

fn push_operate(line: &mut Line, op: OperateOp, ra: u8, rb: Second, rc: u8)
    requires { length line.old.items + 3 + 3 * REGISTER ≤ ROOM }
    ensures { line.new.items ≡ line.old.items ++ codes " " ++ first_text op ra ++ second_text rb ++ codes "," ++ register_text rc }
{
    line.push(b' ');
    push_first(line, op, ra);
    push_second(line, rb);
    line.push(b',');
    push_register(line, rc);
}

fn push_jump(line: &mut Line, ra: u8, rb: u8)
    requires { length line.old.items + 9 + 2 * REGISTER ≤ ROOM }
    ensures { line.new.items ≡ line.old.items ++ codes "jmp " ++ register_text ra ++ codes ",(" ++ register_text rb ++ codes "),0" }
{
    push_text(line, b"jmp ");
    push_register(line, ra);
    push_text(line, b",(");
    push_register(line, rb);
    push_text(line, b"),0");
}

fn push_instr(line: &mut Line, instr: AlphaInstr)
    requires { line.old.items ≡ [] }
    ensures { line.new.items ≡ instr_text instr }
{
    match instr {
        AlphaInstr::Memory { op, ra, rb, disp } => {
            push_text(line, memory_name(op));
            push_memory(line, ra, disp, rb);
        }
        AlphaInstr::Branch { op, ra, disp } => {
            push_text(line, branch_name(op));
            push_branch(line, ra, disp);
        }
        AlphaInstr::Operate { op, ra, rb, rc } => {
            push_text(line, operate_name(op));
            push_operate(line, op, ra, rb, rc);
        }
        AlphaInstr::Jump { ra, rb } => push_jump(line, ra, rb),
        AlphaInstr::Pal(number) => {
            push_text(line, b"call_pal 0x");
            push_quadword(line, u64::from(number));
        }
    }
}

/// Appends a number in hexadecimal digits.
#[tactic(auto, using(array_text::proofs::Hexadecimal::quadword_places))]
fn push_quadword(line: &mut Line, number: u64)
    requires { length line.old.items + 16 ≤ ROOM }
    ensures { line.new.items ≡ line.old.items ++ hexadecimal number }
{
    push_hexadecimal(line, number);
}

/// The text of a word: the instruction that it spells, or else a number.
#[tactic(auto, unfolding(crate::specs::Text::word_text))]
pub fn word_text(word: u32) -> Line
    ensures { result.items ≡ word_text word }
{
    let mut line = Line::new();
    match decode(word) {
        Some(instr) => push_instr(&mut line, instr),
        None => {
            push_text(&mut line, b".long 0x");
            push_quadword(&mut line, u64::from(word));
        }
    }
    line
}

/// Two words with the same text are the same word.
pub fn one_word_each()
    ensures { OneWordEach }
{}
