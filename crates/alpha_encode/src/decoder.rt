// From a word to its instruction.
ghost use Rattle.std.specs.Prelude.{◌≡◌, ◌/◌, ◌%◌, ◌^◌, ◌<◌, ◌≢◌, IfSome, IfNone};
ghost use Rattle.alpha_encode.specs.Rows.{operate_at};
ghost use Rattle.alpha_encode.specs.Words.{second_at, if_first, instr_at, signed_21, IsEncodable, word_of, Spells};

use crate::instr::{AlphaInstr, FPTI, INTA, INTL, INTM, INTS, JSR, OperateOp, Second};
use crate::pal;
use crate::registers::ZERO;
use crate::tables::{branch_op, memory_op, operate_op};

fn second(field: u32) -> Option<Second>
    requires { field < 2 ^ 9 }
    ensures { result ≡ second_at field }
{
    if field % 2 == 1 {
        Some(Second::Literal((field / 2) as u8))
    } else if field % (1 << 4) == 0 {
        Some(Second::Register((field / (1 << 4)) as u8))
    } else {
        None
    }
}

/// Ra of the word.
fn first(word: u32) -> u8
    ensures value { result ≡ word / 2 ^ 21 % 2 ^ 5 }
    ensures below { result < 2 ^ 5 }
{
    (word / (1 << 21) % (1 << 5)) as u8
}

/// Rb of the memory format.
fn base(word: u32) -> u8
    ensures { result ≡ word / 2 ^ 16 % 2 ^ 5 }
{
    (word / (1 << 16) % (1 << 5)) as u8
}

/// The function of the operate format.
fn function(word: u32) -> u32
    ensures value { result ≡ word / 2 ^ 5 % 2 ^ 7 }
    ensures below { result < 2 ^ 7 }
{
    word / (1 << 5) % (1 << 7)
}

/// The operate instruction of the opcode and the function. Those with one operand have R31 as Ra.
fn operate(word: u32) -> Option<OperateOp>
    ensures { result ≡ if_first (word / 2 ^ 21 % 2 ^ 5) (operate_at (word / 2 ^ 26) (word / 2 ^ 5 % 2 ^ 7)) }
{
    match word / (1 << 26) {
        INTA => operate_op(INTA, function(word)),
        INTL => operate_op(INTL, function(word)),
        INTS => operate_op(INTS, function(word)),
        INTM => operate_op(INTM, function(word)),
        FPTI if first(word) == ZERO => operate_op(FPTI, function(word)),
        _ => None,
    }
}

fn signed_21(field: u32) -> i32
    requires { field < 2 ^ 21 }
    ensures { result ≡ signed_21 field }
{
    let bits = if field < 1 << 20 {
        field
    } else {
        field + (u32::MAX - 0x1f_ffff)
    };
    bits.cast_signed()
}

fn read(word: u32) -> Option<AlphaInstr>
    ensures { result ≡ instr_at word }
{
    if let Some(op) = operate(word) {
        if let Some(rb) = second(word / (1 << 12) % (1 << 9)) {
            let rc = (word % (1 << 5)) as u8;
            return Some(AlphaInstr::Operate {
                op,
                ra: first(word),
                rb,
                rc,
            });
        }
    }
    let opcode = word / (1 << 26);
    if let Some(op) = memory_op(opcode) {
        let disp = ((word % (1 << 16)) as u16).cast_signed();
        return Some(AlphaInstr::Memory {
            op,
            ra: first(word),
            rb: base(word),
            disp,
        });
    }
    if let Some(op) = branch_op(opcode) {
        let disp = signed_21(word % (1 << 21));
        return Some(AlphaInstr::Branch {
            op,
            ra: first(word),
            disp,
        });
    }
    if opcode == JSR && word % (1 << 16) == 0 {
        return Some(AlphaInstr::Jump {
            ra: first(word),
            rb: base(word),
        });
    }
    if u32::from(pal::PROBE) <= word && word <= u32::from(pal::SWITCH) {
        Some(AlphaInstr::Pal(word as u8))
    } else {
        None
    }
}

/// The instruction that the word spells; None where no row spells it.
pub fn decode(word: u32) -> Option<AlphaInstr>
    ensures found { IfSome result (Spells word) }
    ensures none { IfNone result ((i : AlphaInstr) → IsEncodable i → word_of i ≢ word) }
    ensures value { result ≡ instr_at word }
{
    read(word)
}
