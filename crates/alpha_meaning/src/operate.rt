// The results of operate instructions.
ghost use Rattle.std.specs.Prelude.{◌≡◌, ◌<◌};
ghost use Rattle.alpha_meaning.specs.Result.{arithmetic_right, result_of};

use alpha_encode::OperateOp;
use vt_words::{
    cleared, extract_high, extract_low, insert_high, insert_low, kept, mask_high, mask_low,
    sign_extend,
};

/// A shift to the right that copies the sign.
#[inline(always)]
fn shift_right_arithmetic(a: u64, count: u64) -> u64
    requires { count < 64 }
    ensures { result ≡ arithmetic_right a count }
{
    if a < 1 << 63 {
        a >> count
    } else {
        !(!a >> count)
    }
}

/// What an operate instruction gives to Rc, for the values of Ra, of Rb or the literal, and of Rc before.
#[inline(always)]
pub fn result(op: OperateOp, a: u64, b: u64, held: u64) -> u64
    ensures { result ≡ result_of op a b held }
{
    match op {
        OperateOp::Addl => sign_extend(a.wrapping_add(b), 32),
        OperateOp::Addq => a.wrapping_add(b),
        OperateOp::S4addq => (a << 2).wrapping_add(b),
        OperateOp::S8addq => (a << 3).wrapping_add(b),
        OperateOp::Cmpeq => u64::from(a == b),
        OperateOp::Cmplt => u64::from(a.cast_signed() < b.cast_signed()),
        OperateOp::Cmple => u64::from(a.cast_signed() <= b.cast_signed()),
        OperateOp::Cmpult => u64::from(a < b),
        OperateOp::Cmpule => u64::from(a <= b),
        OperateOp::Mull => sign_extend(a.wrapping_mul(b), 32),
        OperateOp::Mulq => a.wrapping_mul(b),
        OperateOp::Umulh => (u128::from(a) * u128::from(b) >> 64) as u64,
        OperateOp::Subl => sign_extend(a.wrapping_sub(b), 32),
        OperateOp::Subq => a.wrapping_sub(b),
        OperateOp::And => a & b,
        OperateOp::Bis => a | b,
        OperateOp::Xor => a ^ b,
        OperateOp::Bic => a & !b,
        OperateOp::Ornot => a | !b,
        OperateOp::Eqv => !(a ^ b),
        OperateOp::Cmoveq => { if a == 0 { b } else { held } }
        OperateOp::Cmovne => { if a == 0 { held } else { b } }
        OperateOp::Sll => a << (b % 64),
        OperateOp::Srl => a >> (b % 64),
        OperateOp::Sra => shift_right_arithmetic(a, b % 64),
        OperateOp::Extbl => extract_low(0x01, a, b),
        OperateOp::Extwl => extract_low(0x03, a, b),
        OperateOp::Extll => extract_low(0x0f, a, b),
        OperateOp::Extql => extract_low(0xff, a, b),
        OperateOp::Extwh => extract_high(0x03, a, b),
        OperateOp::Extlh => extract_high(0x0f, a, b),
        OperateOp::Extqh => extract_high(0xff, a, b),
        OperateOp::Insbl => insert_low(0x01, a, b),
        OperateOp::Inswl => insert_low(0x03, a, b),
        OperateOp::Insll => insert_low(0x0f, a, b),
        OperateOp::Insql => insert_low(0xff, a, b),
        OperateOp::Inswh => insert_high(0x03, a, b),
        OperateOp::Inslh => insert_high(0x0f, a, b),
        OperateOp::Insqh => insert_high(0xff, a, b),
        OperateOp::Mskbl => mask_low(0x01, a, b),
        OperateOp::Mskwl => mask_low(0x03, a, b),
        OperateOp::Mskll => mask_low(0x0f, a, b),
        OperateOp::Mskql => mask_low(0xff, a, b),
        OperateOp::Mskwh => mask_high(0x03, a, b),
        OperateOp::Msklh => mask_high(0x0f, a, b),
        OperateOp::Mskqh => mask_high(0xff, a, b),
        OperateOp::Zap => cleared((b % 256) as u8, a),
        OperateOp::Zapnot => kept((b % 256) as u8, a),
        OperateOp::Sextb => sign_extend(b, 8),
        OperateOp::Sextw => sign_extend(b, 16),
    }
}
