// A longword in a register, by its halves.
ghost use Rattle.std.specs.Prelude.{◌≡◌};
ghost use Rattle.alpha_encode.specs.Halves.{high_half, low_half, load_high, load_longword, load_low};

use crate::instr::{AlphaInstr, MemoryOp};
use crate::registers::ZERO;

fn high_half(value: u32) -> i16
    ensures { result ≡ high_half value }
{
    ((value.wrapping_add(1 << 15) / (1 << 16)) as u16).cast_signed()
}

fn low_half(value: u32) -> i16
    ensures { result ≡ low_half value }
{
    ((value % (1 << 16)) as u16).cast_signed()
}

/// LDAH of the high half of a longword.
pub fn load_high(register: u8, value: u32) -> AlphaInstr
    ensures { result ≡ load_high register value }
{
    AlphaInstr::Memory {
        op: MemoryOp::Ldah,
        ra: register,
        rb: ZERO,
        disp: high_half(value),
    }
}

/// LDA of its low half, behind that.
pub fn load_low(register: u8, value: u32) -> AlphaInstr
    ensures { result ≡ load_low register value }
{
    AlphaInstr::Memory {
        op: MemoryOp::Lda,
        ra: register,
        rb: register,
        disp: low_half(value),
    }
}

/// Both: the register has the longword, with its sign or, from 7FFF8000 to 7FFFFFFF, with another above it.
pub fn load_longword(register: u8, value: u32) -> [AlphaInstr; 2]
    ensures { result ≡ load_longword register value }
{
    [load_high(register, value), load_low(register, value)]
}
