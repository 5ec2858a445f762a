// What the Alpha registers hold in translated code. R0 to R14 are the VAX registers, as sign-extended longwords.
ghost use Rattle.std.specs.Prelude.{◌≡◌};
ghost use Rattle.alpha_encode.specs.Registers as stated;

/// The first operand of the rule of C.
pub const CARRY_FIRST: u8 = 15;
/// The condition codes, as 0 or 1.
pub const NEGATIVE: u8 = 16;

pub const IS_ZERO: u8 = 17;

pub const OVERFLOW: u8 = 18;

pub const CARRY: u8 = 19;
/// Bits 7:4 of the processor status word, in place.
pub const STATUS: u8 = 20;
/// The first of the registers that hold temporaries, up to `TARGET`.
pub const TEMPORARIES: u8 = 21;
/// The quadword that a byte sequence reads or changes; behind a store conditional, whether it succeeded.
pub const QUAD: u8 = 25;
/// A second quadword of a byte sequence, or bytes that are to be stored.
pub const BYTES: u8 = 26;
/// The address of the quadword that a loop changes.
pub const QUAD_ADDRESS: u8 = 27;
/// A VAX address to go on at; inside a block a temporary.
pub const TARGET: u8 = 26;
/// A VAX address to be probed; else scratch.
pub const ADDRESS: u8 = 27;
/// The operands of the rule of N, Z and V.
pub const RULE_FIRST: u8 = 28;

pub const RULE_SECOND: u8 = 29;
/// The second operand of the rule of C.
pub const CARRY_SECOND: u8 = 30;
/// Reads zero, and is not written.
pub const ZERO: u8 = 31;

/// The registers of the state are those that the definitions state in figures.
pub fn registers_are_as_stated()
    ensures carry_first { CARRY_FIRST ≡ stated.CARRY_FIRST }
    ensures negative { NEGATIVE ≡ stated.NEGATIVE }
    ensures is_zero { IS_ZERO ≡ stated.IS_ZERO }
    ensures overflow { OVERFLOW ≡ stated.OVERFLOW }
    ensures carry { CARRY ≡ stated.CARRY }
    ensures status { STATUS ≡ stated.STATUS }
    ensures temporaries { TEMPORARIES ≡ stated.TEMPORARIES }
    ensures target { TARGET ≡ stated.TARGET }
    ensures address { ADDRESS ≡ stated.ADDRESS }
    ensures rule_first { RULE_FIRST ≡ stated.RULE_FIRST }
    ensures rule_second { RULE_SECOND ≡ stated.RULE_SECOND }
    ensures carry_second { CARRY_SECOND ≡ stated.CARRY_SECOND }
    ensures zero { ZERO ≡ stated.ZERO }
{}
