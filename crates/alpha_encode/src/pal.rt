// The numbers of this project's PALcode calls.
ghost use Rattle.std.specs.Prelude.{◌≡◌};
ghost use Rattle.alpha_encode.specs.Calls as stated;

/// Checks the operand at the address in `registers::ADDRESS`.
pub const PROBE: u8 = 0x80;
/// Retires, and goes on at the VAX address in `registers::TARGET`.
pub const LOOK_UP: u8 = 0x81;
/// The service whose code is in the first temporary.
pub const SERVE: u8 = 0x82;
/// Raises the fault of its point.
pub const RAISE: u8 = 0x83;
/// Retires, and raises arithmetic of the type in the first temporary.
pub const TRAP: u8 = 0x84;
/// Leaves the block's instruction to the interpreter. No block of a translation has it.
pub const INTERPRET: u8 = 0x85;
/// Retires, and goes on in the interpreter at the VAX address in `registers::TARGET`.
pub const SWITCH: u8 = 0x86;

/// The numbers are those that the definitions state in figures.
pub fn calls_are_as_stated()
    ensures probe { PROBE ≡ stated.PROBE }
    ensures look_up { LOOK_UP ≡ stated.LOOK_UP }
    ensures serve { SERVE ≡ stated.SERVE }
    ensures raise { RAISE ≡ stated.RAISE }
    ensures trap { TRAP ≡ stated.TRAP }
    ensures interpret { INTERPRET ≡ stated.INTERPRET }
    ensures switch { SWITCH ≡ stated.SWITCH }
{}
