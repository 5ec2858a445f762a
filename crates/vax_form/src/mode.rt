// Addressing modes by the first byte of a specifier.
ghost use Rattle.std.specs.Prelude.{◌≡◌};
ghost use Rattle.vax_form.specs.GrammarModes.{mode_of, program_counter_mode, register_mode};

use crate::instr::Size;

/// An addressing mode. Its register is in the low four bits of the specifier's first byte.
#[derive(Clone, Copy, Debug, PartialEq, Eq)]
pub enum Mode {
    Literal,
    Index,
    Register,
    Deferred,
    Decrement,
    Increment,
    IncrementDeferred,
    Immediate,
    Absolute,
    Displacement { size: Size, deferred: bool },
    Relative { size: Size, deferred: bool },
    /// Index, register, register deferred and autodecrement with the program counter.
    Reserved,
}

impl Mode {
    /// The mode that the first byte of an operand specifier shows.
    #[tactic(auto, unfolding(crate::specs::GrammarModes::mode_of))]
    pub fn of(first: u8) -> Mode
        ensures { result ≡ mode_of first }
    {
        if first < 0x40 {
            Mode::Literal
        } else if first % 16 == 15 {
            of_program_counter(first / 16)
        } else {
            of_register(first / 16)
        }
    }
}

// The modes of R0 to R14.
fn of_register(high: u8) -> Mode
    ensures { result ≡ register_mode high }
{
    match high {
        0x4 => Mode::Index,
        0x5 => Mode::Register,
        0x6 => Mode::Deferred,
        0x7 => Mode::Decrement,
        0x8 => Mode::Increment,
        0x9 => Mode::IncrementDeferred,
        0xA => displacement(Size::Byte, false),
        0xB => displacement(Size::Byte, true),
        0xC => displacement(Size::Word, false),
        0xD => displacement(Size::Word, true),
        0xE => displacement(Size::Long, false),
        _ => displacement(Size::Long, true),
    }
}

fn displacement(size: Size, deferred: bool) -> Mode
    ensures { result ≡ Mode.Displacement size deferred }
{
    Mode::Displacement { size, deferred }
}

// The modes of the program counter.
fn of_program_counter(high: u8) -> Mode
    ensures { result ≡ program_counter_mode high }
{
    match high {
        0x0..0x8 => Mode::Reserved,
        0x8 => Mode::Immediate,
        0x9 => Mode::Absolute,
        0xA => relative(Size::Byte, false),
        0xB => relative(Size::Byte, true),
        0xC => relative(Size::Word, false),
        0xD => relative(Size::Word, true),
        0xE => relative(Size::Long, false),
        _ => relative(Size::Long, true),
    }
}

fn relative(size: Size, deferred: bool) -> Mode
    ensures { result ≡ Mode.Relative size deferred }
{
    Mode::Relative { size, deferred }
}
