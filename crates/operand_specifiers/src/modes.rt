// Operand specifiers by their addressing modes.
ghost use Rattle.std.specs.Prelude.{◌≡◌, ◌<◌, ◌%◌};
ghost use Rattle.vax_form.specs.GrammarModes.{base_of, extension_size, is_reserved_base, is_reserved_mode, operand_of};
ghost use Rattle.operand_specifiers.specs.Answer.{FitsExtension};

use crate::number::extend;
use vax_form::{Access, Base, Mode, Operand, SP, Size};

/// Whether a mode with that register is reserved for an operand of that use and length.
#[tactic(auto, unfolding(vax_form::specs::GrammarModes::is_reserved_mode))]
pub(crate) fn is_reserved(access: Access, size: Size, register: u8, mode: Mode) -> bool
    ensures { result ≡ is_reserved_mode access size register mode }
{
    match mode {
        Mode::Reserved => true,
        Mode::Literal => access != Access::Read,
        Mode::Register => access == Access::Address || (size == Size::Quad && register == SP),
        Mode::Immediate => access == Access::Write || access == Access::Modify,
        _ => false,
    }
}

/// Whether a mode with that register is reserved behind an index byte: only what has an address may be a base, and the
/// base may not step the index register.
#[tactic(auto, unfolding(vax_form::specs::GrammarModes::is_reserved_base))]
pub(crate) fn is_reserved_behind_index(index: u8, register: u8, mode: Mode) -> bool
    ensures { result ≡ is_reserved_base index register mode }
{
    match mode {
        Mode::Literal | Mode::Index | Mode::Register | Mode::Immediate | Mode::Reserved => true,
        Mode::Decrement | Mode::Increment | Mode::IncrementDeferred => register == index,
        _ => false,
    }
}

/// The length of the number behind the first byte, where there is one.
#[tactic(auto, unfolding(vax_form::specs::GrammarModes::extension_size))]
pub(crate) fn extension(size: Size, mode: Mode) -> Option<Size>
    ensures { result ≡ extension_size size mode }
{
    match mode {
        Mode::Immediate => Some(size),
        Mode::Absolute => Some(Size::Long),
        Mode::Displacement { size, .. } | Mode::Relative { size, .. } => Some(size),
        _ => None,
    }
}

/// Where an operand in memory lies. The number behind the first byte is `value`; it stands at the address `from`, and
/// `behind` is the address behind the specifier.
#[tactic(auto, unfolding(vax_form::specs::GrammarModes::base_of))]
pub(crate) fn base(register: u8, value: u64, from: u32, behind: u32, mode: Mode) -> Base
    requires { FitsExtension mode value }
    ensures { result ≡ base_of register value from behind mode }
{
    match mode {
        Mode::Decrement => Base::Decrement(register),
        Mode::Increment => Base::Increment(register),
        Mode::IncrementDeferred => Base::IncrementDeferred(register),
        Mode::Immediate => fixed(from, false),
        Mode::Absolute => fixed(value as u32, false),
        Mode::Displacement { size, deferred } => offset(register, extend(size, value), deferred),
        Mode::Relative { size, deferred } => {
            fixed(behind.wrapping_add(extend(size, value)), deferred)
        }
        _ => Base::Deferred(register),
    }
}

fn offset(register: u8, offset: u32, deferred: bool) -> Base
    ensures { result ≡ Base.Offset register offset deferred }
{
    Base::Offset {
        register,
        offset,
        deferred,
    }
}

fn fixed(address: u32, deferred: bool) -> Base
    ensures { result ≡ Base.Fixed address deferred }
{
    Base::Fixed { address, deferred }
}

/// The operand of a specifier that isn't indexed.
#[tactic(auto, unfolding(vax_form::specs::GrammarModes::operand_of))]
pub(crate) fn operand(
    access: Access,
    first: u8,
    value: u64,
    from: u32,
    behind: u32,
    mode: Mode,
) -> Operand
    requires { FitsExtension mode value }
    ensures { result ≡ operand_of access first value from behind mode }
{
    match mode {
        Mode::Literal => Operand::Value(u64::from(first)),
        Mode::Register => Operand::Register(first % 16),
        Mode::Immediate if access == Access::Read => Operand::Value(value),
        _ => Operand::Place {
            base: base(first % 16, value, from, behind, mode),
            index: None,
        },
    }
}
