// Reads one operand specifier.
ghost use Rattle.std.specs.Prelude.{◌≡◌, ◌+◌, ◌≤◌, ◌<◌, ◌↔◌, ℕ, length, drop, IfSome, IfOk};
ghost use Rattle.vax_form.specs.GrammarReading.{read_base, read_displacement, read_extension, read_general, read_specifier};
ghost use Rattle.operand_specifiers.specs.Answer.{BeginsReserved, FitsSize, IsSpecified, IsUndecided, answer_of};
ghost use Rattle.vax_form.specs.declared.instr.Operand.{Operand};

use crate::modes::{base, extension, is_reserved, is_reserved_behind_index, operand};
use crate::number::{address_at, extend, number_in};
use vax_form::{Access, Mode, Operand, Size};

/// Why a specifier was not read.
#[derive(Clone, Copy, Debug, PartialEq, Eq)]
pub enum SpecFault {
    /// The bytes end inside the specifier, before a reserved addressing mode was seen.
    Past = 1,
    /// The bytes that were read show a reserved addressing mode.
    ReservedMode = 2,
}

/// Reads the operand specifier at a place in bytes that begin at the VAX address `origin`: its operand and the place
/// behind it. A branch displacement is a specifier too, and its operand is the `Target`.
pub fn read_spec(
    bytes: &[u8],
    at: usize,
    origin: u32,
    access: Access,
    size: Size,
) -> Result<(Operand, usize), SpecFault>
    requires { at ≤ length bytes.now }

    // The bytes are read from left to right.
    ensures reading { result
        ≡ answer_of at (read_specifier access size (origin + at) (drop at bytes.now)) }

    // The operand is the one that the bytes specify, and there is no other.
    ensures found { IfOk result (λ found. IsSpecified access size origin bytes.now at found) }
    ensures only { (found : Operand × ℕ) → IsSpecified access size origin bytes.now at found
        → result ≡ Ok found }

    // A reserved addressing mode is shown by the last of the bytes that are read.
    ensures reserved { (result ≡ Err SpecFault.ReservedMode)
        ↔ BeginsReserved access size (drop at bytes.now) }

    // The bytes end first.
    ensures past { (result ≡ Err SpecFault.Past)
        ↔ IsUndecided access size (origin + at) (drop at bytes.now) }
{
    read(bytes, at, origin, access, size)
}

#[tactic(auto, unfolding(vax_form::specs::GrammarReading::read_specifier))]
fn read(
    bytes: &[u8],
    at: usize,
    origin: u32,
    access: Access,
    size: Size,
) -> Result<(Operand, usize), SpecFault>
    requires { at ≤ length bytes.now }
    ensures { result ≡ answer_of at (read_specifier access size (origin + at) (drop at bytes.now)) }
{
    match access {
        Access::Branch => displacement(bytes, at, origin, size),
        _ => specifier(bytes, at, origin, access, size),
    }
}

// A specifier that begins with its addressing mode.
fn specifier(
    bytes: &[u8],
    at: usize,
    origin: u32,
    access: Access,
    size: Size,
) -> Result<(Operand, usize), SpecFault>
    requires { at ≤ length bytes.now }
    ensures { result ≡ answer_of at (read_general access size (origin + at) (drop at bytes.now)) }
{
    let Some(first) = bytes.get(at) else {
        return Err(SpecFault::Past);
    };
    let (register, mode) = (first % 16, Mode::of(*first));
    if let Mode::Index = mode {
        return indexed(bytes, at, origin, size, register);
    }
    if is_reserved(access, size, register, mode) {
        return Err(SpecFault::ReservedMode);
    }
    let Some((value, count)) = number_behind(bytes, at + 1, extension(size, mode)) else {
        return Err(SpecFault::Past);
    };
    let behind = at + 1 + count;
    let (from, after) = (address_at(origin, at + 1), address_at(origin, behind));
    Ok((operand(access, *first, value, from, after, mode), behind))
}

// An index byte at a place, and the base behind it.
fn indexed(
    bytes: &[u8],
    at: usize,
    origin: u32,
    size: Size,
    index: u8,
) -> Result<(Operand, usize), SpecFault>
    requires { at < length bytes.now }
    ensures { result ≡ answer_of at (read_base size (origin + at + 1) index (drop (at + 1) bytes.now)) }
{
    let Some(first) = bytes.get(at + 1) else {
        return Err(SpecFault::Past);
    };
    let (register, mode) = (first % 16, Mode::of(*first));
    if is_reserved_behind_index(index, register, mode) {
        return Err(SpecFault::ReservedMode);
    }
    let Some((value, count)) = number_behind(bytes, at + 2, extension(size, mode)) else {
        return Err(SpecFault::Past);
    };
    let behind = at + 2 + count;
    let (from, after) = (address_at(origin, at + 2), address_at(origin, behind));
    let base = base(register, value, from, after, mode);
    let index = Some(index);
    Ok((Operand::Place { base, index }, behind))
}

// A branch displacement counts from the address behind it.
#[tactic(auto, unfolding(vax_form::specs::GrammarReading::read_displacement, vax_form::specs::GrammarReading::read_extension))]
fn displacement(
    bytes: &[u8],
    at: usize,
    origin: u32,
    size: Size,
) -> Result<(Operand, usize), SpecFault>
    requires { at ≤ length bytes.now }
    ensures { result ≡ answer_of at (read_displacement size (origin + at) (drop at bytes.now)) }
{
    let Some((value, count)) = number_behind(bytes, at, Some(size)) else {
        return Err(SpecFault::Past);
    };
    let behind = at + count;
    let target = address_at(origin, behind).wrapping_add(extend(size, value));
    Ok((Operand::Target(target), behind))
}

// The number at a place, where there is one, and how many bytes it has.
#[tactic(auto, unfolding(vax_form::specs::GrammarReading::read_extension))]
fn number_behind(bytes: &[u8], at: usize, size: Option<Size>) -> Option<(u64, usize)>
    requires { at ≤ length bytes.now }
    ensures number { result ≡ read_extension size (drop at bytes.now) }
    ensures fits { IfSome result (λ e. FitsSize size e.0) }
    ensures within { IfSome result (λ e. at + e.1 ≤ length bytes.now) }
{
    let Some(size) = size else {
        return Some((0, 0));
    };
    let value = number_in(&bytes[at..], size)?;
    Some((value, size.bytes() as usize))
}
