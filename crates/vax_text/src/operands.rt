// Operand specifiers as text.
ghost use Rattle.std.specs.Prelude.{◌≡◌, ◌+◌, ◌<◌, ◌≤◌, [], ◌∷◌, ◌++◌, codes, length, take};
ghost use Rattle.vax_form.specs.Size.{bytes_of};
ghost use Rattle.vax_form.specs.Grammar.{number, wrapped};
ghost use Rattle.vax_form.specs.GrammarModes.{extension_size};
ghost use Rattle.array_text.specs.Hexadecimal.{hexadecimal};
ghost use Rattle.vax_text.specs.Operands.{base, by_mode, deferred_mark, displacement_text, extension_bytes, general, has_shorter, immediate_text, in_parentheses, literal_text, mode_text, plain, register_name, relative_text, specifier, target, width_mark};

use crate::names::register_name;
use crate::numbers::{extend, push_longword, push_quadword, push_signed, sized_number};
use array_text::{Line, ROOM, push_text};
use vax_form::{Access, Mode, Size};

/// The most bytes of the text of a specifier without an index, of an index, and of a whole specifier.
const PLAIN: usize = 19;

const INDEX: usize = 5;

pub(crate) const SPECIFIER: usize = PLAIN + INDEX;

/// Appends a register between two signs.
fn push_enclosed(line: &mut Line, left: u8, register: u8, right: u8)
    requires register { register < 16 }
    requires room { length line.old.items + INDEX ≤ ROOM }
    ensures text { line.new.items ≡ line.old.items ++ left ∷ register_name register ++ right ∷ [] }
    ensures room { length line.new.items ≤ length line.old.items + INDEX }
{
    line.push(left);
    push_text(line, register_name(register));
    line.push(right);
}

fn push_deferred(line: &mut Line, deferred: bool)
    requires { length line.old.items + 1 ≤ ROOM }
    ensures text { line.new.items ≡ line.old.items ++ deferred_mark deferred }
    ensures room { length line.new.items ≤ length line.old.items + 1 }
{
    if deferred {
        line.push(b'@');
    }
}

fn width_mark(size: Size) -> &'static [u8]
    ensures mark { result.now ≡ width_mark size }
    ensures short { length result.now ≤ 2 }
{
    match size {
        Size::Byte => b"B^",
        Size::Word => b"W^",
        Size::Long => b"L^",
        Size::Quad => b"",
    }
}

/// Whether a displacement of a shorter form holds that longword, too.
fn has_shorter(size: Size, value: u32) -> bool
    ensures { result ≡ has_shorter size value }
{
    match size {
        Size::Word => value < 0x80 || 0xFFFF_FF80 <= value,
        Size::Long => value < 0x8000 || 0xFFFF_8000 <= value,
        _ => false,
    }
}

/// A displacement and a register.
fn push_displacement(line: &mut Line, size: Size, deferred: bool, register: u8, value: u32)
    requires register { register < 16 }
    requires room { length line.old.items + PLAIN ≤ ROOM }
    ensures text { line.new.items ≡ line.old.items ++ displacement_text size deferred register value }
    ensures room { length line.new.items ≤ length line.old.items + PLAIN }
{
    push_deferred(line, deferred);
    if has_shorter(size, value) {
        push_text(line, width_mark(size));
    }
    push_signed(line, value);
    push_enclosed(line, b'(', register, b')');
}

/// An address by its distance.
fn push_relative(line: &mut Line, size: Size, deferred: bool, address: u32)
    requires { length line.old.items + PLAIN ≤ ROOM }
    ensures text { line.new.items ≡ line.old.items ++ relative_text size deferred address }
    ensures room { length line.new.items ≤ length line.old.items + PLAIN }
{
    push_deferred(line, deferred);
    push_text(line, width_mark(size));
    push_longword(line, address);
}

fn push_literal(line: &mut Line, value: u64)
    requires { length line.old.items + 17 ≤ ROOM }
    ensures text { line.new.items ≡ line.old.items ++ literal_text value }
    ensures room { length line.new.items ≤ length line.old.items + 17 }
{
    line.push(b'#');
    push_quadword(line, value);
}

fn push_immediate(line: &mut Line, value: u64)
    requires { length line.old.items + PLAIN ≤ ROOM }
    ensures text { line.new.items ≡ line.old.items ++ immediate_text value }
    ensures room { length line.new.items ≤ length line.old.items + PLAIN }
{
    if value < 0x40 {
        push_text(line, b"I^");
    }
    push_literal(line, value);
}

fn push_absolute(line: &mut Line, address: u64)
    requires { length line.old.items + PLAIN ≤ ROOM }
    ensures text { line.new.items ≡ line.old.items ++ codes "@#" ++ hexadecimal address }
    ensures room { length line.new.items ≤ length line.old.items + PLAIN }
{
    push_text(line, b"@#");
    push_quadword(line, address);
}

/// A mode of a register alone.
#[tactic(auto, unfolding(crate::specs::Operands::mode_text))]
fn push_register_mode(line: &mut Line, before: &[u8], register: u8, after: &[u8])
    requires register { register < 16 }
    requires before { length before.now ≤ 1 }
    requires after { length after.now ≤ 1 }
    requires room { length line.old.items + PLAIN ≤ ROOM }
    ensures text { line.new.items ≡ line.old.items ++ before.now ++ in_parentheses register ++ after.now }
    ensures room { length line.new.items ≤ length line.old.items + PLAIN }
{
    push_text(line, before);
    push_enclosed(line, b'(', register, b')');
    push_text(line, after);
}

/// Appends a specifier with that first byte and that mode, and no index; says how many bytes it has.
#[tactic(auto, unfolding(crate::specs::Operands::plain, crate::specs::Operands::mode_text, vax_form::specs::GrammarModes::extension_size))]
fn push_plain(line: &mut Line, size: Size, at: u32, first: u8, mode: Mode, rest: &[u8]) -> usize
    requires { length line.old.items + PLAIN ≤ ROOM }
    ensures text { line.new.items ≡ line.old.items ++ (plain size at first mode rest.now).0 }
    ensures count { result ≡ (plain size at first mode rest.now).1 }
    ensures few { result ≤ 9 }
    ensures room { length line.new.items ≤ length line.old.items + PLAIN }
{
    let register = first % 16;
    match mode {
        Mode::Literal => push_literal(line, u64::from(first)),
        Mode::Register => push_text(line, register_name(register)),
        Mode::Deferred => push_register_mode(line, b"", register, b""),
        Mode::Decrement => push_register_mode(line, b"-", register, b""),
        Mode::Increment => push_register_mode(line, b"", register, b"+"),
        Mode::IncrementDeferred => push_register_mode(line, b"@", register, b"+"),
        Mode::Immediate => {
            push_immediate(line, sized_number(rest, size));
            return 1 + size.bytes() as usize;
        }
        Mode::Absolute => {
            push_absolute(line, sized_number(rest, Size::Long));
            return 1 + 4;
        }
        Mode::Displacement { size, deferred } => {
            let value = extend(size, sized_number(rest, size));
            push_displacement(line, size, deferred, register, value);
            return 1 + size.bytes() as usize;
        }
        Mode::Relative { size, deferred } => {
            let behind = at.wrapping_add(1 + size.bytes());
            let address = behind.wrapping_add(extend(size, sized_number(rest, size)));
            push_relative(line, size, deferred, address);
            return 1 + size.bytes() as usize;
        }
        Mode::Index | Mode::Reserved => {}
    }
    1
}

/// Appends what an index byte stands before; says how many bytes it has.
#[tactic(auto, unfolding(crate::specs::Operands::base))]
fn push_base(line: &mut Line, size: Size, at: u32, bytes: &[u8]) -> usize
    requires { length line.old.items + PLAIN ≤ ROOM }
    ensures text { line.new.items ≡ line.old.items ++ (base size at bytes.now).0 }
    ensures count { result ≡ (base size at bytes.now).1 }
    ensures few { result ≤ 9 }
    ensures room { length line.new.items ≤ length line.old.items + PLAIN }
{
    match bytes {
        [first, rest @ ..] => push_plain(line, size, at, *first, Mode::of(*first), rest),
        [] => 0,
    }
}

#[tactic(auto, unfolding(crate::specs::Operands::by_mode))]
fn push_by_mode(line: &mut Line, size: Size, at: u32, first: u8, mode: Mode, rest: &[u8]) -> usize
    requires { length line.old.items + SPECIFIER ≤ ROOM }
    ensures text { line.new.items ≡ line.old.items ++ (by_mode size at first mode rest.now).0 }
    ensures count { result ≡ (by_mode size at first mode rest.now).1 }
    ensures few { result ≤ 10 }
    ensures room { length line.new.items ≤ length line.old.items + SPECIFIER }
{
    match mode {
        Mode::Index => {
            let count = push_base(line, size, at.wrapping_add(1), rest);
            push_enclosed(line, b'[', first % 16, b']');
            1 + count
        }
        _ => push_plain(line, size, at, first, mode, rest),
    }
}

#[tactic(auto, unfolding(crate::specs::Operands::general))]
fn push_general(line: &mut Line, size: Size, at: u32, bytes: &[u8]) -> usize
    requires { length line.old.items + SPECIFIER ≤ ROOM }
    ensures text { line.new.items ≡ line.old.items ++ (general size at bytes.now).0 }
    ensures count { result ≡ (general size at bytes.now).1 }
    ensures few { result ≤ 10 }
    ensures room { length line.new.items ≤ length line.old.items + SPECIFIER }
{
    match bytes {
        [first, rest @ ..] => push_by_mode(line, size, at, *first, Mode::of(*first), rest),
        [] => 0,
    }
}

/// The address that a branch displacement names.
#[tactic(auto, unfolding(crate::specs::Operands::target))]
fn push_target(line: &mut Line, size: Size, at: u32, bytes: &[u8]) -> usize
    requires { length line.old.items + SPECIFIER ≤ ROOM }
    ensures text { line.new.items ≡ line.old.items ++ (target size at bytes.now).0 }
    ensures count { result ≡ (target size at bytes.now).1 }
    ensures few { result ≤ 8 }
    ensures room { length line.new.items ≤ length line.old.items + SPECIFIER }
{
    let behind = at.wrapping_add(size.bytes());
    push_longword(
        line,
        behind.wrapping_add(extend(size, sized_number(bytes, size))),
    );
    size.bytes() as usize
}

/// Appends an operand specifier; says how many bytes it has.
#[tactic(auto, unfolding(crate::specs::Operands::specifier))]
pub(crate) fn push_specifier(
    line: &mut Line,
    access: Access,
    size: Size,
    at: u32,
    bytes: &[u8],
) -> usize
    requires { length line.old.items + SPECIFIER ≤ ROOM }
    ensures text { line.new.items ≡ line.old.items ++ (specifier access size at bytes.now).0 }
    ensures count { result ≡ (specifier access size at bytes.now).1 }
    ensures few { result ≤ 10 }
    ensures room { length line.new.items ≤ length line.old.items + SPECIFIER }
{
    match access {
        Access::Branch => push_target(line, size, at, bytes),
        _ => push_general(line, size, at, bytes),
    }
}
