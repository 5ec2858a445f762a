//! A whole instruction as text.
ghost use Rattle.std.specs.Prelude.{◌≡◌, ◌+◌, ◌*◌, ◌≤◌, [], ◌∷◌, ◌++◌, length, zip};
ghost use Rattle.vax_form.specs.Grammar.{Spells};
ghost use Rattle.vax_text.specs.Text.{WalksWhole, operands_text, text_of, walk};

use crate::names::name_of;
use crate::numbers::behind;
use crate::operands::{SPECIFIER, push_specifier};
use array_text::{Line, ROOM, push_text};
use vax_form::{Access, Instr, Size, row_of};

/// The most bytes of an operand with the separator before it.
const OPERAND: usize = SPECIFIER + 1;

/// Appends operands, the first behind that separator, the others behind commas.
#[tactic(auto, unfolding(crate::specs::Text::operands_text))]
fn push_operands(
    line: &mut Line,
    separator: u8,
    accesses: &[Access],
    sizes: &[Size],
    at: u32,
    bytes: &[u8],
)
    requires { length line.old.items + OPERAND * length accesses.now ≤ ROOM }
    ensures text { line.new.items ≡ line.old.items ++ (operands_text separator (zip accesses.now sizes.now) at bytes.now).0 }
    ensures room { length line.new.items ≤ length line.old.items + OPERAND * length accesses.now }
{
    let [access, accesses @ ..] = accesses else {
        return;
    };
    let [size, sizes @ ..] = sizes else {
        return;
    };
    line.push(separator);
    let count = push_specifier(line, *access, *size, at, bytes);
    let next = at.wrapping_add(count as u32);
    push_operands(line, b',', accesses, sizes, next, behind(bytes, count));
}

/// Appends an instruction with that opcode.
fn push_instruction(line: &mut Line, opcode: u8, at: u32, rest: &[u8])
    requires { line.old.items ≡ [] }
    ensures text { line.new.items ≡ text_of at (opcode ∷ rest.now) }
    ensures room { length line.new.items ≤ 160 }
{
    push_text(line, name_of(opcode));
    let Some(row) = row_of(opcode) else {
        return;
    };
    let count = row.count as usize;
    let accesses = &row.access[..count];
    let sizes = &row.size[..count];
    push_operands(line, b' ', accesses, sizes, at.wrapping_add(1), rest);
}

/// The text of an instruction, of the bytes that spell it.
pub fn instruction_text(instr: &Instr, bytes: &[u8]) -> Line
    requires { Spells instr.now.at bytes.now instr.now }
    ensures text { result.items ≡ text_of instr.now.at bytes.now }
    ensures room { length result.items ≤ 160 }
    ensures walk { (walk instr.now.at bytes.now).1 ≡ length bytes.now }
{
    let mut line = Line::new();
    if let [opcode, rest @ ..] = bytes {
        push_instruction(&mut line, *opcode, instr.at, rest);
    }
    line
}

/// The text of an instruction is read from its own bytes, once each.
pub fn walks_whole()
    ensures { WalksWhole }
{}
