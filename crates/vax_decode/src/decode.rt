// What stands at an address.
ghost use Rattle.std.specs.Prelude.{◌≡◌, ◌≤◌, length};
ghost use Rattle.vax_form.specs.Grammar.{Found};
ghost use Rattle.vax_form.specs.GrammarFound.{Stands, found, found_in};
ghost use Rattle.vax_form.specs.GrammarLaws.{AreBytes};
ghost use Rattle.vax_decode.specs.Decoded.{IfInstr, found_of, IsInstructionAt};

use crate::fetch::fetch;
use crate::instr::read_instr;
use operand_specifiers::SpecFault;
use vax_form::{Instr, Pages, row_of};

/// What stands at an address.
#[derive(Clone, Copy, Debug, PartialEq, Eq)]
pub enum Decoded {
    Instr(Instr),
    /// A reserved opcode.
    Reserved,
    /// An instruction with a reserved addressing mode.
    BadMode,
    /// The code ends before it is decided; the address is that of the first byte that can't be fetched.
    Past(u32),
}

/// Decodes the instruction at an address. Its bytes are fetched from left to right, and the first trouble decides.
pub fn decode_at(pages: &Pages, pc: u32) -> Decoded
    ensures exact { found_of result ≡ found pages.now pc }
    ensures stands { Stands pages.now pc (found_of result) }
    ensures only { (other : Found) → Stands pages.now pc other → other ≡ found_of result }
    ensures spelled { IfInstr result (IsInstructionAt pc) }
{
    let (bytes, count) = fetch(pages, pc);
    decode(&bytes[..count], pc)
}

// Decodes bytes that stand at an address.
fn decode(bytes: &[u8], pc: u32) -> Decoded
    requires { length bytes.now ≤ 64 }
    ensures exact { found_of result ≡ found_in pc bytes.now }
    ensures bytes { AreBytes bytes.now }
{
    let end = pc.wrapping_add(bytes.len() as u32);
    let Some(opcode) = bytes.first() else {
        return Decoded::Past(end);
    };
    let Some(row) = row_of(*opcode) else {
        return Decoded::Reserved;
    };
    match read_instr(bytes, pc, *opcode, &row) {
        Ok(instr) => Decoded::Instr(instr),
        Err(SpecFault::Past) => Decoded::Past(end),
        Err(SpecFault::ReservedMode) => Decoded::BadMode,
    }
}
