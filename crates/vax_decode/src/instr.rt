// Reads one instruction from bytes.
ghost use Rattle.std.specs.Prelude.{◌≡◌, ◌+◌, ◌≤◌, length, drop};
ghost use Rattle.vax_form.specs.GrammarReading.{read_specifiers};
ghost use Rattle.vax_decode.specs.Reading.{instr_answer, types_of};

use operand_specifiers::{SpecFault, read_spec};
use vax_form::{Instr, Operand, Row};

/// Reads the instruction of an opcode with that row from bytes that begin with the opcode, at the address `pc`.
pub(crate) fn read_instr(bytes: &[u8], pc: u32, opcode: u8, row: &Row) -> Result<Instr, SpecFault>
    requires begun { 1 ≤ length bytes.now }
    requires few { length bytes.now ≤ 64 }
    requires places { row.now.count ≤ 6 }
    ensures { result ≡ instr_answer pc opcode row.now.count
        (read_specifiers (types_of row.now) (pc + 1) (drop 1 bytes.now)) }
{
    let count = row.count;
    let mut operands = [Operand::Unused; 6];
    let mut place = 1;
    for i in 0..count as usize {
        let (operand, behind) = read_spec(bytes, place, pc, row.access[i], row.size[i])?;
        operands[i] = operand;
        place = behind;
    }
    let after = pc.wrapping_add(place as u32);
    Ok(Instr {
        at: pc,
        opcode,
        count,
        operands,
        after,
    })
}
