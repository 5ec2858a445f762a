// From an instruction to its word.
ghost use Rattle.std.specs.Prelude.{◌≡◌, ◌*◌, ◌+◌, ◌^◌, ◌<◌, Some};
ghost use Rattle.alpha_encode.specs.Rows.{memory_opcode, branch_opcode, operate_code};
ghost use Rattle.alpha_encode.specs.Words.{IsEncodable, IsSecond, second_field, word_of, instr_at};

use crate::instr::{AlphaInstr, BranchOp, JSR, MemoryOp, OperateOp, Second};

fn memory_opcode(op: MemoryOp) -> u32
    ensures value { result ≡ memory_opcode op }
    ensures below { result < 2 ^ 6 }
{
    op as u32
}

fn branch_opcode(op: BranchOp) -> u32
    ensures value { result ≡ branch_opcode op }
    ensures below { result < 2 ^ 6 }
{
    op as u32
}

/// The opcode and the function.
fn operate_code(op: OperateOp) -> (u32, u32)
    ensures opcode { result.0 ≡ (operate_code op).0 }
    ensures function { result.1 ≡ (operate_code op).1 }
    ensures opcode_below { result.0 < 2 ^ 6 }
    ensures function_below { result.1 < 2 ^ 7 }
{
    let code = op as u32;
    (code / (1 << 8), code % (1 << 8))
}

/// Opcode, Ra and the 21 bits behind them.
fn word(opcode: u32, ra: u8, low: u32) -> u32
    requires opcode { opcode < 2 ^ 6 }
    requires ra { ra < 2 ^ 5 }
    requires low { low < 2 ^ 21 }
    ensures { result ≡ opcode * 2 ^ 26 + ra * 2 ^ 21 + low }
{
    opcode * (1 << 26) + u32::from(ra) * (1 << 21) + low
}

fn second_field(rb: Second) -> u32
    requires { IsSecond rb }
    ensures value { result ≡ second_field rb }
    ensures below { result < 2 ^ 9 }
{
    match rb {
        Second::Register(register) => u32::from(register) * (1 << 4),
        Second::Literal(value) => u32::from(value) * 2 + 1,
    }
}

fn write(instr: AlphaInstr) -> u32
    requires { IsEncodable instr }
    ensures { result ≡ word_of instr }
{
    match instr {
        AlphaInstr::Memory { op, ra, rb, disp } => {
            word(
                memory_opcode(op),
                ra,
                u32::from(rb) * (1 << 16) + u32::from(disp.cast_unsigned()),
            )
        }
        AlphaInstr::Branch { op, ra, disp } => {
            word(branch_opcode(op), ra, disp.cast_unsigned() % (1 << 21))
        }
        AlphaInstr::Operate { op, ra, rb, rc } => {
            let (opcode, function) = operate_code(op);
            let low = function * (1 << 5) + u32::from(rc);
            word(opcode, ra, second_field(rb) * (1 << 12) + low)
        }
        AlphaInstr::Jump { ra, rb } => word(JSR, ra, u32::from(rb) * (1 << 16)),
        AlphaInstr::Pal(number) => u32::from(number),
    }
}

/// The word of an instruction whose registers are below 32, whose branch displacement has
/// 21 signed bits and whose PAL number is 80 to 86 hexadecimal.
pub fn encode(instr: AlphaInstr) -> u32
    requires { IsEncodable instr }
    ensures word { result ≡ word_of instr }
    // It is read again as the same instruction.
    ensures decodes { instr_at result ≡ Some instr }
{
    write(instr)
}
