// One instruction.
ghost use Rattle.std.specs.Prelude.{◌≡◌, ◌<◌, length, slice_index, IsSome, IfSome};
ghost use Rattle.alpha_encode.specs.Words.{IsEncodable, IsSecond};
ghost use Rattle.alpha_meaning.specs.Act.{act, second_value, finished};
ghost use Rattle.alpha_machine.specs.Step.{IsStep, IsUnchangedUnlessLocal, current, wrapped, state_of};

use crate::branch::{branch_step, jump_step};
use crate::cpu::{AlphaStep, Cpu};
use crate::memory::{memory_finish, memory_step, write_and_go};
use alpha_encode::{AlphaInstr, Second, decode};
use alpha_meaning::result;

#[inline]
fn second_value(cpu: &Cpu, second: Second) -> u64
    requires { IsSecond second }
    ensures { result ≡ second_value second (state_of cpu.now).regs }
{
    match second {
        Second::Register(n) => cpu.register(n),
        Second::Literal(n) => u64::from(n),
    }
}

fn act(cpu: &mut Cpu, instr: AlphaInstr) -> AlphaStep
    requires { IsEncodable instr }
    ensures step { IsStep (act instr (state_of cpu.old)) result cpu.old cpu.new }
    ensures unchanged { IsUnchangedUnlessLocal result cpu.old cpu.new }
    ensures kept { slice_index cpu.new.r 31 ≡ slice_index cpu.old.r 31 }
{
    match instr {
        AlphaInstr::Memory { op, ra, rb, disp } => memory_step(cpu, op, ra, rb, disp),
        AlphaInstr::Branch { op, ra, disp } => branch_step(cpu, op, ra, disp),
        AlphaInstr::Operate { op, ra, rb, rc } => {
            let (a, b) = (cpu.register(ra), second_value(cpu, rb));
            let value = result(op, a, b, cpu.register(rc));
            write_and_go(cpu, rc, value);
            AlphaStep::Local
        }
        AlphaInstr::Jump { ra, rb } => jump_step(cpu, ra, rb),
        AlphaInstr::Pal(number) => AlphaStep::Pal(number),
    }
}

/// One step at `pc`, where the word of `code` decodes. A local instruction is done whole; an
/// access that is wanted and a PALcode call leave the processor unchanged. The program counter
/// is modulo 2^32 words.
pub fn step(cpu: &mut Cpu, code: &[u32]) -> AlphaStep
    requires within { cpu.old.pc < length code.now }
    requires decodes { IsSome (current code.now cpu.old) }
    ensures step { IfSome (current code.now cpu.old) (λ i. IsStep (act i (state_of cpu.old)) result cpu.old cpu.new) }
    ensures unchanged { IsUnchangedUnlessLocal result cpu.old cpu.new }
    // What stands in the place of register 31 stays.
    ensures kept { slice_index cpu.new.r 31 ≡ slice_index cpu.old.r 31 }
{
    match decode(code[cpu.pc as usize]) {
        Some(instr) => act(cpu, instr),
        None => unreachable!(),
    }
}

/// Completes the access that the instruction at `pc` wanted. `value` is what a load read,
/// right-aligned and zero-extended; `success` is whether a store conditional stored. An
/// instruction that wants no access is left alone.
pub fn finish(cpu: &mut Cpu, code: &[u32], value: u64, success: bool)
    requires within { cpu.old.pc < length code.now }
    requires decodes { IsSome (current code.now cpu.old) }
    ensures finished { IfSome (current code.now cpu.old) (λ i. state_of cpu.new ≡ wrapped (finished i value success (state_of cpu.old))) }
    ensures kept { slice_index cpu.new.r 31 ≡ slice_index cpu.old.r 31 }
{
    if let Some(AlphaInstr::Memory { op, ra, .. }) = decode(code[cpu.pc as usize]) {
        memory_finish(cpu, op, ra, value, success);
    }
}
