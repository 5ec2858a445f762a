// Branch format, and JMP.
ghost use Rattle.std.specs.Prelude.{◌≡◌, ◌<◌, slice_index};
ghost use Rattle.alpha_encode.specs.declared.instr.AlphaInstr.{AlphaInstr};
ghost use Rattle.alpha_meaning.specs.Act.{act, branch_act, link_of};
ghost use Rattle.alpha_machine.specs.Step.{IsStep, state_of};

use crate::cpu::{AlphaStep, Cpu};
use alpha_encode::BranchOp;
use alpha_meaning::{is_taken, links};

/// The address of the next word, in bytes.
#[inline]
fn next_address(cpu: &Cpu) -> u64
    ensures { result ≡ link_of cpu.now.pc }
{
    4 * u64::from(cpu.pc.wrapping_add(1))
}

pub(crate) fn branch_step(cpu: &mut Cpu, op: BranchOp, ra: u8, disp: i32) -> AlphaStep
    requires { ra < 32 }
    ensures step { IsStep (branch_act op ra disp (state_of cpu.old)) result cpu.old cpu.new }
    ensures kept { slice_index cpu.new.r 31 ≡ slice_index cpu.old.r 31 }
{
    let next = cpu.pc.wrapping_add(1);
    let taken = is_taken(op, cpu.register(ra));
    if links(op) {
        cpu.set_register(ra, next_address(cpu));
    }
    cpu.pc = if taken {
        next.wrapping_add(disp.cast_unsigned())
    } else {
        next
    };
    AlphaStep::Local
}

/// Goes to Rb without its low two bits, which counts bytes.
pub(crate) fn jump_step(cpu: &mut Cpu, ra: u8, rb: u8) -> AlphaStep
    requires ra { ra < 32 }
    requires rb { rb < 32 }
    ensures step { IsStep (act (AlphaInstr.Jump ra rb) (state_of cpu.old)) result cpu.old cpu.new }
    ensures kept { slice_index cpu.new.r 31 ≡ slice_index cpu.old.r 31 }
{
    let target = (cpu.register(rb) / 4 % (1 << 32)) as u32;
    let link = next_address(cpu);
    cpu.set_register(ra, link);
    cpu.pc = target;
    AlphaStep::Local
}
