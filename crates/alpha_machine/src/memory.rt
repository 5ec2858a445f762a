// Memory format: what an instruction wants, and what a finished access leaves.
ghost use Rattle.std.specs.Prelude.{◌≡◌, ◌<◌, slice_index};
ghost use Rattle.alpha_meaning.specs.Act.{memory_act, memory_finish, writes};
ghost use Rattle.alpha_machine.specs.Step.{IsStep, wrapped, state_of};

use crate::cpu::{AlphaStep, Cpu};
use alpha_encode::MemoryOp;
use alpha_meaning::{AlphaKind, access_of, address_of, bytes_of, extended, extension_of, kind_of};

/// Writes a register and goes to the next word.
#[inline]
pub(crate) fn write_and_go(cpu: &mut Cpu, n: u8, value: u64)
    requires register { n < 32 }
    ensures state { state_of cpu.new ≡ wrapped (writes n value (state_of cpu.old)) }
    ensures kept { slice_index cpu.new.r 31 ≡ slice_index cpu.old.r 31 }
{
    cpu.set_register(n, value);
    cpu.pc = cpu.pc.wrapping_add(1);
}

pub(crate) fn memory_step(cpu: &mut Cpu, op: MemoryOp, ra: u8, rb: u8, disp: i16) -> AlphaStep
    requires ra { ra < 32 }
    requires rb { rb < 32 }
    ensures step { IsStep (memory_act op ra rb disp (state_of cpu.old)) result cpu.old cpu.new }
    ensures kept { slice_index cpu.new.r 31 ≡ slice_index cpu.old.r 31 }
{
    let address = address_of(op, cpu.register(rb), disp);
    match kind_of(op) {
        Some(kind) => AlphaStep::Want(access_of(op, kind, address, cpu.register(ra))),
        None => {
            write_and_go(cpu, ra, address);
            AlphaStep::Local
        }
    }
}

pub(crate) fn memory_finish(cpu: &mut Cpu, op: MemoryOp, ra: u8, value: u64, success: bool)
    requires { ra < 32 }
    ensures state { state_of cpu.new ≡ wrapped (memory_finish op ra value success (state_of cpu.old)) }
    ensures kept { slice_index cpu.new.r 31 ≡ slice_index cpu.old.r 31 }
{
    let next = cpu.pc.wrapping_add(1);
    match kind_of(op) {
        Some(AlphaKind::Load | AlphaKind::LoadLocked) => {
            write_and_go(cpu, ra, extended(extension_of(op), bytes_of(op), value));
        }
        Some(AlphaKind::Store) => cpu.pc = next,
        Some(AlphaKind::StoreConditional) => write_and_go(cpu, ra, u64::from(success)),
        None => {}
    }
}
