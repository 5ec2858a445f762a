// What a local instruction does to the registers, told by a small value.
ghost use Rattle.std.specs.Prelude.{◌≡◌, ◌<◌, ◌+◌, ◌^◌, option_map, slice_index, IfSome};
ghost use Rattle.alpha_encode.specs.Words.{IsEncodable, IsSecond};
ghost use Rattle.alpha_machine.specs.Step.{state_of};
ghost use Rattle.alpha_meaning.specs.Act.{act, link_of, second_value, target_of};
ghost use Rattle.alpha_meaning.specs.State.{at_place, put, regs_of};
ghost use Rattle.prepared_code.specs.Effects.{behind, local};

use alpha_encode::{AlphaInstr, BranchOp, MemoryOp, Second};
use alpha_machine::Cpu;
use alpha_meaning::{address_of, is_taken, kind_of, links, result};

/// What a local instruction does: the register that is written (31: none), its value, and the next word.
#[derive(Clone, Copy, Debug, PartialEq, Eq)]
pub struct Effect {
    pub register: u8,
    pub value: u64,
    pub next: u32,
}

#[tactic(auto, unfolding(alpha_meaning::specs::State::regs_of))]
#[inline(always)]
pub(crate) fn register(cpu: &Cpu, n: u8) -> u64
    requires within { n < 32 }
    requires zero { slice_index cpu.now.r 31 ≡ 0 }
    ensures { result ≡ regs_of cpu.now.r n }
{
    cpu.r[n as usize]
}

#[inline(always)]
fn second_value(cpu: &Cpu, second: Second) -> u64
    requires second { IsSecond second }
    requires zero { slice_index cpu.now.r 31 ≡ 0 }
    ensures { result ≡ second_value second (state_of cpu.now).regs }
{
    match second {
        Second::Register(n) => register(cpu, n),
        Second::Literal(n) => u64::from(n),
    }
}

// The address of the next word, in bytes.
#[inline(always)]
fn link(cpu: &Cpu) -> u64
    ensures { result ≡ link_of cpu.now.pc }
{
    4 * u64::from(cpu.pc.wrapping_add(1))
}

#[inline(always)]
fn memory_effect(cpu: &Cpu, op: MemoryOp, ra: u8, rb: u8, disp: i16) -> Option<Effect>
    requires ra { ra < 32 }
    requires rb { rb < 32 }
    requires zero { slice_index cpu.now.r 31 ≡ 0 }
    requires more { cpu.now.pc + 1 < 2 ^ 32 }
    ensures effect { local (act (AlphaInstr.Memory op ra rb disp) (state_of cpu.now)) ≡ option_map (behind (state_of cpu.now)) result }
    ensures register { IfSome result (λ e. e.register < 32) }
{
    match kind_of(op) {
        Some(_) => None,
        None => Some(Effect {
            register: ra,
            value: address_of(op, register(cpu, rb), disp),
            next: cpu.pc + 1,
        }),
    }
}

/// The word that a branch goes to, from its own.
#[inline(always)]
pub(crate) fn target_of(word: u32, disp: i32) -> u32
    requires { word + 1 < 2 ^ 32 }
    ensures { result ≡ target_of word disp }
{
    (word + 1).wrapping_add(disp.cast_unsigned())
}

#[inline(always)]
fn branch_effect(cpu: &Cpu, op: BranchOp, ra: u8, disp: i32) -> Effect
    requires ra { ra < 32 }
    requires zero { slice_index cpu.now.r 31 ≡ 0 }
    requires more { cpu.now.pc + 1 < 2 ^ 32 }
    ensures effect { local (act (AlphaInstr.Branch op ra disp) (state_of cpu.now)) ≡ Some (behind (state_of cpu.now) result) }
    ensures register { result.register < 32 }
{
    Effect {
        register: if links(op) { ra } else { 31 },
        value: link(cpu),
        next: if is_taken(op, register(cpu, ra)) {
            target_of(cpu.pc, disp)
        } else {
            cpu.pc + 1
        },
    }
}

/// What an instruction does to the registers; None for an access and a PALcode call.
#[inline(always)]
pub(crate) fn effect_of(cpu: &Cpu, instr: AlphaInstr) -> Option<Effect>
    requires encodable { IsEncodable instr }
    requires zero { slice_index cpu.now.r 31 ≡ 0 }
    requires more { cpu.now.pc + 1 < 2 ^ 32 }
    ensures effect { local (act instr (state_of cpu.now)) ≡ option_map (behind (state_of cpu.now)) result }
    ensures register { IfSome result (λ e. e.register < 32) }
{
    match instr {
        AlphaInstr::Memory { op, ra, rb, disp } => memory_effect(cpu, op, ra, rb, disp),
        AlphaInstr::Branch { op, ra, disp } => Some(branch_effect(cpu, op, ra, disp)),
        AlphaInstr::Operate { op, ra, rb, rc } => {
            let (a, b) = (register(cpu, ra), second_value(cpu, rb));
            Some(Effect {
                register: rc,
                value: result(op, a, b, register(cpu, rc)),
                next: cpu.pc + 1,
            })
        }
        AlphaInstr::Jump { ra, rb } => Some(Effect {
            register: ra,
            value: link(cpu),
            next: (register(cpu, rb) / 4 % (1 << 32)) as u32,
        }),
        AlphaInstr::Pal(_) => None,
    }
}

/// Register 31 stands as it reads.
#[tactic(auto, unfolding(alpha_meaning::specs::State::regs_of))]
#[inline(always)]
pub(crate) fn clear_31(cpu: &mut Cpu)
    ensures is { state_of cpu.new ≡ state_of cpu.old }
    ensures zero { slice_index cpu.new.r 31 ≡ 0 }
{
    cpu.r[31] = 0;
}

/// Writes a register. Into register 31 goes 0 alone.
#[tactic(auto, unfolding(alpha_meaning::specs::State::regs_of))]
#[inline(always)]
pub(crate) fn write(cpu: &mut Cpu, register: u8, value: u64)
    requires within { register < 32 }
    requires zero { slice_index cpu.old.r 31 ≡ 0 }
    requires same { register ≡ 31 → value ≡ 0 }
    ensures is { state_of cpu.new ≡ at_place (put (regs_of cpu.old.r) register value) cpu.old.pc }
    ensures zero { slice_index cpu.new.r 31 ≡ 0 }
{
    cpu.r[register as usize] = value;
}

/// Writes a register.
#[tactic(auto, unfolding(alpha_meaning::specs::State::regs_of))]
#[inline(always)]
pub(crate) fn put(cpu: &mut Cpu, register: u8, value: u64)
    requires { register < 32 }
    ensures is { state_of cpu.new ≡ at_place (put (regs_of cpu.old.r) register value) cpu.old.pc }
    ensures zero { slice_index cpu.new.r 31 ≡ 0 }
{
    cpu.r[register as usize] = value;
    clear_31(cpu);
}

/// Leaves what an effect says.
#[inline(always)]
pub(crate) fn commit(cpu: &mut Cpu, effect: Effect)
    requires { effect.register < 32 }
    ensures is { state_of cpu.new ≡ behind (state_of cpu.old) effect }
    ensures zero { slice_index cpu.new.r 31 ≡ 0 }
{
    put(cpu, effect.register, effect.value);
    cpu.pc = effect.next;
}
