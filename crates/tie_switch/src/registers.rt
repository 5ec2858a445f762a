// Alpha registers, and the VAX state that they show.
ghost use Rattle.std.specs.Prelude.{◌≡◌};
ghost use Rattle.alpha_machine.specs.Step.{state_of};
ghost use Rattle.alpha_meaning.specs.State.{regs_of, at_place};
ghost use Rattle.block_law.specs.Placements.{target};
ghost use Rattle.system_model.specs.Processors.{registers_of};
ghost use Rattle.system_model.specs.Steps.{with_r0};

use alpha_encode::registers::{CARRY, IS_ZERO, NEGATIVE, OVERFLOW, STATUS, TARGET};
use alpha_machine::Cpu;
use vax_form::VaxState;
use vt_words::sign_extend;

/// The registers with the values of a state.
pub(crate) fn registers_of(state: &VaxState) -> [u64; 32]
    ensures { regs_of result ≡ registers_of state.now }
{
    let psw = u64::from(state.psw);
    let mut r = [0; 32];
    for n in 0..15 {
        r[n] = sign_extend(u64::from(state.r[n]), 32);
    }
    r[NEGATIVE as usize] = psw / 8 % 2;
    r[IS_ZERO as usize] = psw / 4 % 2;
    r[OVERFLOW as usize] = psw / 2 % 2;
    r[CARRY as usize] = psw % 2;
    r[STATUS as usize] = psw / 16 % 16 * 16;
    r
}

/// R0 is the longword, sign-extended.
#[tactic(auto, unfolding(alpha_meaning::specs::State::regs_of))]
pub(crate) fn with_r0(cpu: Cpu, longword: u64) -> Cpu
    ensures { state_of result ≡ at_place (with_r0 (state_of cpu).regs longword) cpu.pc }
{
    let mut told = cpu;
    told.r[0] = sign_extend(longword, 32);
    told
}

/// The VAX address to go on at.
#[tactic(auto, unfolding(alpha_meaning::specs::State::regs_of))]
pub(crate) fn target(cpu: &Cpu) -> u32
    ensures { result ≡ target (state_of cpu.now).regs }
{
    (cpu.r[TARGET as usize] % (1 << 32)) as u32
}
