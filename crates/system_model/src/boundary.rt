// What a processor shows at a boundary between instructions.
ghost use Rattle.std.specs.Prelude.{◌≡◌};
ghost use Rattle.alpha_machine.specs.Step.{state_of};
ghost use Rattle.exception_records.specs.Shown.{shown};

use alpha_machine::Cpu;
use exception_records::Rules;
use vax_form::{Flags, VaxState};

/// The VAX state that a processor's registers show at that PC: R0 to R14 by their low longwords, and the condition codes
/// by the rules, but those that are held are in their own registers.
#[tactic(auto, unfolding(alpha_meaning::specs::State::regs_of))]
pub fn shown(cpu: &Cpu, vax_pc: u32, rules: &Rules, held: &Flags, handler: u32) -> VaxState
    ensures { result ≡ shown (state_of cpu.now).regs vax_pc rules.now held.now handler }
{
    exception_records::shown(&cpu.r, vax_pc, rules, held, handler)
}
