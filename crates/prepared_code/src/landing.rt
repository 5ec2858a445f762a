// The step that arrives at a block.
ghost use Rattle.std.specs.Prelude.{◌≡◌, ◌<◌, true, None, slice_index, IfSome, option_map};
ghost use Rattle.alpha_machine.specs.Step.{state_of};
ghost use Rattle.alpha_meaning.specs.State.{Alpha};
ghost use Rattle.prepared_code.specs.Effects.{behind};
ghost use Rattle.prepared_code.specs.Inside.{landed, landing, local_at};
ghost use Rattle.prepared_code.specs.Known.{stops_at};
ghost use Rattle.prepared_code.specs.Landings.{landed_by};
ghost use Rattle.prepared_code.specs.Sources.{block_at};

use crate::blocks::Block;
use crate::effect::{Effect, commit};
use crate::flat::Way;
use crate::place::Stepping;
use crate::prepared::Prepared;
use crate::run::{value_of, way_out};
use alpha_encode::registers;
use alpha_machine::Cpu;

/// A local step that arrives at the first word of a block, still to be made.
#[derive(Clone, Copy, Debug, PartialEq, Eq)]
pub struct Landing {
    pub effect: Effect,
    pub block: Block,
}

impl Landing {
    /// Makes the step.
    #[inline(always)]
    pub fn make(&self, cpu: &mut Cpu)
        requires { self.now.effect.register < 32 }
        ensures is { state_of cpu.new ≡ behind (state_of cpu.old) self.now.effect }
        ensures zero { slice_index cpu.new.r 31 ≡ 0 }
    {
        commit(cpu, self.effect);
    }
}

impl<'a> Prepared<'a> {
    // What the next step does, where it is local; at once where it is known to land.
    #[inline(always)]
    fn effect_landing(&self, cpu: &Cpu) -> Option<Effect>
        requires zero { slice_index cpu.now.r 31 ≡ 0 }
        ensures is { option_map (behind (state_of cpu.now)) result ≡ local_at self.now.code (state_of cpu.now) }
        ensures register { IfSome result (λ e. e.register < 32) }
    {
        let Some(flat) = self.flats().get(cpu.pc as usize) else {
            return self.effect_at(cpu);
        };
        match flat.way {
            Way::Lands => Some(Effect {
                register: registers::ZERO,
                value: 0,
                next: flat.literal as u32,
            }),
            Way::Ends => Some(Effect {
                register: flat.c,
                value: value_of(cpu, flat),
                next: cpu.pc + 1,
            }),
            Way::Forks(op) => Some(Effect {
                register: registers::ZERO,
                value: 0,
                next: way_out(cpu, flat, op),
            }),
            Way::Other | Way::Stops | Way::Branches(_) => self.effect_at(cpu),
        }
    }

    /// Whether the word there is an access or a PALcode call: it makes no local step, and leads to no block.
    #[inline(always)]
    pub fn stops_at(&self, cpu: &Cpu) -> bool
        ensures just { result ≡ stops_at self.now.code cpu.now.pc }
        ensures none { result ≡ true → landing self.now (state_of cpu.now) ≡ None }
    {
        match self.flats().get(cpu.pc as usize) {
            Some(flat) => matches!(flat.way, Way::Stops),
            None => false,
        }
    }

    /// The step of the word there, where it is local and arrives at a block. Register 31 has to stand as it reads.
    pub fn landing(&self, cpu: &Cpu) -> Option<Landing>
        requires zero { slice_index cpu.now.r 31 ≡ 0 }
        ensures lands { landing self.now (state_of cpu.now) ≡ option_map (landed_by (state_of cpu.now)) result }
        ensures register { IfSome result (λ l. l.effect.register < 32) }
    {
        match self.effect_landing(cpu) {
            Some(effect) => self.landing_by(effect),
            None => None,
        }
    }

    #[inline(always)]
    fn landing_by(&self, effect: Effect) -> Option<Landing>
        ensures is { (c : Alpha) → option_map (landed (behind c effect)) (block_at self.now effect.next) ≡ option_map (landed_by c) result }
        ensures effect { IfSome result (λ l. l.effect ≡ effect) }
    {
        match self.block_at::<Stepping>(effect.next) {
            Some(block) => Some(Landing { effect, block }),
            None => None,
        }
    }
}
