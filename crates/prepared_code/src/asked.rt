// An access that an instruction asks for inside a block.
ghost use Rattle.std.specs.Prelude.{◌≡◌, ◌<◌, ◌+◌, ◌%◌, ◌^◌, IfSome, is_some};
ghost use Rattle.alpha_machine.specs.Step.{state_of};
ghost use Rattle.alpha_meaning.specs.Act.{memory_finish};
ghost use Rattle.alpha_meaning.specs.Pieces.{loaded, most_words};
ghost use Rattle.alpha_meaning.specs.State.{Alpha, regs_of};
ghost use Rattle.block_law.specs.Translations.{fetch_of};
ghost use Rattle.alpha_encode.specs.declared.instr.AlphaInstr.TheVariants.{Memory};
ghost use Rattle.prepared_code.specs.Asks.{AsksInside, IsOfItsRow, asks_inside};
ghost use Rattle.prepared_code.specs.Effects.{behind};

use crate::effect::{Effect, commit};
use crate::place::Stepping;
use crate::prepared::Prepared;
use alpha_encode::{AlphaInstr, MemoryOp, registers};
use alpha_machine::Cpu;
use alpha_meaning::{
    AlphaAccess, AlphaKind, access_of, address_of, extended, extension_of, kind_of,
};
use vt_words::field;

/// A memory instruction, and the access that it asks for.
#[derive(Clone, Copy, Debug, PartialEq, Eq)]
pub struct Asked {
    pub op: MemoryOp,
    /// The register that it loads or stores.
    pub register: u8,
    pub access: AlphaAccess,
}

#[tactic(auto, unfolding(alpha_meaning::specs::State::regs_of))]
#[inline(always)]
fn register(cpu: &Cpu, n: u8) -> u64
    requires { n < 32 }
    ensures { result ≡ regs_of cpu.now.r n }
{
    if n == registers::ZERO {
        0
    } else {
        cpu.r[n as usize]
    }
}

impl Asked {
    // The register that its access fills, or none, and the value.
    #[inline(always)]
    fn effect(&self, next: u32, before: u64, success: bool) -> Effect
        requires row { IsOfItsRow self.now }
        requires aligned { self.now.access.address % self.now.access.bytes ≡ 0 }
        ensures register { result.register < 32 }
        ensures effect { (c : Alpha) → c.pc + 1 ≡ next → behind c result ≡ memory_finish self.now.op self.now.register (loaded self.now.access before) success c }
    {
        let (register, value) = match self.access.kind {
            AlphaKind::Load | AlphaKind::LoadLocked => {
                let at = (self.access.address % 8) as u32;
                let value = field(before, at, u32::from(self.access.bytes));
                let value = extended(extension_of(self.op), self.access.bytes, value);
                (self.register, value)
            }
            AlphaKind::Store => (registers::ZERO, 0),
            AlphaKind::StoreConditional => (self.register, u64::from(success)),
        };
        Effect {
            register,
            value,
            next,
        }
    }

    /// Finishes the access, which found that, and goes to the next word.
    #[inline(always)]
    pub fn finish(&self, cpu: &mut Cpu, before: u64, success: bool)
        requires row { IsOfItsRow self.now }
        requires aligned { self.now.access.address % self.now.access.bytes ≡ 0 }
        requires few { cpu.old.pc < most_words }
        ensures { state_of cpu.new ≡ memory_finish self.now.op self.now.register (loaded self.now.access before) success (state_of cpu.old) }
    {
        let effect = self.effect(cpu.pc + 1, before, success);
        commit(cpu, effect);
    }
}

impl<'a> Prepared<'a> {
    /// What the word there asks for, where it is an access and no block begins at the next; None else.
    #[inline(always)]
    pub fn asked(&self, cpu: &Cpu) -> Option<Asked>
        ensures just { is_some result ≡ asks_inside self.now (state_of cpu.now) }
        ensures asks { IfSome result (AsksInside self.now (state_of cpu.now)) }
        ensures row { IfSome result IsOfItsRow }
    {
        match self.instr_at(cpu.pc) {
            Some(AlphaInstr::Memory { op, ra, rb, disp }) => self.asked_by::<Stepping>(
                cpu, op, ra, rb, disp,
            ),
            _ => None,
        }
    }

    /// The same of a word whose instruction is known.
    #[inline(always)]
    pub fn asked_by<L>(&self, cpu: &Cpu, op: MemoryOp, ra: u8, rb: u8, disp: i16) -> Option<Asked>
        requires ra { ra < 32 }
        requires rb { rb < 32 }
        requires few { cpu.now.pc < most_words }
        requires fetched { fetch_of self.now.code.words cpu.now.pc ≡ Some (Memory op ra rb disp) }
        ensures just { is_some result ≡ asks_inside self.now (state_of cpu.now) }
        ensures asks { IfSome result (AsksInside self.now (state_of cpu.now)) }
        ensures row { IfSome result IsOfItsRow }
    {
        let Some(kind) = kind_of(op) else {
            return None;
        };
        if self.begins(cpu.pc + 1) {
            return None;
        }
        let address = address_of(op, register(cpu, rb), disp);
        Some(Asked {
            op,
            register: ra,
            access: access_of(op, kind, address, register(cpu, ra)),
        })
    }
}
