// A probe whose bytes may all be used.
ghost use Rattle.std.specs.Prelude.{◌≡◌, ◌<◌, Some, true, false};
ghost use Rattle.alpha_encode.specs.declared.instr.AlphaInstr.TheVariants.{Pal};
ghost use Rattle.alpha_encode.specs.Calls.{PROBE};
ghost use Rattle.alpha_machine.specs.Step.{state_of};
ghost use Rattle.block_law.specs.Follows.{probe_count, probe_address};
ghost use Rattle.alpha_meaning.specs.Pieces.{most_words};
ghost use Rattle.block_law.specs.Translations.{fetch_of};
ghost use Rattle.prepared_code.specs.Probes.{Passes, is_allowed, passes};
ghost use Rattle.vax_form.specs.Pages.{first_bad};

use crate::prepared::Prepared;
use alpha_encode::{AlphaInstr, pal, registers};
use alpha_machine::Cpu;
use exception_records::Point;
use vax_form::Pages;

/// Most bytes that two tests of pages decide.
const MOST_BYTES: u16 = 8;

/// How many bytes a probe checks: the point's count, or where it is 0 the low word of R21.
#[tactic(auto, unfolding(alpha_meaning::specs::State::regs_of))]
pub fn probe_count(point: &Point, cpu: &Cpu) -> u16
    ensures { result ≡ probe_count point.now (state_of cpu.now).regs }
{
    if point.count == 0 {
        (cpu.r[registers::TEMPORARIES as usize] % (1 << 16)) as u16
    } else {
        u16::from(point.count)
    }
}

// Whether all bytes of a probe may be used. More than eight are left to be asked one by one.
#[tactic(auto, unfolding(alpha_meaning::specs::State::regs_of))]
#[inline(always)]
fn is_allowed(pages: &Pages, point: &Point, cpu: &Cpu) -> bool
    ensures just { result ≡ is_allowed pages.now point.now (state_of cpu.now).regs }
    ensures free { result ≡ true → first_bad pages.now point.now.write (probe_address (state_of cpu.now).regs) (probe_count point.now (state_of cpu.now).regs) ≡ None }
{
    let address = (cpu.r[registers::ADDRESS as usize] % (1 << 32)) as u32;
    let count = probe_count(point, cpu);
    count <= MOST_BYTES
        && pages
            .first_bad(address, u32::from(count), point.write)
            .is_none()
}

impl<'a> Prepared<'a> {
    // Whether the probe there goes on inside its block.
    #[inline(always)]
    fn goes_on<L>(&self, cpu: &Cpu) -> bool
        requires calls { fetch_of self.now.code.words cpu.now.pc ≡ Some (Pal PROBE) }
        requires few { cpu.now.pc < most_words }
        ensures just { result ≡ passes self.now (state_of cpu.now) }
        ensures passes { result ≡ true → Passes self.now (state_of cpu.now) }
    {
        match self.points().find(cpu.pc) {
            Some(point) => is_allowed(self.pages(), point, cpu) && !self.begins(cpu.pc + 1),
            None => false,
        }
    }

    /// Whether the word there is a probe of at most eight bytes that may all be used, and no block begins at the next.
    #[inline(always)]
    pub fn passes<L>(&self, cpu: &Cpu) -> bool
        ensures just { result ≡ passes self.now (state_of cpu.now) }
        ensures passes { result ≡ true → Passes self.now (state_of cpu.now) }
        ensures few { result ≡ true → cpu.now.pc < most_words }
    {
        match self.instr_at(cpu.pc) {
            Some(AlphaInstr::Pal(number)) => number == pal::PROBE && self.goes_on::<L>(cpu),
            _ => false,
        }
    }
}
