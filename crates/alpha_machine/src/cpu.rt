// Registers, and what a step answers.
ghost use Rattle.std.specs.Prelude.{◌≡◌, ◌<◌, slice_index};
ghost use Rattle.alpha_meaning.specs.State.{put, regs_of};

use alpha_meaning::AlphaAccess;

/// An integer register file and a program counter, which counts words.
///
/// Register 31 reads zero and isn't written, whatever stands in `r[31]`.
#[derive(Clone, Copy, PartialEq, Eq, Debug)]
pub struct Cpu {
    pub r: [u64; 32],
    pub pc: u32,
}

/// What a step did. A local instruction is done whole. An access that is wanted and a PALcode
/// call are left to the caller, and the processor is unchanged.
#[derive(Clone, Copy, PartialEq, Eq, Debug)]
pub enum AlphaStep {
    Local,
    Want(AlphaAccess),
    Pal(u8),
}

impl Cpu {
    #[tactic(auto, unfolding(alpha_meaning::specs::State::regs_of))]
    #[inline]
    pub(crate) fn register(&self, n: u8) -> u64
        requires { n < 32 }
        ensures { result ≡ regs_of self.now.r n }
    {
        if n == 31 { 0 } else { self.r[n as usize] }
    }

    #[tactic(auto, unfolding(alpha_meaning::specs::State::regs_of))]
    #[inline]
    pub(crate) fn set_register(&mut self, n: u8, value: u64)
        requires { n < 32 }
        ensures regs { regs_of self.new.r ≡ put (regs_of self.old.r) n value }
        ensures kept { slice_index self.new.r 31 ≡ slice_index self.old.r 31 }
        ensures pc { self.new.pc ≡ self.old.pc }
    {
        if n != 31 {
            self.r[n as usize] = value;
        }
    }
}
