// Many steps inside a block.
ghost use Rattle.std.specs.Prelude.{◌≡◌, ◌<◌, ◌≤◌, ◌+◌, ◌^◌, ℕ, if◌then◌else◌, length, slice_get, slice_index, true, Some, None, IfErr, IfOk, IfSome, option_map};
ghost use Rattle.std.specs.Result.{is_ok};
ghost use Rattle.address_map.specs.Pairs.{AllRise};
ghost use Rattle.alpha_machine.specs.Step.{state_of};
ghost use Rattle.alpha_meaning.specs.Act.{taken};
ghost use Rattle.alpha_meaning.specs.Pieces.{most_words};
ghost use Rattle.alpha_meaning.specs.Result.{result_of};
ghost use Rattle.alpha_meaning.specs.State.{at_place, regs_of};
ghost use Rattle.block_law.specs.Translations.{Code};
ghost use Rattle.prepared_code.specs.Effects.{behind};
ghost use Rattle.prepared_code.specs.Flats.{AreStraight, IsFork, IsInForm, effect, operand, way_out};
ghost use Rattle.prepared_code.specs.declared.flat.Flat.{Flat};
ghost use Rattle.prepared_code.specs.Inside.{Crosses, local_at, step_in, steps_in};
ghost use Rattle.prepared_code.specs.Known.{guess};
ghost use Rattle.prepared_code.specs.Strides.{IsStride, Rests, arrives, fork_of, steps_next, stride_of};

use crate::effect::{Effect, clear_31, commit, effect_of, register, write};
use crate::flat::{Flat, Way};
use crate::place::Stepping;
use crate::prepared::Prepared;
use alpha_encode::BranchOp;
use alpha_machine::Cpu;
use alpha_meaning::{is_taken, result};

/// How far some steps came.
#[derive(Clone, Copy)]
enum Stride {
    /// So many steps inside the block.
    Inside(u64),
    /// One step, to another block.
    Landed,
}

/// The second operand of a straight word.
#[inline(always)]
fn operand(cpu: &Cpu, flat: &Flat) -> u64
    requires form { IsInForm flat.now }
    requires zero { slice_index cpu.now.r 31 ≡ 0 }
    ensures { result ≡ operand flat.now (regs_of cpu.now.r) }
{
    register(cpu, flat.b).wrapping_add(flat.literal)
}

/// The result of a straight word.
#[inline(always)]
pub(crate) fn value_of(cpu: &Cpu, flat: &Flat) -> u64
    requires form { IsInForm flat.now }
    requires zero { slice_index cpu.now.r 31 ≡ 0 }
    ensures { result ≡ result_of flat.now.op (regs_of cpu.now.r flat.now.a) (operand flat.now (regs_of cpu.now.r)) (regs_of cpu.now.r flat.now.c) }
{
    let (a, b) = (register(cpu, flat.a), operand(cpu, flat));
    result(flat.op, a, b, register(cpu, flat.c))
}

/// Makes the step of a straight word, but for the program counter.
#[inline(always)]
fn operate(cpu: &mut Cpu, flat: &Flat)
    requires form { IsInForm flat.now }
    requires zero { slice_index cpu.old.r 31 ≡ 0 }
    ensures is { state_of cpu.new ≡ at_place (effect flat.now (regs_of cpu.old.r)) cpu.old.pc }
    ensures zero { slice_index cpu.new.r 31 ≡ 0 }
{
    let value = value_of(cpu, flat);
    write(cpu, flat.c, value);
}

/// Makes the steps of so many straight words.
#[inline(always)]
fn go_straight<L>(cpu: &mut Cpu, flats: &[Flat], count: usize)
    requires zero { slice_index cpu.old.r 31 ≡ 0 }
    requires few { length flats.now ≤ most_words }
    requires within { cpu.old.pc + count ≤ length flats.now }
    requires form { (k : ℕ) (f : Flat) → k < count → slice_get flats.now (cpu.old.pc + k) ≡ Some f → IsInForm f }
    ensures zero { slice_index cpu.new.r 31 ≡ 0 }
    ensures ran { (code : Code) → AreStraight code flats.now cpu.old.pc count → steps_in code (state_of cpu.old) count ≡ Some (state_of cpu.new) }
{
    let first = cpu.pc as usize;
    for made in 0..count {
        operate(cpu, &flats[first + made]);
    }
    cpu.pc += count as u32;
}

/// Makes the step of a branch that goes on inside its block.
#[inline(always)]
fn go_by_branch(cpu: &mut Cpu, flat: &Flat, op: BranchOp)
    requires register { flat.now.a < 32 }
    requires target { flat.now.literal < 2 ^ 32 }
    requires more { cpu.old.pc + 1 < 2 ^ 32 }
    requires zero { slice_index cpu.old.r 31 ≡ 0 }
    ensures zero { slice_index cpu.new.r 31 ≡ 0 }
    ensures is { state_of cpu.new ≡ at_place (regs_of cpu.old.r) (if taken op (regs_of cpu.old.r flat.now.a) then flat.now.literal else cpu.old.pc + 1) }
{
    cpu.pc = way_out(cpu, flat, op);
}

/// Where a branch goes.
#[inline(always)]
pub(crate) fn way_out(cpu: &Cpu, flat: &Flat, op: BranchOp) -> u32
    requires register { flat.now.a < 32 }
    requires target { flat.now.literal < 2 ^ 32 }
    requires more { cpu.now.pc + 1 < 2 ^ 32 }
    requires zero { slice_index cpu.now.r 31 ≡ 0 }
    ensures { result ≡ way_out flat.now op cpu.now.pc (regs_of cpu.now.r) }
{
    if is_taken(op, register(cpu, flat.a)) {
        flat.literal as u32
    } else {
        cpu.pc + 1
    }
}

impl<'a> Prepared<'a> {
    // What the next step does, where it is local.
    #[inline(always)]
    pub(crate) fn effect_at(&self, cpu: &Cpu) -> Option<Effect>
        requires zero { slice_index cpu.now.r 31 ≡ 0 }
        ensures is { option_map (behind (state_of cpu.now)) result ≡ local_at self.now.code (state_of cpu.now) }
        ensures register { IfSome result (λ e. e.register < 32) }
    {
        match self.instr_at(cpu.pc) {
            Some(instr) => effect_of(cpu, instr),
            None => None,
        }
    }

    // The same, where it goes on inside a block.
    #[inline(always)]
    fn effect_inside(&self, cpu: &Cpu) -> Option<Effect>
        requires zero { slice_index cpu.now.r 31 ≡ 0 }
        ensures is { option_map (behind (state_of cpu.now)) result ≡ step_in self.now.code (state_of cpu.now) }
        ensures register { IfSome result (λ e. e.register < 32) }
    {
        match self.effect_at(cpu) {
            Some(effect) => {
                if self.begins(effect.next) {
                    None
                } else {
                    Some(effect)
                }
            }
            None => None,
        }
    }

    // Makes the step of a word of which nothing is told, where it goes on inside a block.
    #[inline(always)]
    fn other_step(&self, cpu: &mut Cpu) -> u64
        requires zero { slice_index cpu.old.r 31 ≡ 0 }
        ensures zero { slice_index cpu.new.r 31 ≡ 0 }
        ensures most { result ≤ 1 }
        ensures ran { steps_in self.now.code (state_of cpu.old) result ≡ Some (state_of cpu.new) }
        ensures stops { result ≡ 0 → step_in self.now.code (state_of cpu.new) ≡ None }
    {
        match self.effect_inside(cpu) {
            Some(effect) => {
                commit(cpu, effect);
                1
            }
            None => 0,
        }
    }

    // Makes the step of a branch that may leave its block, where it goes on inside.
    #[inline(always)]
    fn fork_inside(&self, cpu: &mut Cpu, flat: &Flat, op: BranchOp) -> u64
        requires fork { IsFork self.now.code cpu.old.pc flat.now op }
        requires more { cpu.old.pc + 1 < 2 ^ 32 }
        requires zero { slice_index cpu.old.r 31 ≡ 0 }
        ensures zero { slice_index cpu.new.r 31 ≡ 0 }
        ensures most { result ≤ 1 }
        ensures ran { steps_in self.now.code (state_of cpu.old) result ≡ Some (state_of cpu.new) }
        ensures stops { result ≡ 0 → step_in self.now.code (state_of cpu.new) ≡ None }
    {
        let next = way_out(cpu, flat, op);
        if self.begins(next) {
            return 0;
        }
        cpu.pc = next;
        1
    }

    // Makes the steps inside the block that one look at the word makes, at most so many. None is made only where the next step is
    // none inside a block.
    #[inline(always)]
    fn stride(&self, cpu: &mut Cpu, most: u64) -> u64
        requires some { 0 < most }
        requires zero { slice_index cpu.old.r 31 ≡ 0 }
        ensures zero { slice_index cpu.new.r 31 ≡ 0 }
        ensures most { result ≤ most }
        ensures look { result ≡ steps_next self.now.code (state_of cpu.old) most }
        ensures ran { steps_in self.now.code (state_of cpu.old) result ≡ Some (state_of cpu.new) }
        ensures stops { result ≡ 0 → step_in self.now.code (state_of cpu.new) ≡ None }
    {
        let flats = self.flats();
        let Some(flat) = flats.get(cpu.pc as usize) else {
            return self.other_step(cpu);
        };
        if flat.number > 0 {
            let count = most.min(u64::from(flat.number));
            go_straight::<Stepping>(cpu, flats, count as usize);
            return count;
        }
        match flat.way {
            Way::Other => self.other_step(cpu),
            Way::Stops => 0,
            Way::Lands => 0,
            Way::Ends => 0,
            Way::Branches(op) => {
                go_by_branch(cpu, flat, op);
                1
            }
            Way::Forks(op) => self.fork_inside(cpu, flat, op),
        }
    }

    #[inline(always)]
    fn steps_in(&self, cpu: &mut Cpu, most: u64) -> u64
        requires zero { slice_index cpu.old.r 31 ≡ 0 }
        ensures zero { slice_index cpu.new.r 31 ≡ 0 }
        ensures most { result ≤ most }
        ensures ran { steps_in self.now.code (state_of cpu.old) result ≡ Some (state_of cpu.new) }
        ensures stops { result < most → step_in self.now.code (state_of cpu.new) ≡ None }
    {
        let mut made = 0;
        while made < most {
            let more = self.stride(cpu, most - made);
            if more == 0 {
                return made;
            }
            made += more;
        }
        made
    }

    /// Makes local steps, each of which goes on inside a block, but at most so many, and tells how many it made. Fewer are
    /// made only where the next is none. Register 31 stands as it reads then.
    #[inline(always)]
    pub fn run_inside(&self, cpu: &mut Cpu, most: u64) -> u64
        ensures zero { slice_index cpu.new.r 31 ≡ 0 }
        ensures most { result ≤ most }
        ensures ran { steps_in self.now.code (state_of cpu.old) result ≡ Some (state_of cpu.new) }
        ensures stops { result < most → step_in self.now.code (state_of cpu.new) ≡ None }
    {
        clear_31(cpu);
        self.steps_in(cpu, most)
    }

    /// A guess: within how many steps, all local, the word comes to another block; 0 where none is made.
    #[inline(always)]
    pub fn guess(&self, word: u32) -> u64
        ensures { result ≡ guess self.now.code word }
    {
        match self.flats().get(word as usize) {
            Some(flat) => u64::from(flat.within),
            None => 0,
        }
    }

    // Makes the step of a branch that may leave its block.
    #[inline(always)]
    fn fork_over<L>(&self, cpu: &mut Cpu, flat: &Flat, op: BranchOp) -> Stride
        requires rise { AllRise self.now.code.map }
        requires fork { IsFork self.now.code cpu.old.pc flat.now op }
        requires more { cpu.old.pc + 1 < 2 ^ 32 }
        requires zero { slice_index cpu.old.r 31 ≡ 0 }
        ensures zero { slice_index cpu.new.r 31 ≡ 0 }
        ensures is { IsStride self.now.code cpu.old cpu.new 1 result }
        ensures just { result ≡ fork_of self.now.code (state_of cpu.old) }
    {
        cpu.pc = way_out(cpu, flat, op);
        if self.begins(cpu.pc) {
            Stride::Landed
        } else {
            Stride::Inside(1)
        }
    }

    // Makes the steps inside the block that one look at the word makes, at most so many, or the one to another block that the
    // word tells.
    #[inline(always)]
    fn stride_over<L>(&self, cpu: &mut Cpu, most: u64) -> Stride
        requires some { 0 < most }
        requires zero { slice_index cpu.old.r 31 ≡ 0 }
        ensures zero { slice_index cpu.new.r 31 ≡ 0 }
        ensures is { IsStride self.now.code cpu.old cpu.new most result }
        ensures just { result ≡ stride_of self.now.code (state_of cpu.old) most }
    {
        let flats = self.flats();
        let Some(flat) = flats.get(cpu.pc as usize) else {
            return Stride::Inside(0);
        };
        if flat.number > 0 {
            let count = most.min(u64::from(flat.number));
            go_straight::<L>(cpu, flats, count as usize);
            return Stride::Inside(count);
        }
        match flat.way {
            Way::Other => Stride::Inside(self.other_step(cpu)),
            Way::Stops => Stride::Inside(0),
            Way::Lands => {
                cpu.pc = flat.literal as u32;
                Stride::Landed
            }
            Way::Ends => {
                operate(cpu, flat);
                cpu.pc += 1;
                Stride::Landed
            }
            Way::Branches(op) => {
                go_by_branch(cpu, flat, op);
                Stride::Inside(1)
            }
            Way::Forks(op) => self.fork_over::<L>(cpu, flat, op),
        }
    }

    /// Goes through the block there and arrives at another, by local steps alone, at most so many, and tells how many. Err:
    /// the words tell of no such steps, and it stands behind so many inside the block, where they end.
    #[inline(always)]
    pub fn cross<L>(&self, cpu: &mut Cpu, most: u64) -> Result<u64, u64>
        ensures zero { slice_index cpu.new.r 31 ≡ 0 }
        ensures just { is_ok result ≡ arrives self.now.code (state_of cpu.old) most }
        ensures crosses { IfOk result (λ steps. (steps ≤ most) × Crosses self.now.code cpu.old cpu.new steps) }
        ensures rests { IfErr result (Rests self.now.code cpu.old cpu.new most) }
    {
        clear_31(cpu);
        let mut made = 0;
        while made < most {
            match self.stride_over::<L>(cpu, most - made) {
                Stride::Inside(0) => return Err(made),
                Stride::Inside(steps) => made += steps,
                Stride::Landed => return Ok(made + 1),
            }
        }
        Err(made)
    }
}
