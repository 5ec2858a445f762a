// Local steps, one after the other.
ghost use Rattle.std.specs.Prelude.{◌≡◌, ◌<◌, ◌≤◌, ◌+◌, ◌^◌, ℕ, List, slice_index, true, false, [], Some, None, IfErr, IfOk, IsErr};
ghost use Rattle.alpha_machine.specs.Step.{state_of};
ghost use Rattle.alpha_meaning.specs.State.{at_place};
ghost use Rattle.prepared_code.specs.Effects.{behind};
ghost use Rattle.prepared_code.specs.Inside.{step_in};
ghost use Rattle.prepared_code.specs.Probes.{passes};
ghost use Rattle.exception_records.specs.Shown.{still_held};
ghost use Rattle.image_meaning.specs.Meant.{codes_written};
ghost use Rattle.tie_switch.specs.Courses.{Goes, HasOpcode, HoldsNone, boundary_by, landed_there};
ghost use Rattle.tie_switch.specs.Glides.{IsGlide, IsGlideOn, is_plain};
ghost use Rattle.tie_switch.specs.Keeps.{IsKeep, IsKept, IsPlainRun, row_behind};
ghost use Rattle.system_model.specs.declared.translation.Range as model;
ghost use Rattle.tie_switch.specs.Inside.{block_rules, goes_on_locally};
ghost use Rattle.tie_switch.specs.Settings.{image_setting};
ghost use Rattle.vax_form.specs.Pages.{code_byte_at};
ghost use Rattle.vax_form.specs.declared.state.Pending.TheVariants.{Nothing};
ghost use Rattle.vax_form.specs.declared.state.VaxState.{VaxState};

use crate::laws::{landings_are_turns, probes_are_turns, steps_are_turns};
use crate::setting::codes_by;
use alpha_machine::Cpu;
use exception_records::{Rules, still_held};
use prepared_code::{Block, Gliding, Landing, Prepared, Stepping};
use system_model::{Range, shown, word_for};
use vax_form::{Flags, Pages, VaxState};

/// At that many landings in a row at which something is guessed a course glides.
const MOST_IN_A_ROW: u64 = 2;

/// Where the processor landed: its registers there, and the block.
#[derive(Clone, Copy)]
pub(crate) struct Landed {
    pub cpu: Cpu,
    pub block: Block,
}

/// A processor in Alpha code. Its boundary is where it landed last, and is worked out when it is asked for.
#[derive(Clone, Copy)]
pub(crate) struct Course {
    pub cpu: Cpu,
    pub landed: Option<Landed>,
    pub held: Flags,
    pub retired: u64,
}

fn block_rules(block: &Block) -> Rules
    ensures { result ≡ block_rules block.now.rules }
{
    match block.rules {
        Some(rules) => rules,
        None => Rules::READY,
    }
}

impl Course {
    /// The boundary, and all else as it was before.
    pub(crate) fn boundary(&self, before: &VaxState) -> VaxState
        ensures { result ≡ boundary_by before.now self.now.held self.now.landed }
    {
        match &self.landed {
            None => *before,
            Some(landed) => VaxState {
                pending: before.pending,
                ..shown(
                    &landed.cpu,
                    landed.block.address,
                    &block_rules(&landed.block),
                    &self.held,
                    before.handler,
                )
            },
        }
    }

    // The opcode of its instruction.
    fn opcode(&self, pages: &Pages, before: &VaxState) -> Option<u8>
        requires opcode { HasOpcode pages.now self.now.landed }
        ensures { result ≡ code_byte_at pages.now (boundary_by before.now self.now.held self.now.landed).pc }
    {
        match &self.landed {
            None => pages.code_byte(before.pc),
            Some(landed) => landed.block.opcode,
        }
    }

    // The codes that are still held behind its instruction, whose opcode is looked at where any is.
    fn held_behind(&self, pages: &Pages, before: &VaxState) -> Flags
        requires opcode { HasOpcode pages.now self.now.landed }
        ensures { result ≡ still_held self.now.held (codes_written pages.now (boundary_by before.now self.now.held self.now.landed).pc) }
    {
        let held = self.held;
        if held.n || held.z || held.v || held.c {
            still_held(&held, &codes_by(self.opcode(pages, before)))
        } else {
            held
        }
    }

    // It landed at that block.
    #[inline(always)]
    fn note(&mut self, block: Block)
        ensures { self.new ≡ record self.old { landed = Some (record { cpu = self.old.cpu; block = block }) } }
    {
        match &mut self.landed {
            Some(landed) => {
                landed.cpu.r = self.cpu.r;
                landed.cpu.pc = self.cpu.pc;
                landed.block = block;
            }
            None => {
                self.landed = Some(Landed {
                    cpu: self.cpu,
                    block,
                });
            }
        }
    }

    // Makes that step, which goes on in Alpha code at that word.
    fn arrive(&mut self, landing: &Landing, word: u32, held: Flags)
        requires register { landing.now.effect.register < 32 }
        requires room { self.old.retired + 1 < 2 ^ 64 }
        ensures cpu { state_of self.new.cpu ≡ at_place (behind (state_of self.old.cpu) landing.now.effect).regs word }
        ensures landed { self.new.landed ≡ Some (record { cpu = self.new.cpu; block = landing.now.block }) }
        ensures held { self.new.held ≡ held }
        ensures retired { self.new.retired ≡ self.old.retired + 1 }
    {
        landing.make(&mut self.cpu);
        self.cpu.pc = word;
        self.note(landing.block);
        self.held = held;
        self.retired += 1;
    }

    // Makes the step that arrives at a block where the thread goes on in Alpha code. Any other step is left to be made.
    #[inline(never)]
    fn land(
        &mut self,
        prepared: &Prepared<'_>,
        ranges: &[Range],
        thread: u8,
        before: &VaxState,
    ) -> bool
        requires zero { slice_index self.old.cpu.r 31 ≡ 0 }
        requires nothing { before.now.pending ≡ Nothing }
        requires room { self.old.retired + 1 < 2 ^ 64 }
        requires inside { step_in prepared.now.code (state_of self.old.cpu) ≡ None }
        requires opcode { HasOpcode prepared.now.pages self.old.landed }
        ensures opcode { HasOpcode prepared.now.pages self.new.landed }
        ensures lands { result ≡ true → Goes (image_setting prepared.now.pages prepared.now.code ranges.now) thread before.now self.old self.new 1 }
        ensures retired { result ≡ true → self.new.retired ≡ self.old.retired + 1 }
        ensures stays { result ≡ false → self.new ≡ self.old }
        ensures stops { result ≡ false → goes_on_locally (image_setting prepared.now.pages prepared.now.code ranges.now) thread (state_of self.new.cpu) ≡ false }
    {
        landings_are_turns();
        let Some(landing) = prepared.landing(&self.cpu) else {
            return false;
        };
        let Some(word) = word_for(prepared.map(), ranges, thread, landing.block.address) else {
            return false;
        };
        let held = self.held_behind(prepared.pages(), before);
        self.arrive(&landing, word, held);
        true
    }

    // The same, where the word isn't known to make no local step.
    #[inline(always)]
    fn land_at_once(
        &mut self,
        prepared: &Prepared<'_>,
        ranges: &[Range],
        thread: u8,
        before: &VaxState,
    ) -> bool
        requires zero { slice_index self.old.cpu.r 31 ≡ 0 }
        requires nothing { before.now.pending ≡ Nothing }
        requires room { self.old.retired + 1 < 2 ^ 64 }
        requires inside { step_in prepared.now.code (state_of self.old.cpu) ≡ None }
        requires opcode { HasOpcode prepared.now.pages self.old.landed }
        ensures opcode { HasOpcode prepared.now.pages self.new.landed }
        ensures lands { result ≡ true → Goes (image_setting prepared.now.pages prepared.now.code ranges.now) thread before.now self.old self.new 1 }
        ensures retired { result ≡ true → self.new.retired ≡ self.old.retired + 1 }
        ensures stays { result ≡ false → self.new ≡ self.old }
        ensures stops { result ≡ false → goes_on_locally (image_setting prepared.now.pages prepared.now.code ranges.now) thread (state_of self.new.cpu) ≡ false }
    {
        landings_are_turns();
        if prepared.stops_at(&self.cpu) {
            return false;
        }
        self.land(prepared, ranges, thread, before)
    }

    // Makes a probe that goes on inside its block.
    #[inline(always)]
    fn probe<L>(&mut self, prepared: &Prepared<'_>) -> bool
        ensures just { result ≡ passes prepared.now (state_of self.old.cpu) }
        ensures there { result ≡ true → self.new.cpu ≡ record self.old.cpu { pc = self.old.cpu.pc + 1 } }
        ensures landed { self.new.landed ≡ self.old.landed }
        ensures held { self.new.held ≡ self.old.held }
        ensures retired { self.new.retired ≡ self.old.retired }
        ensures passes { result ≡ true → (ranges : List model.Range) (thread : ℕ) (before : VaxState)
            → Goes (image_setting prepared.now.pages prepared.now.code ranges) thread before self.old self.new 1 }
        ensures stays { result ≡ false → self.new ≡ self.old }
    {
        probes_are_turns();
        if prepared.passes::<L>(&self.cpu) {
            self.cpu.pc += 1;
            return true;
        }
        false
    }

    // Makes a step that leads to the next block, or a probe. Any other step is left to be made.
    #[inline(always)]
    fn step_on(
        &mut self,
        prepared: &Prepared<'_>,
        ranges: &[Range],
        thread: u8,
        before: &VaxState,
    ) -> bool
        requires zero { slice_index self.old.cpu.r 31 ≡ 0 }
        requires nothing { before.now.pending ≡ Nothing }
        requires room { self.old.retired + 1 < 2 ^ 64 }
        requires inside { step_in prepared.now.code (state_of self.old.cpu) ≡ None }
        requires opcode { HasOpcode prepared.now.pages self.old.landed }
        ensures opcode { HasOpcode prepared.now.pages self.new.landed }
        ensures goes { result ≡ true → Goes (image_setting prepared.now.pages prepared.now.code ranges.now) thread before.now self.old self.new 1 }
        ensures retired { self.new.retired ≤ self.old.retired + 1 }
        ensures stays { result ≡ false → self.new ≡ self.old }
        ensures probes { result ≡ false → passes prepared.now (state_of self.new.cpu) ≡ false }
        ensures stops { result ≡ false → goes_on_locally (image_setting prepared.now.pages prepared.now.code ranges.now) thread (state_of self.new.cpu) ≡ false }
    {
        self.probe::<Stepping>(prepared) || self.land_at_once(prepared, ranges, thread, before)
    }

    // Makes steps inside a block and the one that leads to the next, or a probe. Tells how many, and whether it goes on.
    #[inline(never)]
    fn cross(
        &mut self,
        prepared: &Prepared<'_>,
        ranges: &[Range],
        thread: u8,
        before: &VaxState,
        most: u64,
    ) -> (u64, bool)
        requires nothing { before.now.pending ≡ Nothing }
        requires room { self.old.retired + most < 2 ^ 64 }
        requires opcode { HasOpcode prepared.now.pages self.old.landed }
        ensures opcode { HasOpcode prepared.now.pages self.new.landed }
        ensures most { result.0 ≤ most }
        ensures some { result.1 ≡ true → 0 < result.0 }
        ensures goes { Goes (image_setting prepared.now.pages prepared.now.code ranges.now) thread before.now self.old self.new result.0 }
        ensures retired { self.new.retired ≤ self.old.retired + result.0 }
        ensures probes { result.1 ≡ false → result.0 < most → passes prepared.now (state_of self.new.cpu) ≡ false }
        ensures stops { result.1 ≡ false → result.0 < most → goes_on_locally (image_setting prepared.now.pages prepared.now.code ranges.now) thread (state_of self.new.cpu) ≡ false }
    {
        steps_are_turns();
        let inside = prepared.run_inside(&mut self.cpu, most);
        if inside < most && self.step_on(prepared, ranges, thread, before) {
            (inside + 1, true)
        } else {
            (inside, false)
        }
    }

    // It holds no code, and no address of any thread is interpreted.
    #[inline(always)]
    fn is_plain(&self, ranges: &[Range]) -> bool
        ensures just { result ≡ is_plain ranges.now self.now.held }
        ensures plain { result ≡ true → (ranges.now ≡ []) × HoldsNone self.now.held }
    {
        let held = self.held;
        ranges.is_empty() && !(held.n || held.z || held.v || held.c)
    }

    // It landed at the block that begins there.
    #[inline(always)]
    fn note_there<L>(&mut self, prepared: &Prepared<'_>)
        requires opcode { HasOpcode prepared.now.pages self.old.landed }
        ensures is { self.new ≡ record self.old { landed = landed_there prepared.now self.old.cpu self.old.landed } }
        ensures opcode { HasOpcode prepared.now.pages self.new.landed }
    {
        if let Some(block) = prepared.block_at::<L>(self.cpu.pc) {
            self.note(block);
        }
    }

    // Goes through blocks that are guessed to have local steps alone, and looks where it landed at their end. Where one has
    // others it stands where it stood, and tells how many steps led to that block.
    #[inline(never)]
    fn glide(&mut self, prepared: &Prepared<'_>, most: u64) -> Result<u64, u64>
        requires plain { HoldsNone self.old.held }
        requires room { self.old.retired + most < 2 ^ 64 }
        requires opcode { HasOpcode prepared.now.pages self.old.landed }
        ensures opcode { HasOpcode prepared.now.pages self.new.landed }
        ensures glides { IsGlide prepared.now.code most self.old.cpu self.new.cpu result }
        ensures most { IfOk result (λ steps. steps ≤ most) }
        ensures goes { IfOk result (λ steps. (thread : ℕ) (before : VaxState) → before.pending ≡ Nothing
            → Goes (image_setting prepared.now.pages prepared.now.code []) thread before self.old self.new steps) }
        ensures retired { IfOk result (λ steps. self.new.retired ≤ self.old.retired + steps) }
        ensures stays { IsErr result → self.new ≡ self.old }
        ensures held { self.new.held ≡ self.old.held }
        ensures few { IfErr result (λ steps. steps < most) }
    {
        steps_are_turns();
        landings_are_turns();
        let start = self.cpu;
        let (mut made, mut crossed) = (0, 0);
        while made < most {
            let within = prepared.guess(self.cpu.pc);
            if within == 0 || within > most - made {
                break;
            }
            let Ok(steps) = prepared.cross::<Gliding>(&mut self.cpu, within) else {
                self.cpu = start;
                return Err(made);
            };
            made += steps;
            crossed += 1;
        }
        if made > 0 {
            self.note_there::<Gliding>(prepared);
        }
        self.retired += crossed;
        Ok(made)
    }

    // How many steps it makes as `glide` does; none where it stays.
    #[inline(always)]
    fn glide_on(&mut self, prepared: &Prepared<'_>, most: u64) -> u64
        requires plain { HoldsNone self.old.held }
        requires room { self.old.retired + most < 2 ^ 64 }
        requires opcode { HasOpcode prepared.now.pages self.old.landed }
        ensures opcode { HasOpcode prepared.now.pages self.new.landed }
        ensures held { self.new.held ≡ self.old.held }
        ensures glides { IsGlideOn prepared.now.code most self.old.cpu self.new.cpu result }
        ensures most { result ≤ most }
        ensures goes { (thread : ℕ) (before : VaxState) → before.pending ≡ Nothing
            → Goes (image_setting prepared.now.pages prepared.now.code []) thread before self.old self.new result }
        ensures retired { self.new.retired ≤ self.old.retired + result }
    {
        match self.glide(prepared, most) {
            Ok(steps) => steps,
            Err(_) => 0,
        }
    }

    // How many landings in a row something is guessed at, where it landed once more.
    #[inline(always)]
    fn guessed_in_a_row(&self, prepared: &Prepared<'_>, before: u64) -> u64
        requires { before < MOST_IN_A_ROW }
        ensures { result ≡ row_behind prepared.now.code self.now.cpu before }
    {
        if prepared.guess(self.cpu.pc) == 0 {
            0
        } else {
            before + 1
        }
    }

    // Goes through a block and keeps where it landed, or makes steps inside one and the probe behind them. Tells how many, at
    // how many landings in a row something is guessed then, and whether there is neither.
    #[inline(always)]
    fn keep_one<L>(&mut self, prepared: &Prepared<'_>, most: u64, row: u64) -> (u64, u64, bool)
        requires plain { HoldsNone self.old.held }
        requires room { self.old.retired + most < 2 ^ 64 }
        requires opcode { HasOpcode prepared.now.pages self.old.landed }
        requires some { 0 < most }
        requires row { row < MOST_IN_A_ROW }
        ensures opcode { HasOpcode prepared.now.pages self.new.landed }
        ensures held { self.new.held ≡ self.old.held }
        ensures most { result.0 ≤ most }
        ensures row { result.1 ≤ MOST_IN_A_ROW }
        ensures keeps { IsKept prepared.now most row self.old.cpu self.new.cpu result }
        ensures some { result.2 ≡ false → 0 < result.0 }
        ensures goes { (thread : ℕ) (before : VaxState) → before.pending ≡ Nothing
            → Goes (image_setting prepared.now.pages prepared.now.code []) thread before self.old self.new result.0 }
        ensures retired { self.new.retired ≤ self.old.retired + result.0 }
        ensures inside { result.2 ≡ true → step_in prepared.now.code (state_of self.new.cpu) ≡ None }
        ensures probes { result.2 ≡ true → passes prepared.now (state_of self.new.cpu) ≡ false }
    {
        steps_are_turns();
        landings_are_turns();
        match prepared.cross::<L>(&mut self.cpu, most) {
            Ok(steps) => {
                self.note_there::<L>(prepared);
                self.retired += 1;
                (steps, self.guessed_in_a_row(prepared, row), false)
            }
            Err(steps) => {
                if steps == most {
                    (steps, row, false)
                } else if self.probe::<L>(prepared) {
                    (steps + 1, row, false)
                } else {
                    (steps, row, true)
                }
            }
        }
    }

    // Makes steps and probes, and keeps each landing, up to the last of some in a row at which something is guessed. Tells how
    // many, and whether it ends before where there is none.
    #[inline(always)]
    fn keep<L>(&mut self, prepared: &Prepared<'_>, most: u64) -> (u64, bool)
        requires plain { HoldsNone self.old.held }
        requires room { self.old.retired + most < 2 ^ 64 }
        requires opcode { HasOpcode prepared.now.pages self.old.landed }
        ensures opcode { HasOpcode prepared.now.pages self.new.landed }
        ensures held { self.new.held ≡ self.old.held }
        ensures most { result.0 ≤ most }
        ensures some { 0 < most → result.1 ≡ false → 0 < result.0 }
        ensures keeps { IsKeep prepared.now most self.old.cpu self.new.cpu result }
        ensures goes { (thread : ℕ) (before : VaxState) → before.pending ≡ Nothing
            → Goes (image_setting prepared.now.pages prepared.now.code []) thread before self.old self.new result.0 }
        ensures retired { self.new.retired ≤ self.old.retired + result.0 }
        ensures inside { result.1 ≡ true → step_in prepared.now.code (state_of self.new.cpu) ≡ None }
        ensures probes { result.1 ≡ true → passes prepared.now (state_of self.new.cpu) ≡ false }
    {
        let (mut made, mut row) = (0, 0);
        while made < most {
            let (steps, next, rests) = self.keep_one::<L>(prepared, most - made, row);
            made += steps;
            if rests {
                return (made, true);
            }
            if next == MOST_IN_A_ROW {
                return (made, false);
            }
            row = next;
        }
        (made, false)
    }

    // Makes steps and probes where it is plain, block after block. Tells how many, and whether it ends at an access or a call.
    #[inline(always)]
    fn run_plain<L>(&mut self, prepared: &Prepared<'_>, ranges: &[Range], most: u64) -> (u64, bool)
        requires room { self.old.retired + most < 2 ^ 64 }
        requires opcode { HasOpcode prepared.now.pages self.old.landed }
        ensures opcode { HasOpcode prepared.now.pages self.new.landed }
        ensures most { result.0 ≤ most }
        ensures runs { is_plain ranges.now self.old.held ≡ true → IsPlainRun prepared.now most self.old.cpu self.new.cpu result }
        ensures stays { is_plain ranges.now self.old.held ≡ false → (result ≡ (0, false)) × (self.new ≡ self.old) }
        ensures goes { (thread : ℕ) (before : VaxState) → before.pending ≡ Nothing
            → Goes (image_setting prepared.now.pages prepared.now.code ranges.now) thread before self.old self.new result.0 }
        ensures retired { self.new.retired ≤ self.old.retired + result.0 }
        ensures probes { result.1 ≡ true → passes prepared.now (state_of self.new.cpu) ≡ false }
        ensures stops { result.1 ≡ true → (thread : ℕ) → goes_on_locally (image_setting prepared.now.pages prepared.now.code ranges.now) thread (state_of self.new.cpu) ≡ false }
    {
        if !self.is_plain(ranges) {
            return (0, false);
        }
        let mut made = 0;
        while made < most {
            let (steps, rests) = self.keep::<L>(prepared, most - made);
            made += steps;
            if rests {
                return (made, prepared.stops_at(&self.cpu));
            }
            made += self.glide_on(prepared, most - made);
        }
        (made, false)
    }

    /// Makes local steps and probes, inside blocks and from block to block, and tells how many: at most so many, and only
    /// those behind which the thread goes on in Alpha code. Fewer are made only where the next is neither.
    #[inline(always)]
    pub(crate) fn run<L>(
        &mut self,
        prepared: &Prepared<'_>,
        ranges: &[Range],
        thread: u8,
        before: &VaxState,
        most: u64,
    ) -> u64
        requires nothing { before.now.pending ≡ Nothing }
        requires room { self.old.retired + most < 2 ^ 64 }
        requires opcode { HasOpcode prepared.now.pages self.old.landed }
        ensures opcode { HasOpcode prepared.now.pages self.new.landed }
        ensures most { result ≤ most }
        ensures goes { Goes (image_setting prepared.now.pages prepared.now.code ranges.now) thread before.now self.old self.new result }
        ensures retired { self.new.retired ≤ self.old.retired + result }
        ensures probes { result < most → passes prepared.now (state_of self.new.cpu) ≡ false }
        ensures stops { result < most → goes_on_locally (image_setting prepared.now.pages prepared.now.code ranges.now) thread (state_of self.new.cpu) ≡ false }
    {
        let mut made = 0;
        while made < most {
            let (steps, is_over) = self.run_plain::<L>(prepared, ranges, most - made);
            made += steps;
            if is_over {
                return made;
            }
            let (steps, goes_on) = self.cross(prepared, ranges, thread, before, most - made);
            made += steps;
            if !goes_on {
                return made;
            }
        }
        made
    }
}
