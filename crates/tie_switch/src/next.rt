// What the word at which a processor stands does.
ghost use Rattle.std.specs.Prelude.{◌≡◌, ◌≢◌, ◌≤◌, ◌<◌, length};
ghost use Rattle.alpha_machine.specs.Step.{state_of};
ghost use Rattle.alpha_meaning.specs.Pieces.{loaded, most_words};
ghost use Rattle.block_law.specs.Translations.{fetch_of};
ghost use Rattle.system_model.specs.Processors.{moment_of};
ghost use Rattle.system_model.specs.Steps.{Stuck, next, held_behind, place_of, behind, state_at};
ghost use Rattle.tie_switch.specs.Accesses.{AllCanAsk, Fits, IsFetched, IsNextBy};
ghost use Rattle.tie_switch.specs.Seen as seen;
ghost use Rattle.tie_switch.specs.Seen.{finished_by, setting_of, next_of, place_behind};

use crate::place::{Next, Place, Wanted};
use crate::processor::Processor;
use crate::registers::with_r0;
use crate::setting::{Setting, codes_written, rules_at};
use alpha_machine::{AlphaStep, Cpu, finish, step};
use alpha_meaning::AlphaAccess;
use exception_records::{Rules, still_held};
use system_model::shown;
use vax_form::{Flags, VaxState};
use vt_words::field;

/// Finishes an access that found that, with the registers in place.
pub(crate) fn finish_access(
    setting: Setting<'_>,
    cpu: &mut Cpu,
    access: AlphaAccess,
    before: u64,
    success: bool,
)
    requires few { length setting.code.now.words ≤ most_words }
    requires fetched { IsFetched setting.code.now.words cpu.old.pc }
    requires fits { Fits (Wanted.Access access) }
    ensures { state_of cpu.new ≡ finished_by (fetch_of setting.entry.code.now.words cpu.old.pc) (loaded access before) success (state_of cpu.old) }
{
    let at = (access.address % 8) as u32;
    let value = field(before, at, u32::from(access.bytes));
    let code = setting.code;
    finish(cpu, &code.words, value, success);
}

impl Processor {
    ghost use Rattle.tie_switch.specs.Processors.{processor_of};

    /// The codes that are still held behind the instruction.
    pub(crate) fn held_behind(&self, setting: Setting<'_>) -> Flags
        ensures { result ≡ held_behind (setting_of setting.entry) (moment_of (processor_of self.now)) }
    {
        let written = codes_written(setting.pages, self.boundary.pc);
        still_held(&self.held, &written)
    }

    /// The state that registers show at a PC, and all else as it was at the boundary.
    pub(crate) fn state_at(&self, cpu: &Cpu, pc: u32, rules: &Rules, held: &Flags) -> VaxState
        ensures { result ≡ state_at (processor_of self.now).boundary (state_of cpu.now).regs pc rules.now held.now }
    {
        let before = self.boundary;
        VaxState {
            pending: before.pending,
            ..shown(cpu, pc, rules, held, before.handler)
        }
    }

    /// A step lands where it arrives at a mapped word.
    pub(crate) fn place(&self, setting: Setting<'_>, cpu: Cpu) -> Place
        ensures { seen.place_of result ≡ place_of (setting_of setting.entry) (moment_of (processor_of self.now)) (state_of cpu) }
    {
        let code = setting.code;
        match code.map.vax_of(cpu.pc) {
            None => Place::Inside(cpu),
            Some(address) => {
                let held = self.held_behind(setting);
                let rules = rules_at(code, cpu.pc);
                Place::Lands {
                    state: self.state_at(&cpu, address, &rules, &held),
                    held,
                    cpu,
                }
            }
        }
    }

    /// Goes on at the next word.
    pub(crate) fn place_next(&self, setting: Setting<'_>, cpu: Cpu) -> Place
        requires few { length setting.code.now.words ≤ most_words }
        requires within { cpu.pc < length setting.code.now.words }
        ensures { seen.place_of result ≡ behind (setting_of setting.entry) (moment_of (processor_of self.now)) (state_of cpu) (state_of cpu).regs }
    {
        let mut next = cpu;
        next.pc += 1;
        self.place(setting, next)
    }

    // Makes the step of a local instruction; what another word wants or calls is left to be done.
    fn step(&self, setting: Setting<'_>, cpu: &mut Cpu) -> AlphaStep
        requires few { length setting.code.now.words ≤ most_words }
        requires goes { next (setting_of setting) (moment_of (processor_of self.now)) (state_of cpu.old) ≢ Stuck }
        ensures fetched { IsFetched setting.entry.code.now.words cpu.old.pc }
        ensures step { IsNextBy result (setting_of setting.entry) (moment_of (processor_of self.now)) cpu.old cpu.new (next (setting_of setting.entry) (moment_of (processor_of self.now)) (state_of cpu.old)) }
    {
        let code = setting.code;
        step(cpu, &code.words)
    }

    /// What the step of the word does.
    pub(crate) fn next(&self, setting: Setting<'_>, cpu: Cpu) -> Next
        requires few { length setting.code.now.words ≤ most_words }
        requires goes { next (setting_of setting) (moment_of (processor_of self.now)) (state_of cpu) ≢ Stuck }
        ensures fetched { IsFetched setting.entry.code.now.words cpu.pc }
        ensures next { next_of (setting_of setting.entry) (moment_of (processor_of self.now)) (state_of cpu) result ≡ next (setting_of setting.entry) (moment_of (processor_of self.now)) (state_of cpu) }
        ensures can { AllCanAsk setting.entry.pages.now self.now.thread result }
    {
        let mut stepped = cpu;
        match self.step(setting, &mut stepped) {
            AlphaStep::Local => Next::Moves(self.place(setting, stepped)),
            AlphaStep::Want(access) => Next::Wants(
                self.request_for(setting, access),
                Wanted::Access(access),
            ),
            AlphaStep::Pal(number) => self.call(setting, number, cpu),
        }
    }

    // Where an access leads that found that.
    fn place_finished(
        &self,
        setting: Setting<'_>,
        cpu: Cpu,
        access: AlphaAccess,
        before: u64,
        success: bool,
    ) -> Place
        requires few { length setting.code.now.words ≤ most_words }
        requires fetched { IsFetched setting.code.now.words cpu.pc }
        requires fits { Fits (Wanted.Access access) }
        ensures { seen.place_of result ≡ place_behind (setting_of setting.entry) (moment_of (processor_of self.now)) (state_of cpu) (Wanted.Access access) before success }
    {
        let mut finished = cpu;
        finish_access(setting, &mut finished, access, before, success);
        self.place(setting, finished)
    }

    /// Where the step leads by the reply to what it wants.
    pub(crate) fn place_behind(
        &self,
        setting: Setting<'_>,
        cpu: Cpu,
        wanted: Wanted,
        before: u64,
        success: bool,
    ) -> Place
        requires few { length setting.code.now.words ≤ most_words }
        requires fetched { IsFetched setting.code.now.words cpu.pc }
        requires fits { Fits wanted }
        ensures { seen.place_of result ≡ place_behind (setting_of setting.entry) (moment_of (processor_of self.now)) (state_of cpu) wanted before success }
    {
        match wanted {
            Wanted::Access(access) => self.place_finished(setting, cpu, access, before, success),
            Wanted::Put => self.place_next(setting, cpu),
            Wanted::Get => self.place_next(setting, with_r0(cpu, before)),
        }
    }
}
