// The PALcode calls.
ghost use Rattle.std.specs.Prelude.{◌≡◌, ◌≢◌, ◌≤◌, ◌<◌, ◌^◌, ◌%◌, length};
ghost use Rattle.alpha_encode.specs.Registers.{TEMPORARIES};
ghost use Rattle.alpha_machine.specs.Step.{state_of};
ghost use Rattle.block_law.specs.Follows.{call_of, probe_address, probe_count};
ghost use Rattle.block_law.specs.Placements.{target};
ghost use Rattle.alpha_meaning.specs.Pieces.{most_words};
ghost use Rattle.exception_records.specs.Codes.{all_ready};
ghost use Rattle.exception_records.specs.Points.{point_at};
ghost use Rattle.system_model.specs.Processors.{moment_of};
ghost use Rattle.system_model.specs.Steps.{Comes, Stuck, exchanged, probed, served, called, state_at, held_behind};
ghost use Rattle.vax_form.specs.Pages.{first_bad};
ghost use Rattle.vax_form.specs.Tree.{Finish, Trap};
ghost use Rattle.tie_switch.specs.Accesses.{AllCanAsk};
ghost use Rattle.tie_switch.specs.Seen as seen;
ghost use Rattle.tie_switch.specs.Seen.{setting_of, next_of};

use crate::place::{Last, Next, Place, Wanted};
use crate::processor::Processor;
use crate::registers::{target, with_r0};
use crate::setting::Setting;
use alpha_encode::{pal, registers};
use alpha_machine::Cpu;
use exception_records::{Point, Rules};
use memory_core::{Change, Kind, Request};
use prepared_code::probe_count;
use vax_form::{Exception, Pending, VaxState};
use vax_long::first_bad;

/// A PALcode call, by its number.
#[derive(Clone, Copy)]
pub(crate) enum PalCall {
    Probe,
    LookUp,
    Serve,
    Raise,
    Arithmetic,
    Switch,
    Other,
}

pub(crate) fn call_of(number: u8) -> PalCall
    ensures { seen.call_of result ≡ call_of number }
{
    match number {
        pal::PROBE => PalCall::Probe,
        pal::LOOK_UP => PalCall::LookUp,
        pal::SERVE => PalCall::Serve,
        pal::RAISE => PalCall::Raise,
        pal::TRAP => PalCall::Arithmetic,
        pal::SWITCH => PalCall::Switch,
        _ => PalCall::Other,
    }
}

/// R0 and the handler are exchanged.
fn exchanged(state: &VaxState) -> VaxState
    ensures { result ≡ exchanged state.now }
{
    let mut after = *state;
    after.handler = state.register(0);
    after.set_register(0, state.handler);
    after
}

impl Processor {
    ghost use Rattle.tie_switch.specs.Processors.{processor_of};

    // The bytes from the address in R27 on are checked.
    #[tactic(auto, unfolding(alpha_meaning::specs::State::regs_of))]
    fn probe(&self, setting: Setting<'_>, point: Point, cpu: Cpu) -> Place
        requires few { length setting.code.now.words ≤ most_words }
        requires within { cpu.pc < length setting.code.now.words }
        ensures { seen.place_of result ≡ probed (setting_of setting.entry) (moment_of (processor_of self.now)) (state_of cpu) point.write
            (first_bad setting.entry.pages.now point.write (probe_address (state_of cpu).regs) (probe_count point (state_of cpu).regs)) }
    {
        let address = (cpu.r[registers::ADDRESS as usize] % (1 << 32)) as u32;
        let write = point.write;
        match first_bad(setting.pages, address, probe_count(&point, &cpu), write) {
            None => self.place_next(setting, cpu),
            Some(address) => {
                Place::Leaves(Last::Fault(Exception::AccessViolation { address, write }))
            }
        }
    }

    // The request of a service, which stands on no quadword.
    fn request_of(&self, kind: Kind, change: Change) -> Request
        ensures { result ≡ record { processor = (processor_of self.now).thread; retired = (processor_of self.now).retired; kind = kind; quad = 0; change = change } }
    {
        Request {
            processor: self.thread,
            retired: self.retired,
            kind,
            quad: 0,
            change,
        }
    }

    // Does a service: CHMK with the code in R21.
    #[tactic(auto, unfolding(alpha_meaning::specs::State::regs_of))]
    fn serve(&self, setting: Setting<'_>, rules: Rules, cpu: Cpu) -> Next
        requires few { length setting.code.now.words ≤ most_words }
        requires within { cpu.pc < length setting.code.now.words }
        ensures next { next_of (setting_of setting.entry) (moment_of (processor_of self.now)) (state_of cpu) result
            ≡ served (setting_of setting.entry) (moment_of (processor_of self.now)) ((state_of cpu).regs TEMPORARIES % 2 ^ 16) rules (state_of cpu) }
        ensures can { AllCanAsk setting.entry.pages.now self.now.thread result }
    {
        match cpu.r[registers::TEMPORARIES as usize] % (1 << 16) {
            service_codes::EXIT => {
                let state = self.state_at(&cpu, target(&cpu), &rules, &self.held);
                Next::Moves(Place::Leaves(Last::Exit(state)))
            }
            service_codes::PUT => {
                let byte = (cpu.r[0] % 256) as u8;
                let request = self.request_of(Kind::Put, Change::Byte(byte));
                Next::Wants(request, Wanted::Put)
            }
            service_codes::GET => Next::Wants(
                self.request_of(Kind::Get, Change::Nothing),
                Wanted::Get,
            ),
            service_codes::THREAD => {
                let told = with_r0(cpu, u64::from(self.thread));
                Next::Moves(self.place_next(setting, told))
            }
            service_codes::HANDLER => {
                let state = self.state_at(&cpu, target(&cpu), &rules, &self.held);
                Next::Moves(Place::Leaves(Last::Finish(exchanged(&state))))
            }
            service_codes::RESUME => {
                let state = self.state_at(&cpu, target(&cpu), &rules, &self.held);
                let pending = Pending::Resume;
                Next::Moves(Place::Leaves(Last::Finish(VaxState { pending, ..state })))
            }
            _ => Next::Moves(self.place_next(setting, with_r0(cpu, 0))),
        }
    }

    // The instruction is done, and all codes stand in their registers.
    fn finish_ready(&self, cpu: &Cpu) -> Last
        ensures { seen.last_of result ≡ Comes (Finish (state_at (processor_of self.now).boundary (state_of cpu.now).regs (target (state_of cpu.now).regs) all_ready (processor_of self.now).held)) }
    {
        Last::Finish(self.state_at(cpu, target(cpu), &Rules::READY, &self.held))
    }

    // The instruction is done, and raises an arithmetic trap.
    #[tactic(auto, unfolding(alpha_meaning::specs::State::regs_of))]
    fn trap(&self, setting: Setting<'_>, rules: Rules, cpu: &Cpu) -> Last
        ensures { seen.last_of result ≡ Comes (Trap ((state_of cpu.now).regs TEMPORARIES % 2 ^ 8)
            (state_at (processor_of self.now).boundary (state_of cpu.now).regs (target (state_of cpu.now).regs) rules (held_behind (setting_of setting.entry) (moment_of (processor_of self.now))))) }
    {
        let kind = (cpu.r[registers::TEMPORARIES as usize] % 256) as u8;
        let held = self.held_behind(setting);
        Last::Trap(kind, self.state_at(cpu, target(cpu), &rules, &held))
    }

    /// What a PALcode call does.
    pub(crate) fn call(&self, setting: Setting<'_>, number: u8, cpu: Cpu) -> Next
        requires few { length setting.code.now.words ≤ most_words }
        requires within { cpu.pc < length setting.code.now.words }
        requires goes { called (setting_of setting) (moment_of (processor_of self.now)) (call_of number) (point_at setting.code.now.points cpu.pc) (state_of cpu) ≢ Stuck }
        ensures next { next_of (setting_of setting.entry) (moment_of (processor_of self.now)) (state_of cpu) result
            ≡ called (setting_of setting.entry) (moment_of (processor_of self.now)) (call_of number) (point_at setting.entry.code.now.points cpu.pc) (state_of cpu) }
        ensures can { AllCanAsk setting.entry.pages.now self.now.thread result }
    {
        let code = setting.code;
        let point = code.points.find(cpu.pc).copied();
        match (call_of(number), point) {
            (PalCall::LookUp | PalCall::Switch, _) => {
                Next::Moves(Place::Leaves(self.finish_ready(&cpu)))
            }
            (PalCall::Probe, Some(point)) => Next::Moves(self.probe(setting, point, cpu)),
            (PalCall::Serve, Some(point)) => self.serve(setting, point.rules, cpu),
            (PalCall::Arithmetic, Some(point)) => {
                Next::Moves(Place::Leaves(self.trap(setting, point.rules, &cpu)))
            }
            (PalCall::Raise, Some(point)) => match point.exception() {
                Some(exception) => Next::Moves(Place::Leaves(Last::Fault(exception))),
                None => unreachable!(),
            },
            _ => unreachable!(),
        }
    }
}
