// Where a step leaves its processor.
ghost use Rattle.std.specs.Prelude.{◌≡◌, ◌<◌, ◌+◌, suc, true, []};
ghost use Rattle.alpha_machine.specs.Step.{state_of};
ghost use Rattle.alpha_meaning.specs.State.{regs_of};
ghost use Rattle.system_model.specs.Processors.{mode_at, moment_of, stepped, left, placed, registers_of};
ghost use Rattle.system_model.specs.Processors as model;
ghost use Rattle.system_model.specs.Settings as settings;
ghost use Rattle.system_model.specs.Legal.{spent};
ghost use Rattle.system_model.specs.Steps.{Inside, place_of, settled_last};
ghost use Rattle.tie_switch.specs.Interpreted.{last_with};
ghost use Rattle.tie_switch.specs.Processors.{IsMode};
ghost use Rattle.tie_switch.specs.Seen as seen;
ghost use Rattle.tie_switch.specs.Seen.{setting_of};
ghost use Rattle.tie_switch.specs.Turns.{has_ended};
ghost use Rattle.vax_driven.specs.declared.thread.End.TheVariants as ends;
ghost use Rattle.vax_form.specs.declared.pages.Pages.{Pages};

use crate::interpreted::{Interpreted, NO_STATE};
use crate::place::{Ending, Last, Place};
use crate::processor::{Mode, Processor};
use crate::registers::registers_of;
use crate::setting::{Setting, goes_on};
use alpha_machine::Cpu;
use vax_driven::End;
use vax_form::{Exception, Flags, VaxState};

/// Interprets what the thread does at a state.
#[inline(never)]
fn interprets(setting: Setting<'_>, thread: u8, state: &VaxState) -> Mode
    ensures { IsMode setting.entry.pages.now thread state.now result (model.Interprets state.now []) }
{
    Mode::Interprets(Interpreted::begin(state, setting.pages, thread), None)
}

/// The mode at a boundary, with these registers in Alpha code.
fn mode_with(setting: Setting<'_>, thread: u8, state: &VaxState, r: [u64; 32]) -> Mode
    ensures { IsMode setting.entry.pages.now thread state.now result (mode_at (setting_of setting.entry) thread state.now (regs_of r)) }
{
    match goes_on(setting, thread, state) {
        Some(pc) => Mode::Runs(Cpu { r, pc }),
        None => interprets(setting, thread, state),
    }
}

/// The mode at a boundary, with the registers of its state in Alpha code.
pub(crate) fn mode_at(setting: Setting<'_>, thread: u8, state: &VaxState) -> Mode
    ensures { IsMode setting.entry.pages.now thread state.now result (mode_at (setting_of setting.entry) thread state.now (registers_of state.now)) }
{
    match goes_on(setting, thread, state) {
        Some(pc) => Mode::Runs(Cpu {
            r: registers_of(state),
            pc,
        }),
        None => interprets(setting, thread, state),
    }
}

/// Where the thread has a handler, it takes the exception: a fault with the state before the instruction.
pub(crate) fn settled(before: &VaxState, last: Last) -> Last
    ensures { seen.last_of result ≡ settled_last before.now (seen.last_of last) }
{
    match last {
        Last::Trap(kind, state) => {
            if state.has_handler() {
                Last::Finish(state.delivering(Exception::Arithmetic(kind)))
            } else {
                last
            }
        }
        Last::Fault(exception) => {
            if before.has_handler() {
                Last::Finish(before.delivering(exception))
            } else {
                last
            }
        }
        Last::Finish(_) | Last::Exit(_) => last,
    }
}

impl Mode {
    // It begins to interpret what the thread does at a state.
    #[inline(never)]
    fn begin(&mut self, setting: Setting<'_>, thread: u8, state: &VaxState)
        ensures { IsMode setting.entry.pages.now thread state.now self.new (model.Interprets state.now []) }
    {
        *self = Mode::Interprets(Interpreted::begin(state, setting.pages, thread), None);
    }

    // It interprets what the thread does at a state, which is written in place where it interpreted before.
    #[inline(always)]
    fn interpret(&mut self, setting: Setting<'_>, thread: u8, state: &VaxState)
        ensures { IsMode setting.entry.pages.now thread state.now self.new (model.Interprets state.now []) }
    {
        match self {
            Mode::Interprets(interpreted, reply) => {
                interpreted.begin_anew(state, setting.pages, thread);
                *reply = None;
            }
            Mode::New | Mode::Runs(_) | Mode::Ended(_) => self.begin(setting, thread, state),
        }
    }
}

impl Processor {
    ghost use Rattle.tie_switch.specs.Processors.{in_mode, processor_of, IsMode, StandsFor};

    /// It makes no more steps.
    #[inline(never)]
    pub(crate) fn spend(&mut self)
        ensures stands { (pages : Pages) (mode : model.Mode) → StandsFor pages self.new (spent (in_mode self.old mode)) }
        ensures ended { has_ended (processor_of self.new).mode ≡ true }
        ensures budget { self.new.budget ≡ self.old.budget }
        ensures thread { self.new.thread ≡ self.old.thread }
        ensures steps { self.new.steps ≡ self.old.steps }
    {
        self.mode = Mode::Ended(End::Spent);
    }

    // It retires its instruction and arrives at a boundary, in that mode.
    fn arrive(&mut self, mode: Mode, state: VaxState, held: Flags)
        requires { self.old.retired < self.old.steps }
        ensures stands { (pages : Pages) (before after : model.Mode) → IsMode pages self.old.thread state mode after
            → StandsFor pages self.new (record (in_mode self.old before) { mode = after; boundary = state; held = held; retired = suc self.old.retired }) }
        ensures budget { self.new.budget ≡ self.old.budget }
        ensures thread { self.new.thread ≡ self.old.thread }
        ensures steps { self.new.steps ≡ self.old.steps }
    {
        self.mode = mode;
        self.boundary = state;
        self.held = held;
        self.retired += 1;
    }

    // It retires its instruction at a boundary at which it stands.
    #[inline(always)]
    fn pass(&mut self, state: VaxState, held: Flags)
        requires { self.old.retired < self.old.steps }
        ensures stands { (pages : Pages) (before after : model.Mode) → IsMode pages self.old.thread state self.old.mode after
            → StandsFor pages self.new (record (in_mode self.old before) { mode = after; boundary = state; held = held; retired = suc self.old.retired }) }
        ensures budget { self.new.budget ≡ self.old.budget }
        ensures thread { self.new.thread ≡ self.old.thread }
        ensures steps { self.new.steps ≡ self.old.steps }
    {
        self.boundary = state;
        self.held = held;
        self.retired += 1;
    }

    // It ends by a fault, which retires nothing and leaves the boundary.
    #[inline(never)]
    fn fail(&mut self, exception: Exception)
        ensures stands { (pages : Pages) (before : model.Mode) → StandsFor pages self.new (record (in_mode self.old before) { mode = model.Ended (ends.Raised exception) }) }
        ensures budget { self.new.budget ≡ self.old.budget }
        ensures thread { self.new.thread ≡ self.old.thread }
        ensures steps { self.new.steps ≡ self.old.steps }
    {
        self.mode = Mode::Ended(End::Raised(exception));
    }

    // It retires its instruction and ends.
    #[inline(never)]
    fn retire_and_end(&mut self, state: VaxState, end: End)
        requires { self.old.retired < self.old.steps }
        ensures stands { (pages : Pages) (before : model.Mode) → StandsFor pages self.new (record (in_mode self.old before) { mode = model.Ended end; boundary = state; retired = suc self.old.retired }) }
        ensures budget { self.new.budget ≡ self.old.budget }
        ensures thread { self.new.thread ≡ self.old.thread }
        ensures steps { self.new.steps ≡ self.old.steps }
    {
        self.mode = Mode::Ended(end);
        self.boundary = state;
        self.retired += 1;
    }

    // It stands at a boundary, in the mode there.
    #[inline(always)]
    fn stand(&mut self, setting: Setting<'_>, state: &VaxState)
        ensures mode { IsMode setting.entry.pages.now self.old.thread state.now self.new.mode (mode_at (setting_of setting.entry) self.old.thread state.now (registers_of state.now)) }
        ensures same { (mode : model.Mode) → in_mode self.new mode ≡ in_mode self.old mode }
        ensures thread { self.new.thread ≡ self.old.thread }
        ensures retired { self.new.retired ≡ self.old.retired }
        ensures steps { self.new.steps ≡ self.old.steps }
        ensures budget { self.new.budget ≡ self.old.budget }
    {
        match goes_on(setting, self.thread, state) {
            Some(pc) => self.mode.run(&Cpu {
                r: registers_of(state),
                pc,
            }),
            None => self.mode.interpret(setting, self.thread, state),
        }
    }

    /// Its instruction ended, with that state behind it: it goes on, or it ends. A fault retires nothing and leaves the boundary.
    #[inline(always)]
    pub(crate) fn leave_by(&mut self, setting: Setting<'_>, ending: Ending, after: &VaxState)
        requires { self.old.retired < self.old.steps }
        ensures stands { (mode : model.Mode) → StandsFor setting.entry.pages.now self.new (left (setting_of setting.entry) (in_mode self.old mode) (seen.last_of (last_with ending after.now))) }
        ensures budget { self.new.budget ≡ self.old.budget }
        ensures thread { self.new.thread ≡ self.old.thread }
        ensures steps { self.new.steps ≡ self.old.steps }
    {
        match ending {
            Ending::Finish => {
                self.stand(setting, after);
                self.pass(*after, Flags::ALL);
            }
            Ending::Exit => self.retire_and_end(*after, End::Exit(after.register(0))),
            Ending::Trap(kind) => {
                self.retire_and_end(*after, End::Raised(Exception::Arithmetic(kind)));
            }
            Ending::Fault(exception) => self.fail(exception),
        }
    }

    // The same of an end that carries the state behind it.
    fn leave(&mut self, setting: Setting<'_>, last: Last)
        requires { self.old.retired < self.old.steps }
        ensures stands { (mode : model.Mode) → StandsFor setting.entry.pages.now self.new (left (setting_of setting.entry) (in_mode self.old mode) (seen.last_of last)) }
        ensures budget { self.new.budget ≡ self.old.budget }
        ensures thread { self.new.thread ≡ self.old.thread }
        ensures steps { self.new.steps ≡ self.old.steps }
    {
        let mut after = NO_STATE;
        let ending = last.put(&mut after);
        self.leave_by(setting, ending, &after);
    }

    // Goes on inside a block with those registers, and counts the step.
    fn go_inside(&mut self, cpu: &Cpu)
        requires { self.old.steps < self.old.budget }
        ensures stands { (setting : settings.Setting) (mode : model.Mode) → StandsFor setting.meaning.pages self.new (placed setting (stepped (in_mode self.old mode)) (Inside (state_of cpu.now))) }
        ensures budget { self.new.budget ≡ self.old.budget }
        ensures thread { self.new.thread ≡ self.old.thread }
        ensures steps { self.new.steps ≡ self.old.steps + 1 }
    {
        self.steps += 1;
        self.mode.run(cpu);
    }

    /// Goes where a step leads that left those registers, which it counts.
    pub(crate) fn go_on(&mut self, setting: Setting<'_>, cpu: &Cpu)
        requires { self.old.steps < self.old.budget }
        ensures stands { (mode : model.Mode) → StandsFor setting.entry.pages.now self.new (placed (setting_of setting.entry) (stepped (in_mode self.old mode)) (place_of (setting_of setting.entry) (moment_of (processor_of self.old)) (state_of cpu.now))) }
        ensures budget { self.new.budget ≡ self.old.budget }
        ensures thread { self.new.thread ≡ self.old.thread }
        ensures steps { self.new.steps ≡ self.old.steps + 1 }
    {
        let code = setting.code;
        if code.map.vax_of(cpu.pc).is_some() {
            let place = self.place(setting, *cpu);
            self.go_to(setting, place);
        } else {
            self.go_inside(cpu);
        }
    }

    /// Goes where a step of Alpha code leads, which it counts.
    pub(crate) fn go_to(&mut self, setting: Setting<'_>, place: Place)
        requires { self.old.steps < self.old.budget }
        ensures stands { (mode : model.Mode) → StandsFor setting.entry.pages.now self.new (placed (setting_of setting.entry) (stepped (in_mode self.old mode)) (seen.place_of place)) }
        ensures budget { self.new.budget ≡ self.old.budget }
        ensures thread { self.new.thread ≡ self.old.thread }
        ensures steps { self.new.steps ≡ self.old.steps + 1 }
    {
        self.steps += 1;
        match place {
            Place::Inside(cpu) => self.mode.run(&cpu),
            Place::Lands { state, held, cpu } => {
                let mode = mode_with(setting, self.thread, &state, cpu.r);
                self.arrive(mode, state, held);
            }
            Place::Leaves(last) => {
                let before = self.boundary;
                self.leave(setting, settled(&before, last));
            }
        }
    }
}
