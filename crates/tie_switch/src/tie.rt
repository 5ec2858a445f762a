// Interpreted steps.
ghost use Rattle.std.specs.Prelude.{◌≡◌, ◌<◌, ◌+◌, ◌++◌, ◌∷◌, ◌↔◌, ◌⊎◌, ◌&&◌, [], ℕ, List, IfSome, false, true};
ghost use Rattle.system_model.specs.Processors.{Interprets, tied, turn_in};
ghost use Rattle.system_model.specs.Processors as model;
ghost use Rattle.tie_switch.specs.Interpreted.{IfWants, IsBefore, step_of, step_with};
ghost use Rattle.tie_switch.specs.Known.{AreFound};
ghost use Rattle.tie_switch.specs.Live.{asks_get};
ghost use Rattle.tie_switch.specs.Processors.{CanInterpret, HasMade, IsGiven, IsInterpreting, IsMode};
ghost use Rattle.tie_switch.specs.Seen.{setting_of};
ghost use Rattle.tie_switch.specs.Turns.{has_ended};
ghost use Rattle.vax_form.specs.Tree.{answer};
ghost use Rattle.vax_form.specs.declared.pages.Pages.{Pages};
ghost use Rattle.vax_form.specs.declared.state.VaxState.{VaxState};
ghost use Rattle.vax_long.specs.Pending.{moment_at};

use crate::interpreted::{Came, Interpreted, NO_STATE};
use crate::place::Ending;
use crate::played::ends_at_once;
use crate::processor::{Mode, Processor};
use crate::reference::reply_found;
use crate::request::awaits;
use crate::setting::Setting;
use memory_core::{Memory, Reply};
use vax_form::{Instr, Pages, VaxState};
use vax_meaning::Cursor;

impl Processor {
    ghost use Rattle.tie_switch.specs.Processors.{in_mode, processor_of, StandsFor};

    // Goes on in what is interpreted, to its next reference or its end.
    #[inline(always)]
    fn interpret(
        &mut self,
        pages: &Pages,
        known: &mut [Option<Instr>],
        after: &mut VaxState,
    ) -> Came
        requires known { AreFound pages.now known.old }
        requires interprets { IsInterpreting self.old.mode }
        ensures known { AreFound pages.now known.new }
        ensures answers { (state : VaxState) (replies : List ℕ) → IsMode pages.now self.old.thread self.old.boundary self.old.mode (Interprets state replies)
            → step_with result after.new ≡ step_of (answer pages.now (moment_at pages.now self.old.thread state) replies) }
        ensures stands { (state : VaxState) (replies : List ℕ) → IsMode pages.now self.old.thread self.old.boundary self.old.mode (Interprets state replies)
            → IfWants (step_with result after.new) (IsMode pages.now self.old.thread self.old.boundary self.new.mode (Interprets state replies)) }
        ensures given { IsGiven self.new.mode }
        ensures same { (mode : model.Mode) → in_mode self.new mode ≡ in_mode self.old mode }
        ensures thread { self.new.thread ≡ self.old.thread }
        ensures steps { self.new.steps ≡ self.old.steps }
        ensures budget { self.new.budget ≡ self.old.budget }
    {
        match &mut self.mode {
            Mode::Interprets(interpreted, reply) => {
                interpreted.go_on(pages, known, reply.take(), after)
            }
            Mode::New | Mode::Runs(_) | Mode::Ended(_) => unreachable!(),
        }
    }

    // Counts an interpreted step.
    fn count_tie(&mut self)
        requires { self.old.steps < self.old.budget }
        ensures tied { (mode : model.Mode) → in_mode self.new mode ≡ tied (in_mode self.old mode) }
        ensures mode { self.new.mode ≡ self.old.mode }
        ensures budget { self.new.budget ≡ self.old.budget }
        ensures thread { self.new.thread ≡ self.old.thread }
        ensures boundary { self.new.boundary ≡ self.old.boundary }
        ensures steps { self.new.steps ≡ self.old.steps + 1 }
        ensures retired { self.new.retired < self.new.steps }
    {
        self.steps += 1;
        self.interpreted += 1;
    }

    // Takes the reply to the reference.
    fn take_reply(&mut self, reply: u64)
        requires steps { self.old.steps < self.old.budget }
        requires given { IsGiven self.old.mode }
        ensures stands { (pages : Pages) (before : model.Mode) (state : VaxState) (replies : List ℕ) → IsMode pages self.old.thread self.old.boundary self.old.mode (Interprets state replies)
            → StandsFor pages self.new (record (tied (in_mode self.old before)) { mode = Interprets state (replies ++ reply ∷ []) }) }
        ensures budget { self.new.budget ≡ self.old.budget }
        ensures thread { self.new.thread ≡ self.old.thread }
        ensures steps { self.new.steps ≡ self.old.steps + 1 }
    {
        self.count_tie();
        match &mut self.mode {
            Mode::Interprets(_, last) => *last = Some(reply),
            Mode::New | Mode::Runs(_) | Mode::Ended(_) => unreachable!(),
        }
    }

    // The instruction before which it stands, where that is known and has no operand in memory.
    #[inline(always)]
    fn at_once<'a>(&self, pages: &Pages, known: &'a [Option<Instr>]) -> Option<&'a Instr>
        requires known { AreFound pages.now known.now }
        ensures before { IfSome result (λ instr. (state : VaxState) (replies : List ℕ) → IsMode pages.now self.now.thread self.now.boundary self.now.mode (Interprets state replies)
            → IsBefore pages.now self.now.boundary instr.now state replies) }
    {
        match &self.mode {
            Mode::Interprets(Interpreted::Plays(played), None) => played.at_once(pages, known),
            _ => None,
        }
    }

    /// Makes one interpreted step, with at most one access, or tells that it waits, where a GET does.
    pub(crate) fn tie_step<M: Memory>(
        &mut self,
        setting: Setting<'_>,
        known: &mut [Option<Instr>],
        memory: &mut M,
        waits: bool,
    ) -> bool
        requires known { AreFound setting.pages.now known.old }
        requires interprets { IsInterpreting self.old.mode }
        requires pages { (M.set_up memory.old).image.pages ≡ setting.pages.now }
        requires serves { M.serves memory.old self.old.thread }
        requires steps { self.old.steps < self.old.budget }
        requires can { CanInterpret setting.pages.now (M.set_up memory.old) self.old }
        ensures known { AreFound setting.entry.pages.now known.new }
        ensures set_up { M.set_up memory.new ≡ M.set_up memory.old }
        ensures place { (memory.new ≡ memory.old) ⊎ M.same memory.old memory.new }
        ensures serves { (thread : ℕ) → M.serves memory.old thread ↔ M.serves memory.new thread }
        ensures budget { self.new.budget ≡ self.old.budget }
        ensures thread { self.new.thread ≡ self.old.thread }
        ensures steps { result ≡ false → has_ended (processor_of self.new).mode ≡ false → self.new.steps ≡ self.old.steps + 1 }
        ensures waits { (before : model.Mode) (state : VaxState) (replies : List ℕ) → IsMode setting.entry.pages.now self.old.thread self.old.boundary self.old.mode (Interprets state replies)
            → result ≡ (waits && asks_get (turn_in (setting_of setting.entry) (in_mode self.old before) (Interprets state replies))) }
        ensures stays { result ≡ true → memory.new ≡ memory.old }
        ensures still { result ≡ true → (p : model.Processor) → StandsFor setting.entry.pages.now self.old p → StandsFor setting.entry.pages.now self.new p }
        ensures turned { result ≡ false → (before : model.Mode) (state : VaxState) (replies : List ℕ) → IsMode setting.entry.pages.now self.old.thread self.old.boundary self.old.mode (Interprets state replies)
            → HasMade (setting_of setting.entry) (M.set_up memory.old) (M.between memory.old) (turn_in (setting_of setting.entry) (in_mode self.old before) (Interprets state replies))
            (in_mode self.old before) self.new (M.seen memory.old) (M.seen memory.new) }
    {
        if let Some(instr) = self.at_once(setting.pages, known) {
            let mut cursor = Cursor {
                state: self.boundary,
                pages: setting.pages,
                replies: &[],
            };
            if ends_at_once(&mut cursor, instr, self.thread) {
                self.count_tie();
                self.leave_by(setting, Ending::Finish, &cursor.state);
                return false;
            }
        }
        let mut after = NO_STATE;
        match self.interpret(setting.pages, known, &mut after) {
            Came::Wants(reference) => {
                let request = self.reference_request(&reference);
                if awaits(waits, &request) {
                    return true;
                }
                match memory.access(&request) {
                    Reply::Made { before, success: _ } => {
                        self.take_reply(reply_found(&reference, before));
                    }
                    Reply::Full => self.spend(),
                }
            }
            Came::Leaves(ending) => {
                self.count_tie();
                self.leave_by(setting, ending, &after);
            }
        }
        false
    }
}
