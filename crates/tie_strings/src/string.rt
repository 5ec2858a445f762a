// An instruction with strings that is under way.
ghost use Rattle.std.specs.Prelude.{◌≡◌, ◌∷◌, [], IfSome, is_some};
ghost use Rattle.vax_meaning.specs.Play.{Plays, Uses};

use crate::comparing::Comparing;
use crate::moving::Moving;
use crate::scanning::Scanning;
use tie_operands::TieStep;
use vax_form::{End, Pages, Reference, Stop, VaxState};
use vax_meaning::Cursor;

/// What is left of an instruction with strings.
#[derive(Clone, Copy, Debug, PartialEq, Eq)]
pub(crate) enum Strings {
    Moves(Moving),
    Compares(Comparing),
    Scans(Scanning),
}

impl Strings {
    ghost use Rattle.vax_form.specs.Tree.{feed};
    ghost use Rattle.vax_form.specs.declared.pages.Pages.{Pages};
    ghost use Rattle.vax_form.specs.declared.state.VaxState.{VaxState};
    ghost use Rattle.tie_operands.specs.Steps.{IsAsking, Shows};
    ghost use Rattle.tie_operands.specs.declared.step.TieStep.TheVariants.{Want};
    ghost use Rattle.tie_strings.specs.Strings.{strings_script, strings_tell, strings_tree};

    /// Goes through it.
    fn run(&self, cursor: &mut Cursor) -> Result<End, Stop>
        ensures plays { Plays (strings_script self.now) cursor.old result cursor.new }
        ensures few { Uses 196607 cursor.old result cursor.new }
    {
        match self {
            Strings::Moves(moving) => moving.run(cursor),
            Strings::Compares(comparing) => comparing.run(cursor),
            Strings::Scans(scanning) => scanning.run(cursor),
        }
    }

    /// The reference that is wanted, if any.
    #[inline(always)]
    pub(crate) fn wanted(&self, pages: &Pages) -> Option<Reference>
        ensures just { is_some result ≡ strings_tell pages.now self.now }
        ensures shows { IfSome result (λ reference. (before state : VaxState) → Shows before (feed pages.now (strings_tree pages.now self.now state) []) (Want reference)) }
    {
        match self {
            Strings::Moves(moving) => moving.wanted(),
            Strings::Compares(comparing) => comparing.wanted(pages),
            Strings::Scans(scanning) => scanning.wanted(pages),
        }
    }

    /// Notes that the byte that is wanted was checked.
    fn note_check(&mut self)
        ensures { (pages : Pages) (state : VaxState) → IsAsking (feed pages (strings_tree pages self.old state) [])
            → feed pages (strings_tree pages self.new state) [] ≡ feed pages (strings_tree pages self.old state) [] }
    {
        match self {
            Strings::Moves(_) => {}
            Strings::Compares(comparing) => comparing.note_check(),
            Strings::Scans(scanning) => scanning.note_check(),
        }
    }

    /// Takes the reply to the reference that is wanted.
    #[inline(always)]
    pub(crate) fn take(&mut self, reply: u64)
        ensures { (pages : Pages) (state : VaxState) → IsAsking (feed pages (strings_tree pages self.old state) [])
            → feed pages (strings_tree pages self.old state) (reply ∷ []) ≡ feed pages (strings_tree pages self.new state) [] }
    {
        match self {
            Strings::Moves(moving) => moving.take(reply),
            Strings::Compares(comparing) => comparing.take(reply),
            Strings::Scans(scanning) => scanning.take(reply),
        }
    }
}

/// An instruction with strings that is under way, and the state behind its operands.
#[derive(Clone, Copy, Debug, PartialEq, Eq)]
pub(crate) struct StringLoop {
    pub(crate) state: VaxState,
    pub(crate) strings: Strings,
}

impl StringLoop {
    ghost use Rattle.vax_form.specs.Tree.{feed};
    ghost use Rattle.std.specs.Prelude.{ℕ, List, ◌++◌};
    ghost use Rattle.vax_form.specs.Tree.{Tree};
    ghost use Rattle.tie_operands.specs.Replies.{list_of};
    ghost use Rattle.tie_operands.specs.Steps.{Shows, Passes, IfWant};
    ghost use Rattle.tie_strings.specs.Strings.{strings_tree, loop_tree, StandsAt};

    /// Goes through what is left.
    fn run(&self, cursor: &mut Cursor, before: &VaxState) -> Result<End, Stop>
        ensures { Passes before.now (feed cursor.old.pages.now (strings_tree cursor.old.pages.now self.now.strings cursor.old.state) cursor.old.replies.now) result cursor.new.state }
    {
        self.strings.run(cursor)
    }

    /// The next reference, or the end, by going through what is left.
    #[inline(never)]
    fn gone_through(&self, pages: &Pages, before: &VaxState) -> TieStep
        ensures { Shows before.now (feed pages.now (loop_tree pages.now self.now) []) result }
    {
        let mut cursor = Cursor {
            state: self.state,
            pages,
            replies: &[],
        };
        match self.run(&mut cursor, before) {
            Ok(end) => TieStep::ended(end, &cursor.state),
            Err(stop) => TieStep::stopped(stop, before),
        }
    }

    /// The next reference, or the end.
    #[inline(always)]
    fn look(&self, pages: &Pages, before: &VaxState) -> TieStep
        ensures { Shows before.now (feed pages.now (loop_tree pages.now self.now) []) result }
    {
        match self.strings.wanted(pages) {
            Some(reference) => TieStep::Want(reference),
            None => self.gone_through(pages, before),
        }
    }

    /// The next reference, whose check is then made, or the end.
    #[inline(never)]
    fn show(&mut self, pages: &Pages, before: &VaxState) -> TieStep
        ensures shown { Shows before.now (feed pages.now (loop_tree pages.now self.old) []) result }
        ensures rest { IfWant result (feed pages.now (loop_tree pages.now self.new) [] ≡ feed pages.now (loop_tree pages.now self.old) []) }
    {
        let step = self.look(pages, before);
        if let TieStep::Want(_) = step {
            self.strings.note_check();
        }
        step
    }

    /// Takes one reply more, where a step wants one.
    fn advance(&mut self, pages: &Pages, before: &VaxState, step: TieStep, reply: u64) -> TieStep
        ensures { (tree : Tree) (replies : List ℕ) → StandsAt pages.now before.now tree replies self.old step
            → StandsAt pages.now before.now tree (replies ++ reply ∷ []) self.new result }
    {
        match step {
            TieStep::Want(_) => {
                self.strings.take(reply);
                self.show(pages, before)
            }
            _ => step,
        }
    }

    /// What `show` gives, at once where the next reference is told by what is left.
    #[inline(always)]
    fn tell(&mut self, pages: &Pages, before: &VaxState) -> TieStep
        ensures shown { Shows before.now (feed pages.now (loop_tree pages.now self.old) []) result }
        ensures rest { IfWant result (feed pages.now (loop_tree pages.now self.new) [] ≡ feed pages.now (loop_tree pages.now self.old) []) }
    {
        match self.strings.wanted(pages) {
            Some(reference) => {
                self.strings.note_check();
                TieStep::Want(reference)
            }
            None => self.show(pages, before),
        }
    }

    /// Takes the reply to the reference that is wanted, where there is one, and comes to the next or to the end.
    #[inline(always)]
    pub(crate) fn answered(
        &mut self,
        pages: &Pages,
        before: &VaxState,
        reply: Option<u64>,
    ) -> TieStep
        ensures { StandsAt pages.now before.now (loop_tree pages.now self.old) (list_of reply) self.new result }
    {
        let Some(reply) = reply else {
            return self.show(pages, before);
        };
        match self.strings.wanted(pages) {
            Some(_) => {
                self.strings.take(reply);
                self.tell(pages, before)
            }
            None => self.go_on(pages, before, &[reply]),
        }
    }

    /// Takes the replies that there are, one after the other, and comes to the next reference or to the end.
    #[inline(never)]
    pub(crate) fn go_on(&mut self, pages: &Pages, before: &VaxState, replies: &[u64]) -> TieStep
        ensures { StandsAt pages.now before.now (loop_tree pages.now self.old) replies.now self.new result }
    {
        let mut step = self.show(pages, before);
        for reply in replies {
            step = self.advance(pages, before, step, *reply);
        }
        step
    }
}
