// LOCC and SKPC: a string searched a byte at a time.
ghost use Rattle.std.specs.Prelude.{◌≡◌, ◌∷◌, [], IfSome, is_some};
ghost use Rattle.vax_meaning.specs.Play.{Plays, Uses};

use crate::byte::{may_be_read, next_byte, read_of};
use vax_form::{End, Pages, Reference, Stop};
use vax_long::{beside, beyond, scan_bytes, stops_at};
use vax_meaning::{Cursor, go_to, set_codes, set_register_of};

/// A string as its search was begun, what stops it, and the PC behind it.
#[derive(Clone, Copy, Debug, PartialEq, Eq)]
pub(crate) struct Scanned {
    /// Whether it stops at the character, or else at any other.
    pub(crate) locates: bool,
    pub(crate) character: u8,
    pub(crate) count: u16,
    pub(crate) address: u32,
    pub(crate) after: u32,
}

/// A string that is being searched.
#[derive(Clone, Copy, Debug, PartialEq, Eq)]
pub(crate) struct Scanning {
    /// How many bytes are left, and where the next is read.
    pub(crate) left: u16,
    pub(crate) address: u32,
    /// Whether the next one stopped it.
    pub(crate) stopped: bool,
    /// Whether the next one was checked.
    pub(crate) checked: bool,
    pub(crate) scanned: Scanned,
}

impl Scanning {
    ghost use Rattle.vax_form.specs.Tree.{feed, instruction_tree};
    ghost use Rattle.vax_form.specs.declared.pages.Pages.{Pages};
    ghost use Rattle.vax_form.specs.declared.state.VaxState.{VaxState};
    ghost use Rattle.tie_operands.specs.Steps.{IsAsking, Shows};
    ghost use Rattle.tie_operands.specs.declared.step.TieStep.TheVariants.{Want};
    ghost use Rattle.tie_strings.specs.Scans.{scan_on, scanning_script};
    ghost use Rattle.tie_strings.specs.Strings.{scan_tells};

    /// Searches what is left, and gives the number of bytes left.
    #[tactic(auto, unfolding(crate::specs::Scans::scan_on))]
    fn bytes_scanned_on(&self, cursor: &mut Cursor) -> Result<u16, Stop>
        ensures plays { Plays (scan_on self.now.stopped self.now.checked self.now.left self.now.address self.now.scanned) cursor.old result cursor.new }
        ensures few { Uses 65535 cursor.old result cursor.new }
    {
        if self.stopped {
            return Ok(self.left);
        }
        if self.left == 0 {
            return Ok(0);
        }
        let byte = next_byte(cursor, self.checked, self.address)?;
        if stops_at(self.scanned.locates, self.scanned.character, byte) {
            return Ok(self.left);
        }
        scan_bytes(
            cursor,
            self.scanned.locates,
            self.scanned.character,
            self.left - 1,
            beside(false, self.address),
        )
    }

    /// Goes through what is left of the instruction.
    #[tactic(auto, unfolding(crate::specs::Scans::scanning_script))]
    pub(crate) fn run(&self, cursor: &mut Cursor) -> Result<End, Stop>
        ensures plays { Plays (scanning_script self.now.stopped self.now.checked self.now.left self.now.address self.now.scanned) cursor.old result cursor.new }
        ensures few { Uses 65535 cursor.old result cursor.new }
    {
        let left = self.bytes_scanned_on(cursor)?;
        let done = self.scanned.count.saturating_sub(left);
        set_register_of(cursor, 0, left as u32);
        set_register_of(cursor, 1, beyond(self.scanned.address, done));
        set_codes(cursor, false, left == 0, false, false);
        go_to(cursor, self.scanned.after)
    }

    /// The reference that is wanted, if any.
    #[inline(always)]
    pub(crate) fn wanted(&self, pages: &Pages) -> Option<Reference>
        ensures just { is_some result ≡ scan_tells pages.now self.now }
        ensures shows { IfSome result (λ reference. (before state : VaxState)
            → Shows before (feed pages.now (instruction_tree pages.now (scanning_script self.now.stopped self.now.checked self.now.left self.now.address self.now.scanned) state) []) (Want reference)) }
    {
        if self.stopped {
            return None;
        }
        if self.left == 0 {
            return None;
        }
        if may_be_read(self.checked, pages, self.address) {
            Some(read_of(self.address))
        } else {
            None
        }
    }

    /// Notes that the byte that is wanted was checked.
    pub(crate) fn note_check(&mut self)
        ensures { (pages : Pages) (state : VaxState)
            → IsAsking (feed pages (instruction_tree pages (scanning_script self.old.stopped self.old.checked self.old.left self.old.address self.old.scanned) state) [])
            → feed pages (instruction_tree pages (scanning_script self.new.stopped self.new.checked self.new.left self.new.address self.new.scanned) state) []
            ≡ feed pages (instruction_tree pages (scanning_script self.old.stopped self.old.checked self.old.left self.old.address self.old.scanned) state) [] }
    {
        self.checked = true;
    }

    /// Takes the reply to the reference that is wanted.
    #[inline(always)]
    pub(crate) fn take(&mut self, reply: u64)
        ensures { (pages : Pages) (state : VaxState)
            → IsAsking (feed pages (instruction_tree pages (scanning_script self.old.stopped self.old.checked self.old.left self.old.address self.old.scanned) state) [])
            → feed pages (instruction_tree pages (scanning_script self.old.stopped self.old.checked self.old.left self.old.address self.old.scanned) state) (reply ∷ [])
            ≡ feed pages (instruction_tree pages (scanning_script self.new.stopped self.new.checked self.new.left self.new.address self.new.scanned) state) [] }
    {
        if self.stopped {
            return;
        }
        if self.left == 0 {
            return;
        }
        self.checked = false;
        let byte = (reply % 256) as u8;
        if stops_at(self.scanned.locates, self.scanned.character, byte) {
            self.stopped = true;
        } else {
            self.left -= 1;
            self.address = beside(false, self.address);
        }
    }
}
