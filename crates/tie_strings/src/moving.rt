// MOVC3 and MOVC5: strings moved a byte at a time.
ghost use Rattle.std.specs.Prelude.{◌≡◌, ◌∷◌, [], IfSome, is_some};
ghost use Rattle.vax_meaning.specs.Play.{Plays, Uses};

use crate::byte::{read_of, write_of};
use vax_form::{End, Reference, Stop, Width};
use vax_long::{beside, fill_bytes, move_bytes, set_moved, write_byte};
use vax_meaning::{Cursor, go_to, set_compared};

/// What is filled behind a move: how many bytes are left, where the next is written, and the byte.
#[derive(Clone, Copy, Debug, PartialEq, Eq)]
pub(crate) struct Fill {
    pub(crate) left: u16,
    pub(crate) to: u32,
    pub(crate) byte: u8,
}

/// What a move leaves: the bytes that were not moved, the ends of both strings, the lengths that the codes compare, and
/// the PC.
#[derive(Clone, Copy, Debug, PartialEq, Eq)]
pub(crate) struct Moved {
    pub(crate) left: u16,
    pub(crate) source: u32,
    pub(crate) destination: u32,
    pub(crate) length: u16,
    pub(crate) room: u16,
    pub(crate) after: u32,
}

/// A string that is being moved.
#[derive(Clone, Copy, Debug, PartialEq, Eq)]
pub(crate) struct Moving {
    pub(crate) down: bool,
    /// How many bytes are left, and where the next is read and written.
    pub(crate) left: u16,
    pub(crate) from: u32,
    pub(crate) to: u32,
    /// The byte that was read, where it is not yet written.
    pub(crate) byte: Option<u8>,
    pub(crate) fill: Fill,
    pub(crate) moved: Moved,
}

impl Moving {
    ghost use Rattle.std.specs.Prelude.{ℕ};
    ghost use Rattle.vax_form.specs.Tree.{feed, instruction_tree};
    ghost use Rattle.vax_form.specs.declared.pages.Pages.{Pages};
    ghost use Rattle.vax_form.specs.declared.state.VaxState.{VaxState};
    ghost use Rattle.tie_operands.specs.Steps.{Shows};
    ghost use Rattle.tie_operands.specs.declared.step.TieStep.TheVariants.{Want};
    ghost use Rattle.tie_strings.specs.Moves.{move_on, moving_script};
    ghost use Rattle.tie_strings.specs.Strings.{move_tells};

    /// Moves what is left.
    #[tactic(auto, unfolding(crate::specs::Moves::move_on))]
    fn bytes_moved_on(&self, cursor: &mut Cursor) -> Result<(), Stop>
        ensures plays { Plays (move_on self.now.byte self.now.down self.now.left self.now.from self.now.to) cursor.old result cursor.new }
        ensures few { Uses 131071 cursor.old result cursor.new }
    {
        match self.byte {
            None => move_bytes(cursor, self.down, self.left, self.from, self.to),
            Some(byte) => {
                write_byte(cursor, self.to, byte)?;
                move_bytes(
                    cursor,
                    self.down,
                    self.left.saturating_sub(1),
                    beside(self.down, self.from),
                    beside(self.down, self.to),
                )
            }
        }
    }

    /// Goes through what is left of the instruction.
    #[tactic(auto, unfolding(crate::specs::Moves::moving_script))]
    pub(crate) fn run(&self, cursor: &mut Cursor) -> Result<End, Stop>
        ensures plays { Plays (moving_script self.now.byte self.now.down self.now.left self.now.from self.now.to self.now.fill self.now.moved) cursor.old result cursor.new }
        ensures few { Uses 196607 cursor.old result cursor.new }
    {
        self.bytes_moved_on(cursor)?;
        fill_bytes(cursor, self.fill.left, self.fill.to, self.fill.byte)?;
        let moved = self.moved;
        set_moved(cursor, moved.left, moved.source, moved.destination);
        set_compared(cursor, Width::Word, moved.length as u64, moved.room as u64);
        go_to(cursor, moved.after)
    }

    /// The reference that is wanted, if any.
    #[inline(always)]
    pub(crate) fn wanted(&self) -> Option<Reference>
        ensures just { is_some result ≡ move_tells self.now }
        ensures shows { IfSome result (λ reference. (pages : Pages) (before state : VaxState)
            → Shows before (feed pages (instruction_tree pages (moving_script self.now.byte self.now.down self.now.left self.now.from self.now.to self.now.fill self.now.moved) state) []) (Want reference)) }
    {
        match self.byte {
            Some(byte) => Some(write_of(self.to, byte)),
            None => {
                if self.left > 0 {
                    Some(read_of(self.from))
                } else if self.fill.left > 0 {
                    Some(write_of(self.fill.to, self.fill.byte))
                } else {
                    None
                }
            }
        }
    }

    /// Takes the reply to the reference that is wanted.
    #[inline(always)]
    pub(crate) fn take(&mut self, reply: u64)
        ensures { (pages : Pages) (state : VaxState)
            → feed pages (instruction_tree pages (moving_script self.old.byte self.old.down self.old.left self.old.from self.old.to self.old.fill self.old.moved) state) (reply ∷ [])
            ≡ feed pages (instruction_tree pages (moving_script self.new.byte self.new.down self.new.left self.new.from self.new.to self.new.fill self.new.moved) state) [] }
    {
        match self.byte {
            Some(_) => {
                self.byte = None;
                self.left = self.left.saturating_sub(1);
                self.from = beside(self.down, self.from);
                self.to = beside(self.down, self.to);
            }
            None => {
                if self.left > 0 {
                    self.byte = Some((reply % 256) as u8);
                } else if self.fill.left > 0 {
                    self.fill.left -= 1;
                    self.fill.to = beside(false, self.fill.to);
                }
            }
        }
    }
}
