// CMPC3: strings compared a byte at a time.
ghost use Rattle.std.specs.Prelude.{◌≡◌, ◌==◌, ◌-◌, ◌∷◌, [], IfSome, is_some};
ghost use Rattle.vax_meaning.specs.Play.{Plays, Uses};

use crate::byte::{may_be_read, next_byte, read_of};
use vax_form::{End, Pages, Reference, Stop, Width};
use vax_long::{beside, beyond, compare_bytes};
use vax_meaning::{Cursor, go_to, set_codes, set_compared, set_register_of};

/// How far the next two bytes are.
#[derive(Clone, Copy, Debug, PartialEq, Eq)]
pub(crate) enum Pair {
    /// The first is read next.
    First,
    /// The second is read next; this is the first.
    Second(u8),
    /// They differ.
    Differs(u8, u8),
}

/// Two strings as they were begun, and the PC behind their comparison.
#[derive(Clone, Copy, Debug, PartialEq, Eq)]
pub(crate) struct Compared {
    pub(crate) count: u16,
    pub(crate) first: u32,
    pub(crate) second: u32,
    pub(crate) after: u32,
}

/// Two strings that are being compared.
#[derive(Clone, Copy, Debug, PartialEq, Eq)]
pub(crate) struct Comparing {
    /// How many bytes are left, and where the next two are read.
    pub(crate) left: u16,
    pub(crate) first: u32,
    pub(crate) second: u32,
    pub(crate) pair: Pair,
    /// Whether the next byte was checked.
    pub(crate) checked: bool,
    pub(crate) compared: Compared,
}

fn is_same(one: u8, other: u8) -> bool
    ensures { result ≡ (one == other) }
{
    one == other
}

impl Comparing {
    ghost use Rattle.vax_form.specs.Tree.{feed, instruction_tree};
    ghost use Rattle.vax_form.specs.declared.pages.Pages.{Pages};
    ghost use Rattle.vax_form.specs.declared.state.VaxState.{VaxState};
    ghost use Rattle.tie_operands.specs.Steps.{IsAsking, Shows};
    ghost use Rattle.tie_operands.specs.declared.step.TieStep.TheVariants.{Want};
    ghost use Rattle.tie_strings.specs.Compares.{compare_second, compare_on, comparing_script};
    ghost use Rattle.tie_strings.specs.Strings.{compare_tells};

    /// Compares the second of two bytes with the first, and what is left behind both.
    fn second_compared(&self, cursor: &mut Cursor, checked: bool, one: u8) -> Result<u16, Stop>
        ensures plays { Plays (compare_second checked one (self.now.left - 1) self.now.left self.now.first self.now.second) cursor.old result cursor.new }
        ensures few { Uses 131071 cursor.old result cursor.new }
    {
        let other = next_byte(cursor, checked, self.second)?;
        if one == other {
            compare_bytes(
                cursor,
                self.left.saturating_sub(1),
                beside(false, self.first),
                beside(false, self.second),
            )
        } else {
            set_compared(cursor, Width::Byte, one as u64, other as u64);
            Ok(self.left)
        }
    }

    /// Compares what is left, and gives the number of bytes left.
    #[tactic(auto, unfolding(crate::specs::Compares::compare_on))]
    fn bytes_compared_on(&self, cursor: &mut Cursor) -> Result<u16, Stop>
        ensures plays { Plays (compare_on self.now.checked self.now.pair self.now.left self.now.first self.now.second) cursor.old result cursor.new }
        ensures few { Uses 131072 cursor.old result cursor.new }
    {
        match self.pair {
            Pair::First => {
                if self.left == 0 {
                    set_codes(cursor, false, true, false, false);
                    return Ok(0);
                }
                let one = next_byte(cursor, self.checked, self.first)?;
                self.second_compared(cursor, false, one)
            }
            Pair::Second(one) => self.second_compared(cursor, self.checked, one),
            Pair::Differs(one, other) => {
                set_compared(cursor, Width::Byte, one as u64, other as u64);
                Ok(self.left)
            }
        }
    }

    /// Goes through what is left of the instruction.
    #[tactic(auto, unfolding(crate::specs::Compares::comparing_script))]
    pub(crate) fn run(&self, cursor: &mut Cursor) -> Result<End, Stop>
        ensures plays { Plays (comparing_script self.now.checked self.now.pair self.now.left self.now.first self.now.second self.now.compared) cursor.old result cursor.new }
        ensures few { Uses 131072 cursor.old result cursor.new }
    {
        let left = self.bytes_compared_on(cursor)?;
        let done = self.compared.count.saturating_sub(left);
        set_register_of(cursor, 0, left as u32);
        set_register_of(cursor, 1, beyond(self.compared.first, done));
        set_register_of(cursor, 2, left as u32);
        set_register_of(cursor, 3, beyond(self.compared.second, done));
        go_to(cursor, self.compared.after)
    }

    /// The reference that is wanted, if any.
    #[inline(always)]
    pub(crate) fn wanted(&self, pages: &Pages) -> Option<Reference>
        ensures just { is_some result ≡ compare_tells pages.now self.now }
        ensures shows { IfSome result (λ reference. (before state : VaxState)
            → Shows before (feed pages.now (instruction_tree pages.now (comparing_script self.now.checked self.now.pair self.now.left self.now.first self.now.second self.now.compared) state) []) (Want reference)) }
    {
        match self.pair {
            Pair::First => {
                if self.left > 0 && may_be_read(self.checked, pages, self.first) {
                    Some(read_of(self.first))
                } else {
                    None
                }
            }
            Pair::Second(_) => {
                if may_be_read(self.checked, pages, self.second) {
                    Some(read_of(self.second))
                } else {
                    None
                }
            }
            Pair::Differs(_, _) => None,
        }
    }

    /// Notes that the byte that is wanted was checked.
    pub(crate) fn note_check(&mut self)
        ensures { (pages : Pages) (state : VaxState)
            → IsAsking (feed pages (instruction_tree pages (comparing_script self.old.checked self.old.pair self.old.left self.old.first self.old.second self.old.compared) state) [])
            → feed pages (instruction_tree pages (comparing_script self.new.checked self.new.pair self.new.left self.new.first self.new.second self.new.compared) state) []
            ≡ feed pages (instruction_tree pages (comparing_script self.old.checked self.old.pair self.old.left self.old.first self.old.second self.old.compared) state) [] }
    {
        self.checked = true;
    }

    /// Takes the reply to the reference that is wanted.
    #[inline(always)]
    pub(crate) fn take(&mut self, reply: u64)
        ensures { (pages : Pages) (state : VaxState)
            → IsAsking (feed pages (instruction_tree pages (comparing_script self.old.checked self.old.pair self.old.left self.old.first self.old.second self.old.compared) state) [])
            → feed pages (instruction_tree pages (comparing_script self.old.checked self.old.pair self.old.left self.old.first self.old.second self.old.compared) state) (reply ∷ [])
            ≡ feed pages (instruction_tree pages (comparing_script self.new.checked self.new.pair self.new.left self.new.first self.new.second self.new.compared) state) [] }
    {
        let byte = (reply % 256) as u8;
        match self.pair {
            Pair::First => {
                if self.left > 0 {
                    self.checked = false;
                    self.pair = Pair::Second(byte);
                }
            }
            Pair::Second(one) => {
                self.checked = false;
                if is_same(one, byte) {
                    self.pair = Pair::First;
                    self.left = self.left.saturating_sub(1);
                    self.first = beside(false, self.first);
                    self.second = beside(false, self.second);
                } else {
                    self.pair = Pair::Differs(one, byte);
                }
            }
            Pair::Differs(_, _) => {}
        }
    }
}
