//! Tables of rows, for the programs that go through them: how they are read, how many rows there are and how many agree.
#![tactic(auto)]

mod columns;
mod families;
mod fault;
mod lists;
mod reading;
mod tables;

ghost use Rattle.std.specs.Prelude.{◌≡◌, ◌+◌, ◌↔◌, min, if◌then◌else◌, IsOk};

use anyhow::{Result, ensure};
pub use columns::{five_fields, five_fields_and_rest, four_fields, three_fields, two_fields};
pub use families::Families;
pub use fault::RowFault;
pub use lists::{bytes_or_none, longwords, pair, pairs};
pub use reading::{bytes, fields, longword, number, pieces, rows, words};
use std::fmt::Debug;
pub use tables::{Given, ask_rows, check_cases, check_rows};

/// How many rows there were, and how many agree; neither counts on beyond the greatest number.
#[derive(Clone, Copy, Debug, PartialEq, Eq)]
pub struct Tally {
    pub rows: u32,
    pub agree: u32,
}

impl Tally {
    pub const NONE: Tally = Tally { rows: 0, agree: 0 };

    /// Counts a row.
    pub fn count(&mut self, agrees: bool)
        ensures rows { self.new.rows ≡ min (self.old.rows + 1) u32.MAX }
        ensures agree { self.new.agree ≡ (if agrees then min (self.old.agree + 1) u32.MAX else self.old.agree) }
    {
        self.rows = self.rows.saturating_add(1);
        if agrees {
            self.agree = self.agree.saturating_add(1);
        }
    }

    /// Adds the rows of another table.
    pub fn add(&mut self, other: Tally)
        ensures rows { self.new.rows ≡ min (self.old.rows + other.rows) u32.MAX }
        ensures agree { self.new.agree ≡ min (self.old.agree + other.agree) u32.MAX }
    {
        self.rows = self.rows.saturating_add(other.rows);
        self.agree = self.agree.saturating_add(other.agree);
    }

    /// Counts a row, and prints what was found where it is not what is wanted.
    pub fn check<T: PartialEq + Debug>(
        &mut self,
        rt: &impl Print,
        row: &str,
        found: &T,
        wanted: &T,
    ) -> Result<()>
        ensures rows { self.new.rows ≡ min (self.old.rows + 1) u32.MAX }
        ensures agree { self.new.agree ≡ (if T.eq found.now wanted.now then min (self.old.agree + 1) u32.MAX else self.old.agree) }
    {
        let agrees = found == wanted;
        self.count(agrees);
        if !agrees {
            println!(rt; "{row}: {found:?}, not {wanted:?}")?;
        }
        Ok(())
    }

    /// Refuses a tally in which a row disagrees, so that a program which ends with it has another status.
    pub fn verdict(self) -> Result<()>
        ensures { IsOk result ↔ self.agree ≡ self.rows }
    {
        ensure!(self.agree == self.rows, "rows disagree");
        Ok(())
    }

    pub fn print(self, rt: &impl Print, table: &str) -> Result<()> {
        println!(rt; "{table}: {} of {} agree", self.agree, self.rows)?;
        Ok(())
    }
}
