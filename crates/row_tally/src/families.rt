// The tallies of a table whose rows stand in families, each behind a row with its name.
ghost use Rattle.std.specs.Prelude.{◌≡◌, ◌+◌, min, if◌then◌else◌, IfOk};

use crate::Tally;
use anyhow::Result;

/// The family that rows are counted for, its tally so far, and that of the families before it.
#[derive(Clone, Copy, Debug)]
pub struct Families<'a> {
    pub name: &'a str,
    pub tally: Tally,
    pub before: Tally,
}

impl<'a> Families<'a> {
    pub const NONE: Families<'static> = Families {
        name: "",
        tally: Tally::NONE,
        before: Tally::NONE,
    };

    /// Counts a row of the family.
    pub fn count(&mut self, agrees: bool)
        ensures rows { self.new.tally.rows ≡ min (self.old.tally.rows + 1) u32.MAX }
        ensures agree { self.new.tally.agree ≡ (if agrees then min (self.old.tally.agree + 1) u32.MAX else self.old.tally.agree) }
        ensures before { self.new.before ≡ self.old.before }
    {
        self.tally.count(agrees);
    }

    /// Prints the tally of the family, if there is one, and begins the next.
    pub fn begin(&mut self, rt: &impl Print, name: &'a str) -> Result<()>
        ensures rows { self.new.before.rows ≡ min (self.old.before.rows + self.old.tally.rows) u32.MAX }
        ensures agree { self.new.before.agree ≡ min (self.old.before.agree + self.old.tally.agree) u32.MAX }
        ensures nothing { self.new.tally.rows ≡ 0 }
    {
        let (family, tally) = (self.name, self.tally);
        self.name = name;
        self.before.add(tally);
        self.tally = Tally::NONE;
        if !family.is_empty() {
            tally.print(rt, family)?;
        }
        Ok(())
    }

    /// Prints the tally of the last family and that of all, and gives the latter.
    pub fn end(&mut self, rt: &impl Print) -> Result<Tally>
        ensures rows { self.new.before.rows ≡ min (self.old.before.rows + self.old.tally.rows) u32.MAX }
        ensures agree { self.new.before.agree ≡ min (self.old.before.agree + self.old.tally.agree) u32.MAX }
        ensures all { IfOk result (λ tally. tally ≡ self.new.before) }
    {
        self.begin(rt, "")?;
        self.before.print(rt, "all")?;
        Ok(self.before)
    }
}
