// The header, and where the tables stand behind it.
ghost use Rattle.std.specs.Prelude.{◌≡◌, ◌≤◌, ◌<◌, ◌^◌, length, IfOk, OnOk};
ghost use Rattle.image_file.specs.Reading.{rows_at, tables_end, counts_allowed, counts_of};

use crate::fields::{half_at, word_at};
use crate::limits::*;
use crate::refusal::ImageRefusal;

/// The version, and how many threads, sections and entries the tables have.
#[derive(Clone, Copy, Debug, PartialEq, Eq)]
pub struct Counts {
    pub version: u16,
    pub threads: u16,
    pub sections: u16,
    pub entries: u16,
}

impl Counts {
    /// Where the section table stands.
    pub fn rows_at(&self) -> usize
        ensures value { result ≡ rows_at self.now }
        ensures bound { result < 2 ^ 31 }
    {
        HEADER + start_width(self.version) * self.threads as usize
    }

    /// Where the tables end.
    pub fn tables_end(&self) -> usize
        ensures value { result ≡ tables_end self.now }
        ensures bound { result < 2 ^ 32 }
    {
        self.rows_at() + ROW_BYTES * self.sections as usize + ENTRY_BYTES * self.entries as usize
    }

    #[tactic(auto, unfolding(crate::specs::Reading::counts_allowed))]
    fn check(&self) -> Result<(), ImageRefusal>
        ensures value { result ≡ counts_allowed self.now }
        ensures sections { OnOk result (self.now.sections ≤ MOST_SECTIONS) }
        ensures entries { OnOk result (self.now.entries ≤ MOST_ENTRIES) }
    {
        if self.threads == 0 {
            return Err(ImageRefusal::NoThread);
        }
        if self.threads > most_threads(self.version) {
            let count = self.threads;
            return Err(ImageRefusal::TooManyThreads { count });
        }
        if self.sections > MOST_SECTIONS {
            let count = self.sections;
            return Err(ImageRefusal::TooManySections { count });
        }
        if self.entries > MOST_ENTRIES {
            let count = self.entries;
            return Err(ImageRefusal::TooManyEntries { count });
        }
        Ok(())
    }
}

/// The header's numbers, where all that they announce is there.
#[tactic(auto, unfolding(crate::specs::Reading::counts_of))]
pub fn counts_of(bytes: &[u8]) -> Result<Counts, ImageRefusal>
    ensures value { result ≡ counts_of bytes.now }
    ensures tables { IfOk result (λ counts. tables_end counts ≤ length bytes.now) }
    ensures sections { IfOk result (λ counts. counts.sections ≤ MOST_SECTIONS) }
    ensures entries { IfOk result (λ counts. counts.entries ≤ MOST_ENTRIES) }
{
    let at = bytes.len() as u64;
    if bytes.len() < HEADER {
        return Err(ImageRefusal::Truncated { at });
    }
    if word_at(bytes, 0) != MAGIC {
        return Err(ImageRefusal::BadMagic);
    }
    let found = half_at(bytes, 4);
    if !is_version(found) {
        return Err(ImageRefusal::BadVersion { found });
    }
    let counts = Counts {
        version: found,
        threads: half_at(bytes, 6),
        sections: half_at(bytes, 8),
        entries: half_at(bytes, 10),
    };
    counts.check()?;
    if bytes.len() < counts.tables_end() {
        return Err(ImageRefusal::Truncated { at });
    }
    Ok(counts)
}
