// What rows do.
use crate::call::{Left, Line, call};
use crate::cuts::{refuses_beginnings, refuses_changes, refuses_longer, refuses_prefixes};
use crate::lent::{Lent, object_of};
use crate::replays::is_replayed;
use crate::talks::is_same_live;
use crate::trial::Trial;
use crate::turns::Turns;
use crate::unkept::is_same_unkept;
use anyhow::{Result, bail};
use row_files::{Files, first_word, parted, place_of, spelled};
use row_tally::longword;
use std::alloc::Global;
use std::sync::Wait;
use std::thread::Threads;

/// What rows have made so far: the files, what the next call is lent beside them, what the last one left, and what is called beside it.
#[derive(Drop)]
pub struct Bench {
    files: Files,
    lent: Lent,
    left: Left,
    trial: Trial,
}

/// Whether a row with that verb asks for nothing.
pub fn is_setting(verb: &str) -> bool {
    matches!(
        verb,
        "empty" | "file" | "input" | "fails" | "bytewise" | "holds"
    )
}

impl Bench {
    pub fn empty(alloc: Global) -> Bench {
        Bench {
            files: Files::none(alloc),
            lent: Lent::sound(alloc),
            left: Left::nothing(alloc),
            trial: Trial::empty(alloc),
        }
    }

    // NAME PIECES.
    fn put(&mut self, alloc: Global, rest: &str) -> Result<()> {
        let (name, pieces) = first_word(rest);
        let bytes = spelled(alloc, &self.files, pieces)?;
        self.files.put(alloc, name, bytes)
    }

    /// A row that asks for nothing.
    pub fn set(&mut self, alloc: Global, verb: &str, rest: &str) -> Result<()> {
        match verb {
            "empty" => self.files = Files::none(alloc),
            "file" => self.put(alloc, rest)?,
            "input" => self.lent.input = spelled(alloc, &self.files, rest)?,
            "fails" => self.lent.add_fault(rest)?,
            "bytewise" => self.lent.bytewise = true,
            "holds" => self.lent.add_hold(rest)?,
            _ => bail!("an unknown row"),
        }
        Ok(())
    }

    // One call, and whether it leaves what is wanted, and a run is given again by `replay`, with hints where these are asked for, and is
    // the same where it keeps no history, and where it is talked with.
    fn calls_once<R: Threads + Wait + Sync + Print>(
        &mut self,
        rt: &R,
        alloc: Global,
        line: &str,
        wanted: &str,
        hints: bool,
    ) -> Result<bool> {
        let Bench {
            files,
            lent,
            left,
            trial,
        } = self;
        let replayed = is_replayed(rt, alloc, trial, lent, files, line, hints)?;
        let unkept = is_same_unkept(rt, alloc, trial, lent, files, line, wanted)?;
        call(rt, alloc, lent, files, left, Line::of(line))?;
        let live = is_same_live(rt, alloc, trial, lent, files, line, wanted, left)?;
        Ok(left.is_or_prints(rt, alloc, wanted)? && replayed && unkept && live)
    }

    // LINE: STATUS OUT REPORT, so many times, the first of them with hints.
    fn calls<R: Threads + Wait + Sync + Print>(
        &mut self,
        rt: &R,
        alloc: Global,
        rest: &str,
        times: usize,
    ) -> Result<bool> {
        let (line, wanted) = parted(rest, ": ")?;
        for time in 0..times {
            if !self.calls_once(rt, alloc, line, wanted, time == 0)? {
                return Ok(false);
            }
        }
        self.lent = Lent::sound(alloc);
        Ok(true)
    }

    // COUNT LINE: STATUS OUT REPORT.
    fn calls_again<R: Threads + Wait + Sync + Print>(
        &mut self,
        rt: &R,
        alloc: Global,
        rest: &str,
    ) -> Result<bool> {
        let (count, rest) = first_word(rest);
        self.calls(rt, alloc, rest, place_of(count)?)
    }

    // OBJECT COUNT LINE, with the input that stands.
    fn fails_in_turn<R: Threads + Wait + Sync>(
        &mut self,
        rt: &R,
        alloc: Global,
        rest: &str,
    ) -> Result<bool> {
        let (object, rest) = first_word(rest);
        let (count, line) = first_word(rest);
        let turns = Turns {
            files: &self.files,
            object: object_of(object)?,
            line,
        };
        let agrees = turns.agree(rt, alloc, &mut self.trial, &mut self.lent, count)?;
        self.lent = Lent::sound(alloc);
        Ok(agrees)
    }

    // Whether the name has the bytes that these pieces spell.
    fn has_bytes(&self, alloc: Global, name: &str, pieces: &str) -> Result<bool> {
        let wanted = spelled(alloc, &self.files, pieces)?;
        Ok(self.files.find(name) == Some(wanted.as_slice()))
    }

    // NAME PIECES: whether the name has these bytes, or one of those that have " or " between.
    fn has(&self, alloc: Global, rest: &str) -> Result<bool> {
        let (name, all) = first_word(rest);
        for pieces in all.split(" or ") {
            if self.has_bytes(alloc, name, pieces)? {
                return Ok(true);
            }
        }
        Ok(false)
    }

    // NAME COUNT: whether the name has so many bytes.
    fn has_size(&self, rest: &str) -> Result<bool> {
        let (name, count) = first_word(rest);
        Ok(self.files.get(name)?.len() == place_of(count)?)
    }

    // PIECES: whether `out` begins so.
    fn begins(&self, alloc: Global, pieces: &str) -> Result<bool> {
        Ok(
            self.left
                .out()
                .starts_with(&spelled(alloc, &self.files, pieces)?),
        )
    }

    // ADDRESS PIECES: whether the kept memory has these bytes from there on.
    fn has_memory(&self, alloc: Global, rest: &str) -> Result<bool> {
        let (address, pieces) = first_word(rest);
        let address = longword(address)?;
        let wanted = spelled(alloc, &self.files, pieces)?;
        Ok(self.left.has_memory(alloc, address, &wanted)?)
    }

    // A row about what stands.
    fn stands<R: Print>(&self, rt: &R, alloc: Global, verb: &str, rest: &str) -> Result<bool> {
        match verb {
            "has" => self.has(alloc, rest),
            "size" => self.has_size(rest),
            "absent" => Ok(self.files.find(rest).is_none()),
            "left" => self.left.agrees(rt, alloc, rest),
            "history" => self.left.has_history(alloc, rest),
            "memory" => self.has_memory(alloc, rest),
            "begins" => self.begins(alloc, rest),
            _ => bail!("an unknown row"),
        }
    }

    // A row about a translated file, or an order, that is cut or changed.
    fn refuses<R: Threads + Wait + Sync>(
        &mut self,
        rt: &R,
        alloc: Global,
        verb: &str,
        rest: &str,
    ) -> Result<bool> {
        let Bench { files, trial, .. } = self;
        match verb {
            "prefixes" => refuses_prefixes(rt, alloc, trial, files.get(rest)?),
            "changes" => refuses_changes(rt, alloc, trial, files.get(rest)?),
            "longer" => refuses_longer(rt, alloc, trial, files.get(rest)?),
            _ => refuses_beginnings(rt, alloc, trial, files, rest),
        }
    }

    /// Whether what a row says is so.
    pub fn agrees<R: Threads + Wait + Sync + Print>(
        &mut self,
        rt: &R,
        alloc: Global,
        verb: &str,
        rest: &str,
    ) -> Result<bool> {
        match verb {
            "call" => self.calls(rt, alloc, rest, 1),
            "again" => self.calls_again(rt, alloc, rest),
            "turns" => self.fails_in_turn(rt, alloc, rest),
            "prefixes" | "beginnings" | "changes" | "longer" => {
                self.refuses(rt, alloc, verb, rest)
            }
            _ => self.stands(rt, alloc, verb, rest),
        }
    }
}
