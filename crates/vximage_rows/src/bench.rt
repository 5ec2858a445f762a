// What rows do.
use crate::call::{Left, Lent, call};
use crate::pieces::{decoded, text_of};
use crate::turns::{Turns, stream_of};
use anyhow::{Context, Result, bail, ensure};
use row_files::{Files, first_word, spelled, words_of};
use row_tally::number;
use std::alloc::{AllocError, Global};
use std::fs;
use translate::Target;
use vest_files::translate_file;
use vest_stops::Done;

/// Stands for anything in a text.
const ANYTHING: char = '*';

/// Stands for no text.
const NOTHING: &str = "-";

/// What rows have made so far: the files, what the next call is lent beside them, and what the last one left.
#[derive(Drop)]
pub struct Bench {
    files: Files,
    lent: Lent,
    left: Option<Left>,
}

/// Whether a row with that verb asks for nothing.
pub fn is_setting(verb: &str) -> bool {
    matches!(
        verb,
        "empty" | "file" | "text" | "hex" | "translate" | "fails" | "bytewise" | "call"
    )
}

/// The text of bytes, in which a line end is written |.
fn lines_of(alloc: Global, bytes: &[u8]) -> Result<String, AllocError> {
    if bytes.is_empty() {
        return String::from_str(alloc, NOTHING);
    }
    let text = String::from_utf8_lossy(alloc, bytes)?;
    text.replace(alloc, '\n', "|")
}

/// What is behind the first of these texts, behind that the next of them, and so on.
fn behind<'a>(found: &'a str, texts: &str) -> Option<&'a str> {
    let mut rest = found;
    for text in texts.split(ANYTHING) {
        let (_, next) = rest.split_once(text)?;
        rest = next;
    }
    Some(rest)
}

/// Whether a text is the wanted one, in which * stands for anything.
fn is_text(found: &str, wanted: &str) -> bool {
    let Some((first, others)) = wanted.split_once(ANYTHING) else {
        return found == wanted;
    };
    let Some(rest) = found.strip_prefix(first) else {
        return false;
    };
    match others.rsplit_once(ANYTHING) {
        Some((between, last)) => behind(rest, between).is_some_and(|end| end.ends_with(last)),
        None => rest.ends_with(others),
    }
}

/// Whether bytes are the wanted text.
fn is_said(alloc: Global, bytes: &[u8], wanted: &str) -> Result<bool> {
    Ok(is_text(lines_of(alloc, bytes)?.as_str(), wanted))
}

/// Whether a call left what a row says.
fn is_left(alloc: Global, left: &Left, verb: &str, rest: &str) -> Result<bool> {
    match verb {
        "status" => Ok(left.status == number(rest)?),
        "out" => is_said(alloc, left.out.bytes(), rest),
        "report" => is_said(alloc, left.report.bytes(), rest),
        _ => bail!("an unknown row"),
    }
}

impl Bench {
    pub fn empty(alloc: Global) -> Bench {
        Bench {
            files: Files::none(alloc),
            lent: Lent::sound(alloc),
            left: None,
        }
    }

    // NAME PIECES.
    fn put(&mut self, alloc: Global, rest: &str) -> Result<()> {
        let (name, pieces) = first_word(rest);
        let bytes = spelled(alloc, &self.files, pieces)?;
        self.files.put(alloc, name, bytes)
    }

    // NAME TEXT.
    fn put_text(&mut self, alloc: Global, rest: &str) -> Result<()> {
        let (name, text) = first_word(rest);
        self.files.put(alloc, name, text_of(alloc, text)?)
    }

    // NAME FILE.
    fn put_hex<R: fs::Files + AllocGlobal>(&mut self, rt: &R, rest: &str) -> Result<()> {
        let (name, file) = first_word(rest);
        let text = fs::read_to_string(rt, file).context("a file of hexadecimal lines")?;
        let bytes = decoded(rt.alloc(), text.as_str())?;
        self.files.put(rt.alloc(), name, bytes)
    }

    // IMAGE OUT.
    fn translate(&mut self, alloc: Global, rest: &str) -> Result<()> {
        let names = words_of(alloc, rest)?;
        let [image, out] = names.as_slice() else {
            bail!("two names");
        };
        let mut desk = self.files.desk(alloc, Vec::new(alloc))?;
        let done = translate_file(alloc, image, None, out, Target::Original, &mut desk);
        ensure!(matches!(done, Ok(Done::Ok)), "no translation");
        self.files.take(alloc, &mut desk, &names)
    }

    // OBJECT CALL.
    fn fail(&mut self, rest: &str) -> Result<()> {
        let (object, call) = first_word(rest);
        let call = number(call)?;
        let fails = match object {
            "desk" => &mut self.lent.desk_fails,
            "out" => &mut self.lent.out_fails,
            "report" => &mut self.lent.report_fails,
            _ => bail!("an unknown object"),
        };
        fails.push(call)?;
        Ok(())
    }

    fn call(&mut self, alloc: Global, line: &str) -> Result<()> {
        self.left = Some(call(alloc, &self.lent, &mut self.files, line)?);
        self.lent = Lent::sound(alloc);
        Ok(())
    }

    /// A row that asks for nothing.
    pub fn set<R: fs::Files + AllocGlobal>(
        &mut self,
        rt: &R,
        verb: &str,
        rest: &str,
    ) -> Result<()> {
        let alloc = rt.alloc();
        match verb {
            "empty" => {
                self.files = Files::none(alloc);
                Ok(())
            }
            "file" => self.put(alloc, rest),
            "text" => self.put_text(alloc, rest),
            "hex" => self.put_hex(rt, rest),
            "translate" => self.translate(alloc, rest),
            "fails" => self.fail(rest),
            "bytewise" => {
                self.lent.bytewise = true;
                Ok(())
            }
            "call" => self.call(alloc, rest),
            _ => bail!("an unknown row"),
        }
    }

    fn left(&self) -> Result<&Left> {
        self.left.as_ref().context("a call before")
    }

    // NAME PIECES: whether the name has these bytes.
    fn has(&self, alloc: Global, rest: &str) -> Result<bool> {
        let (name, pieces) = first_word(rest);
        let wanted = spelled(alloc, &self.files, pieces)?;
        Ok(self.files.find(name) == Some(wanted.as_slice()))
    }

    // STREAM LINE: whether each call of the stream that fails in turn leaves what it has to.
    fn fails_in_turn(&self, alloc: Global, rest: &str) -> Result<bool> {
        let (stream, line) = first_word(rest);
        let turns = Turns {
            files: &self.files,
            stream: stream_of(stream)?,
            line,
        };
        turns.are_cut(alloc)
    }

    /// Whether what a row says is so.
    pub fn agrees(&self, alloc: Global, verb: &str, rest: &str) -> Result<bool> {
        match verb {
            "has" => self.has(alloc, rest),
            "absent" => Ok(self.files.find(rest).is_none()),
            "turns" => self.fails_in_turn(alloc, rest),
            _ => is_left(alloc, self.left()?, verb, rest),
        }
    }

    /// What the last call left.
    pub fn print_left<R: AllocGlobal + Print>(&self, rt: &R) -> Result<()> {
        let left = self.left()?;
        let out = lines_of(rt.alloc(), left.out.bytes())?;
        let report = lines_of(rt.alloc(), left.report.bytes())?;
        println!(rt; "left {} {out} {report}", left.status)?;
        Ok(())
    }
}
