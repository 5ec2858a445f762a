//! Reads a command line with `clap`: the command that the words spell, or that they spell none.
//!
//! A new command is a row of `forms` (`specs/Commands.antt`), a builder call (`app.rt`) and a reader (`commands.rt`).
#![tactic(auto)]

ghost use Rattle.std.specs.Prelude.{◌≡◌, IfOk, IfErr, None, map};
ghost use Rattle.std.specs.String.{string_bytes};
ghost use Rattle.command_words.specs.App.{MatchesLine};
ghost use Rattle.command_words.specs.Forms.{line_of};
ghost use Rattle.command_words.specs.Commands.{forms, spells};
ghost use Rattle.command_words.specs.Answers.{AnswersTo};

mod app;
mod commands;
mod numbers;
mod values;

use clap::ArgMatches;
use clap::error::ErrorKind;
pub use commands::{Command, DEFAULT_LIMITS, Keeping, Limits, LiveOptions, RunOptions, Target};
pub use numbers::Range;
use std::alloc::Global;

/// Why no command was read.
#[derive(Clone, Copy, Debug, PartialEq, Eq)]
pub enum WordsFault {
    /// The words spell no command.
    Usage,
    WantOfMemory,
}

// The matches of the words, where they are a command's title, names and options.
fn matches_of<'a>(alloc: Global, words: &'a [String]) -> Result<ArgMatches<'a>, WordsFault>
    ensures ok { IfOk result (λ m. MatchesLine (map string_bytes words.entry.now) m) }
    ensures usage { IfErr result (λ e. e ≡ WordsFault.Usage
        → line_of forms (map string_bytes words.entry.now) ≡ None) }
{
    let Ok(command) = app::vest_app(alloc) else {
        return Err(WordsFault::WantOfMemory);
    };
    match command.try_get_matches_from(words) {
        Ok(matches) => Ok(matches),
        Err(error) => match error.kind() {
            ErrorKind::OutOfMemory => Err(WordsFault::WantOfMemory),
            _ => Err(WordsFault::Usage),
        },
    }
}

/// The command that the words behind the program's name spell. It borrows its names from the words.
///
/// `Usage` comes only where they spell none. A command line takes memory to read, so where they spell none the answer may
/// also be `WantOfMemory`.
pub fn read_words<'a>(alloc: Global, words: &'a [String]) -> Result<Command<'a>, WordsFault>
    ensures { AnswersTo (spells forms (map string_bytes words.entry.now)) result }
{
    let matches = matches_of(alloc, words)?;
    let Some((title, inner)) = matches.subcommand() else {
        return Err(WordsFault::Usage);
    };
    match title {
        "run" => commands::read_run(alloc, inner),
        "translate" => commands::read_translate(inner).ok_or(WordsFault::Usage),
        "list" => commands::read_list(inner).ok_or(WordsFault::Usage),
        "generate" => commands::read_generate(inner).ok_or(WordsFault::Usage),
        "replay" => commands::read_replay(inner).ok_or(WordsFault::Usage),
        _ => Err(WordsFault::Usage),
    }
}
