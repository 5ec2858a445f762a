// The command that the words of a line spell.
use crate::app::vximage_app;
use crate::commands::{Command, ListingAsked, PartsAsked};
use crate::values::{ValueFault, Values};
use clap::error::ErrorKind;
use clap::{ArgMatches, Error};
use image_parts::{Functions, Options};
use std::alloc::{AllocError, Global};

/// The bytes of each thread's stack where no option says it.
const STACK: u32 = 0x4000;

/// What is said in place of a command.
#[derive(Drop)]
pub enum Told {
    /// Help or the version, for which the words ask.
    Help(String),
    /// Why the words spell no command.
    Fault(String),
    WantOfMemory,
}

impl<'m, 'a> Values<'m, 'a> {
    fn parts(&mut self) -> PartsAsked<'a> {
        PartsAsked {
            sections: self.all("section"),
            threads: self.all("thread"),
            entries: self.all("entry"),
            entries_file: self.text("entries"),
        }
    }

    fn functions(&self) -> Functions {
        match self.text("functions") {
            Some("routines") => Functions::Routines,
            Some("none") => Functions::Omitted,
            _ => Functions::Procedures,
        }
    }

    fn options(&mut self) -> Options {
        Options {
            starts: self.all("start"),
            entries: self.all("entry"),
            stack: self.number_or("stack", STACK),
            functions: self.functions(),
        }
    }

    fn make(&mut self) -> Command<'a> {
        let out = self.text("OUT").unwrap_or("");
        match self.text("elf") {
            Some(file) => Command::MakeElf {
                out,
                file,
                options: self.options(),
            },
            None => Command::MakeParts {
                out,
                parts: self.parts(),
            },
        }
    }

    // The last address of which lines are listed, which may not be below the first.
    fn last(&mut self, first: u32) -> u32 {
        let last = self.number_or("to", u32::MAX);
        if last < first {
            let value = self.text("to").unwrap_or("");
            self.note(ValueFault::Bad {
                option: "to",
                value,
            });
        }
        last
    }

    fn list(&mut self) -> Command<'a> {
        let first = self.number_or("from", 0);
        Command::List {
            name: self.text("NAME").unwrap_or(""),
            asked: ListingAsked {
                with_words: self.flag("alpha"),
                first,
                last: self.last(first),
                names: self.text("names"),
            },
        }
    }

    fn show(&self) -> Command<'a> {
        Command::Show {
            name: self.text("NAME").unwrap_or(""),
        }
    }

    fn command(&mut self, label: &str) -> Command<'a> {
        match label {
            "make" => self.make(),
            "dis" => self.list(),
            _ => self.show(),
        }
    }
}

// The command of that name, or the first fault of a value.
fn read_values<'a>(
    alloc: Global,
    label: &str,
    matches: &ArgMatches<'a>,
) -> Result<Command<'a>, ValueFault<'a>> {
    let mut values = Values::new(alloc, matches);
    let command = values.command(label);
    match values.fault() {
        Some(fault) => Err(fault),
        None => Ok(command),
    }
}

fn read_matches<'a>(
    alloc: Global,
    matches: &ArgMatches<'a>,
) -> Result<Command<'a>, ValueFault<'a>> {
    match matches.subcommand() {
        Some((label, inner)) => read_values(alloc, label, inner),
        None => Err(ValueFault::Bad {
            option: "",
            value: "",
        }),
    }
}

// What `clap` says.
fn told_by(alloc: Global, error: &Error) -> Told {
    if error.kind() == ErrorKind::OutOfMemory {
        return Told::WantOfMemory;
    }
    match format!(in alloc; "{error}") {
        Ok(text) if error.use_stderr() => Told::Fault(text),
        Ok(text) => Told::Help(text),
        Err(_) => Told::WantOfMemory,
    }
}

// What `clap` says of a value.
fn error_of(
    alloc: Global,
    app: &mut clap::Command<'_>,
    option: &str,
    value: &str,
) -> Result<Error, AllocError> {
    let message = format!(in alloc; "invalid value '{value}' for '--{option}'")?;
    app.error(ErrorKind::ValueValidation, message.as_str())
}

// What is said of a value.
fn told_of_value(alloc: Global, app: &mut clap::Command<'_>, fault: ValueFault<'_>) -> Told {
    let ValueFault::Bad { option, value } = fault else {
        return Told::WantOfMemory;
    };
    match error_of(alloc, app, option, value) {
        Ok(error) => told_by(alloc, &error),
        Err(_) => Told::WantOfMemory,
    }
}

// The command of these matches, or what is said of a value.
fn command_of<'a>(
    alloc: Global,
    app: &mut clap::Command<'_>,
    matches: &ArgMatches<'a>,
) -> Result<Command<'a>, Told> {
    match read_matches(alloc, matches) {
        Ok(command) => Ok(command),
        Err(fault) => Err(told_of_value(alloc, app, fault)),
    }
}

// The command of what the words match, or what `clap` says of them.
fn read_by<'a>(
    alloc: Global,
    app: &mut clap::Command<'a>,
    words: &'a [String],
) -> Result<Command<'a>, Told> {
    match app.try_get_matches_from_mut(words) {
        Ok(matches) => command_of(alloc, app, &matches),
        Err(error) => Err(told_by(alloc, &error)),
    }
}

/// The command that the words behind the program's name spell, or what is said in its place. It borrows its names from the words.
pub fn read_words<'a>(alloc: Global, words: &'a [String]) -> Result<Command<'a>, Told> {
    match vximage_app(alloc) {
        Ok(mut app) => read_by(alloc, &mut app, words),
        Err(_) => Err(Told::WantOfMemory),
    }
}
