// What the values of options write.
use crate::commands::SectionAsked;
use crate::numbers::hexadecimal;
use clap::ArgMatches;
use image_file::{FIRST_REGISTERS, Start};
use std::alloc::Global;

/// Why the values of an option are not read.
#[derive(Clone, Copy)]
pub enum ValueFault<'a> {
    /// A value writes nothing that the option takes.
    Bad { option: &'a str, value: &'a str },
    WantOfMemory,
}

/// What is left of a value, and whether what was taken of it is what its option takes. A piece that is not there is empty.
#[derive(Clone, Copy)]
pub struct Pieces<'a> {
    rest: Option<&'a str>,
    is_bad: bool,
}

impl<'a> Pieces<'a> {
    fn of(value: &'a str) -> Pieces<'a> {
        Pieces {
            rest: Some(value),
            is_bad: false,
        }
    }

    // Whether the value writes nothing that its option takes.
    fn are_bad(&self) -> bool {
        self.is_bad || self.rest.is_some()
    }

    // What stands before the end, or all that is left where there is none.
    fn piece(&mut self, end: char) -> &'a str {
        let text = self.rest.unwrap_or("");
        match text.split_once(end) {
            Some((piece, rest)) => {
                self.rest = Some(rest);
                piece
            }
            None => {
                self.rest = None;
                text
            }
        }
    }

    fn number(&mut self) -> u32 {
        match hexadecimal(self.piece(':').as_bytes()) {
            Some(number) => number,
            None => {
                self.is_bad = true;
                0
            }
        }
    }

    // Whether the section may be written: r or w.
    fn rights(&mut self) -> bool {
        match self.piece(':') {
            "w" => true,
            "r" => false,
            _ => {
                self.is_bad = true;
                false
            }
        }
    }

    // A:r|w:SIZE[:FILE].
    fn section(&mut self) -> SectionAsked<'a> {
        SectionAsked {
            start: self.number(),
            writable: self.rights(),
            size: self.number(),
            file: self.rest.take(),
        }
    }

    // Rn=X.
    fn set_register(&mut self, registers: &mut [u32; FIRST_REGISTERS]) {
        let number = register_number(self.piece('='));
        let value = self.number();
        match registers.get_mut(usize::from(number)) {
            Some(register) => *register = value,
            None => self.is_bad = true,
        }
    }

    // [Rn=X,..].
    fn registers(&mut self) -> [u32; FIRST_REGISTERS] {
        let mut registers = [0; FIRST_REGISTERS];
        if let Some(text) = self.rest.take() {
            for one in text.split(',') {
                let mut pieces = Pieces::of(one);
                pieces.set_register(&mut registers);
                self.is_bad |= pieces.are_bad();
            }
        }
        registers
    }

    // PC:SP[:Rn=X,..].
    fn thread(&mut self) -> Start {
        Start {
            pc: self.number(),
            sp: self.number(),
            first: self.registers(),
        }
    }
}

// n of Rn, or a number that no register has.
fn register_number(name: &str) -> u8 {
    match name.strip_prefix('R') {
        Some(digits) => digits.parse().unwrap_or(u8::MAX),
        None => u8::MAX,
    }
}

/// What a value of an option writes.
pub trait FromPieces<'a>: Sized + Drop {
    fn taken(pieces: &mut Pieces<'a>) -> Self;
}

impl<'a> FromPieces<'a> for u32 {
    fn taken(pieces: &mut Pieces<'a>) -> u32 {
        pieces.number()
    }
}

impl<'a> FromPieces<'a> for SectionAsked<'a> {
    fn taken(pieces: &mut Pieces<'a>) -> SectionAsked<'a> {
        pieces.section()
    }
}

impl<'a> FromPieces<'a> for Start {
    fn taken(pieces: &mut Pieces<'a>) -> Start {
        pieces.thread()
    }
}

/// The values of a command's options. The first fault of one is noted, and all are read on.
#[derive(Drop)]
pub struct Values<'m, 'a> {
    alloc: Global,
    matches: &'m ArgMatches<'a>,
    fault: Option<ValueFault<'a>>,
}

impl<'m, 'a> Values<'m, 'a> {
    pub fn new(alloc: Global, matches: &'m ArgMatches<'a>) -> Values<'m, 'a> {
        Values {
            alloc,
            matches,
            fault: None,
        }
    }

    /// What was noted.
    pub fn fault(&self) -> Option<ValueFault<'a>> {
        self.fault
    }

    pub fn note(&mut self, fault: ValueFault<'a>) {
        if self.fault.is_none() {
            self.fault = Some(fault);
        }
    }

    fn read<T: FromPieces<'a>>(&mut self, option: &'a str, value: &'a str) -> T {
        let mut pieces = Pieces::of(value);
        let read = T::taken(&mut pieces);
        if pieces.are_bad() {
            self.note(ValueFault::Bad { option, value });
        }
        read
    }

    /// The text of an option, where it is there.
    pub fn text(&self, option: &str) -> Option<&'a str> {
        self.matches.get_str(option)
    }

    /// Whether a flag is there.
    pub fn flag(&self, option: &str) -> bool {
        self.matches.get_flag(option)
    }

    /// The number of an option, where it is there.
    pub fn number_or(&mut self, option: &'a str, otherwise: u32) -> u32 {
        match self.text(option) {
            Some(value) => self.read(option, value),
            None => otherwise,
        }
    }

    fn push<T: FromPieces<'a>>(&mut self, option: &'a str, value: &'a str, all: &mut Vec<T>) {
        let item = self.read(option, value);
        if all.push(item).is_err() {
            self.note(ValueFault::WantOfMemory);
        }
    }

    /// What the values of an option write, which may stand again, or not at all.
    pub fn all<T: FromPieces<'a>>(&mut self, option: &'a str) -> Vec<T> {
        let mut all = Vec::new(self.alloc);
        for value in self.matches.get_strs(option).unwrap_or(&[]) {
            self.push(option, value, &mut all);
        }
        all
    }
}
