// What is asked of an image made of a program.
use std::marker::Model;

/// Which of a file's symbols of functions become entries.
#[derive(Clone, Copy)]
pub enum Functions {
    /// All, as procedures that CALLS and CALLG call: each begins with two bytes that name registers.
    Procedures,
    /// All, as routines that JSB calls.
    Routines,
    /// None.
    Omitted,
}

/// How an image is made of a program.
#[derive(Drop)]
pub struct Options {
    /// Where threads start, one each. Where there are none, one thread starts where the program does.
    pub starts: Vec<u32>,
    /// The bytes of each thread's stack.
    pub stack: u32,
    pub functions: Functions,
    /// Further entries.
    pub entries: Vec<u32>,
}

impl Model for Options {
    ghost use Rattle.image_parts.specs.Values.{OptionsValue};

    ghost Value = { OptionsValue };

    ghost view = { λ o. record { starts = o.starts.items; stack = o.stack; functions = o.functions; entries = o.entries.items } };
}
