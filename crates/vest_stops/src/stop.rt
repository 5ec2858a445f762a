//! Why a call stops before it has written anything, and the line that says so.
ghost use Rattle.std.specs.Prelude.{◌≡◌, ◌≤◌, length};
ghost use Rattle.vest_stops.specs.declared.stop.Stop.TheVariants.{WantOfMemory as NoMemory};

use crate::status::Status;
use arrayvec::ArrayVec;
use report_text::{LINE_ROOM, Line, MOST_NUMBERS, Subject, refused_line};
use std::alloc::AllocError;
use std::marker::Model;
use vax_form::WantOfMemory;

/// What is refused, and the numbers of the refusal.
#[derive(Debug, Drop)]
pub struct Refusal {
    subject: Subject,
    numbers: ArrayVec<u64, MOST_NUMBERS>,
}

impl Model for Refusal {
    ghost use Rattle.vest_stops.specs.Refusal.{RefusalValue};

    ghost Value = { RefusalValue };

    ghost view = { λ r. record { subject = r.subject; numbers = r.numbers.items } };
}

impl Refusal {
    ghost use Rattle.vest_stops.specs.Refusal.{told};
    ghost use Rattle.report_text.specs.Refused.{refused_text};

    pub fn new(subject: Subject, numbers: &[u64]) -> Refusal
        requires { length numbers.now ≤ MOST_NUMBERS }
        ensures { result ≡ told subject numbers.now }
    {
        let mut copied = ArrayVec::new();
        for number in numbers {
            copied.push(*number);
        }
        Refusal {
            subject,
            numbers: copied,
        }
    }

    fn line(&self) -> Line
        ensures { result ≡ refused_text self.now.subject self.now.numbers }
    {
        refused_line(self.subject, self.numbers.as_slice())
    }
}

/// Why a call stops before it has written anything.
#[derive(Debug, Drop)]
pub enum Stop {
    /// The desk has no such file.
    Absent,
    Refused(Refusal),
    ReadFault,
    /// The file or the input has too many bytes.
    TooLong,
    WantOfMemory,
}

impl Stop {
    ghost use Rattle.vest_stops.specs.Status.{status_of};
    ghost use Rattle.vest_stops.specs.Line.{line_of};

    pub fn status(&self) -> Status
        ensures { result ≡ status_of self.now }
    {
        match self {
            Stop::Absent => Status::Absent,
            Stop::Refused(_) => Status::Refused,
            Stop::ReadFault => Status::ReadFault,
            Stop::TooLong => Status::TooLong,
            Stop::WantOfMemory => Status::WantOfMemory,
        }
    }

    /// The line that says why, made without memory.
    pub fn line(&self) -> Line
        ensures { result ≡ line_of self.now }
    {
        match self {
            Stop::Absent => line(b"absent\n"),
            Stop::Refused(refusal) => refusal.line(),
            Stop::ReadFault => line(b"read fault\n"),
            Stop::TooLong => line(b"too long\n"),
            Stop::WantOfMemory => line(b"no memory\n"),
        }
    }
}

fn line(text: &[u8]) -> Line
    requires { length text.now ≤ LINE_ROOM }
    ensures { result ≡ text.now }
{
    let mut line = Line::new();
    line.push_text(text);
    line
}

impl From<AllocError> for Stop {
    ghost from_gives = { λ _ stop. stop ≡ NoMemory };

    fn from(_: AllocError) -> Stop {
        Stop::WantOfMemory
    }
}

impl From<WantOfMemory> for Stop {
    ghost from_gives = { λ _ stop. stop ≡ NoMemory };

    fn from(_: WantOfMemory) -> Stop {
        Stop::WantOfMemory
    }
}
