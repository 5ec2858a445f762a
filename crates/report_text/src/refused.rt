//! The line that says why a file is refused. It knows no refusal's type.
ghost use Rattle.std.specs.Prelude.{◌≡◌, ◌+◌, ◌*◌, ◌≤◌, ◌++◌, length};
ghost use Rattle.report_text.specs.Numbers.{spaced};
ghost use Rattle.report_text.specs.Refused.{refused_text, subject_text};

use crate::line::{LINE_ROOM, Line};

/// The most numbers behind a subject: those of a translated file whose image's sections overlap.
pub const MOST_NUMBERS: usize = 4;

/// What is refused.
#[derive(Clone, Copy, Debug, PartialEq, Eq)]
pub enum Subject {
    Image,
    Translated,
    Flow,
    Order,
    Hints,
    Live,
    Elf,
    Parts,
}

/// `refused`, the subject, and the numbers of the refusal, each behind a blank.
pub fn refused_line(subject: Subject, numbers: &[u64]) -> Line
    requires { length numbers.now ≤ MOST_NUMBERS }
    ensures { result ≡ refused_text subject numbers.now }
{
    let mut line = Line::new();
    line.push_text(b"refused ");
    push_subject(&mut line, subject);
    push_numbers(&mut line, numbers);
    line.push(b'\n');
    line
}

fn push_subject(line: &mut Line, subject: Subject)
    requires { length line.old + 10 ≤ LINE_ROOM }
    ensures text { line.new ≡ line.old ++ subject_text subject }
    ensures room { length line.new ≤ length line.old + 10 }
{
    line.push_text(match subject {
        Subject::Image => b"image",
        Subject::Translated => b"translated",
        Subject::Flow => b"flow",
        Subject::Order => b"order",
        Subject::Hints => b"hints",
        Subject::Live => b"live",
        Subject::Elf => b"elf",
        Subject::Parts => b"parts",
    });
}

fn push_numbers(line: &mut Line, numbers: &[u64])
    requires { length line.old + 21 * length numbers.now ≤ LINE_ROOM }
    ensures text { line.new ≡ line.old ++ spaced numbers.now }
    ensures room { length line.new ≤ length line.old + 21 * length numbers.now }
{
    for number in numbers {
        line.push_spaced(*number);
    }
}
