// What instructions cover, and the tables behind them.
ghost use Rattle.std.specs.Prelude.{◌≡◌, ◌<◌, ◌^◌};
ghost use Rattle.dis_text.specs.Bytes.{count_of};
ghost use Rattle.dis_text.specs.Listing.{covered_before};
ghost use Rattle.dis_text.specs.Made.{covered_value};
ghost use Rattle.dis_text.specs.Pieces.{covered_by, end_of_instr, followed_words, inside, table_words, words_behind, words_by};

use vax_form::{Instr, Operand, Operation, operation_of};

/// A CASE whose limit is this or more is not followed.
const TABLE_LIMIT: u64 = 4_096;

/// The address behind the instructions so far, the one of them that goes so far, and how many words of a table stand
/// there.
#[derive(Clone, Copy, Debug)]
pub struct Covered {
    pub end: u64,
    pub by: u32,
    pub words: u64,
}

fn followed_words(base: &Operand, limit: &Operand) -> u64
    ensures { result ≡ followed_words base.now limit.now }
{
    match (*base, *limit) {
        (Operand::Value(_), Operand::Value(limit)) if limit < TABLE_LIMIT => limit + 1,
        _ => 0,
    }
}

fn words_by(instr: &Instr, operation: Option<Operation>) -> u64
    ensures { result ≡ words_by instr.now operation }
{
    match operation {
        Some(Operation::Case(_)) => followed_words(&instr.operands[1], &instr.operands[2]),
        _ => 0,
    }
}

fn words_behind(instr: &Instr) -> u64
    ensures { result ≡ words_behind instr.now }
{
    words_by(instr, operation_of(instr.opcode))
}

/// How many bytes an instruction has.
pub fn count_of(instr: &Instr) -> u32
    ensures { result ≡ count_of instr.now }
{
    instr.after.wrapping_sub(instr.at)
}

/// The address of an instruction.
pub fn address_of(instr: &Instr) -> u64
    ensures value { result ≡ instr.now.at }
    ensures low { result < 2 ^ 32 }
{
    u64::from(instr.at)
}

fn end_of(instr: &Instr) -> u64
    ensures value { result ≡ end_of_instr instr.now }
    ensures low { result < 2 ^ 33 }
{
    u64::from(instr.at) + u64::from(count_of(instr))
}

impl Covered {
    /// With an instruction.
    pub fn with(self, instr: &Instr) -> Covered
        ensures value { covered_value result ≡ covered_by instr.now (covered_value self) }
        ensures low { self.end < 2 ^ 33 → result.end < 2 ^ 33 }
    {
        let end = end_of(instr);
        let words = words_behind(instr);
        if self.end < end {
            Covered {
                end,
                by: instr.at,
                words,
            }
        } else if end == self.end {
            Covered {
                end: self.end,
                by: self.by,
                words: self.words.max(words),
            }
        } else {
            self
        }
    }

    /// The instruction inside which one begins.
    pub fn inside(self, instr: &Instr) -> Option<u32>
        ensures { result ≡ inside (covered_value self) instr.now }
    {
        if u64::from(instr.at) < self.end {
            Some(self.by)
        } else {
            None
        }
    }

    /// How many words of the table stand before that address.
    pub fn words_to(self, to: u64) -> u64
        ensures { result ≡ table_words (covered_value self) to }
    {
        self.words.min(to.saturating_sub(self.end) / 2)
    }
}

/// What the instructions before that address cover of what is behind it.
pub fn covered_before(start: u32, instrs: &[Instr]) -> Covered
    ensures value { covered_value result ≡ covered_before start instrs.now }
    ensures low { result.end < 2 ^ 33 }
{
    let mut covered = Covered {
        end: u64::from(start),
        by: start,
        words: 0,
    };
    for instr in instrs {
        if instr.at < start {
            covered = covered.with(instr);
        }
    }
    covered
}
