// Whether a program fits a block.
ghost use Rattle.std.specs.Prelude.{◌≡◌, ◌&&◌, ◌||◌, not, nat_le};
ghost use Rattle.micro_ops.specs.Known.{at_start};
ghost use Rattle.micro_ops.specs.Fits.{walk, is_ended, is_low_argument, is_low_exit, is_low_code, names_low, all_keep_low, most_words, fits};
ghost use Rattle.micro_ops.specs.Uses.{is_codes};
ghost use Rattle.micro_ops.specs.WordCounts.{program_words};

use crate::codes::CodeSources;
use crate::known::Known;
use crate::left_out::{NONE_USED, is_low, is_needed, use_from};
use crate::program::{Arg, Exit, Micro};
use crate::steps::step;
use crate::uses::{is_codes, is_unary};
use crate::words::program_words;

/// How many of the 256 words of a block are for the program.
const MOST_WORDS: u32 = 192;

/// What is known behind a program, where each operation fits. Nothing stands behind `Leave`.
fn walk(codes: CodeSources, program: &[Micro]) -> Option<Known>
    ensures { result ≡ walk codes at_start program.now }
{
    let mut known = Known::at_start();
    for operation in program {
        if known.ended {
            return None;
        }
        known = step(codes, known, *operation)?;
    }
    Some(known)
}

/// Whether the walk comes to the end.
fn comes_to_end(codes: CodeSources, program: &[Micro]) -> bool
    ensures { result ≡ is_ended (walk codes at_start program.now) }
{
    match walk(codes, program) {
        Some(known) => known.ended,
        None => false,
    }
}

fn is_low_argument(arg: Arg) -> bool
    ensures { result ≡ is_low_argument arg }
{
    match arg {
        Arg::Temp(temp) => is_low(temp),
        Arg::Register(_) | Arg::Flag(_) | Arg::Const(_) => true,
    }
}

fn is_low_exit(exit: Exit) -> bool
    ensures { result ≡ is_low_exit exit }
{
    match exit {
        Exit::Computed(temp) | Exit::Service(temp) => is_low(temp),
        Exit::Choice { when, .. } => is_low(when),
        Exit::Next | Exit::Fixed(_) | Exit::Breakpoint => true,
    }
}

fn is_low_code(code: Option<u8>) -> bool
    ensures { result ≡ is_low_code code }
{
    match code {
        Some(temp) => is_low(temp),
        None => true,
    }
}

/// Whether an operation names no temporary above 5.
fn names_low(operation: Micro) -> bool
    ensures { result ≡ names_low operation }
{
    match operation {
        Micro::Compute { to, op, a, b, .. } => {
            is_low(to) && is_low_argument(a) && (is_unary(op) || is_low_argument(b))
        }
        Micro::Probe { place, .. } => is_low(place),
        Micro::Refuse { when } => is_low(when),
        Micro::Read { to, place, .. } => is_low(to) && is_low(place),
        Micro::Write { place, from, .. } => is_low(place) && is_low(from),
        Micro::Locked {
            to,
            place,
            from,
            ..
        } => is_low(to) && is_low(place) && is_low(from),
        Micro::Commit { from, .. } | Micro::SetPsw { from } => is_low(from),
        Micro::Codes { n, z, v, c } => is_low(n) && is_low(z) && is_low(v) && is_low_code(c),
        Micro::Leave(exit) => is_low_exit(exit),
    }
}

/// All but the codes, and what isn't needed, names the temporaries 0 to 5 alone.
fn keeps_low(operation: Micro, needed: bool) -> bool
    ensures { result ≡ (is_codes operation || not needed || names_low operation) }
{
    is_codes(operation) || !needed || names_low(operation)
}

fn all_keep_low(codes: CodeSources, program: &[Micro]) -> bool
    ensures { result ≡ all_keep_low codes program.now }
{
    let mut used = NONE_USED;
    for i in 0..program.len() {
        let operation = program[program.len() - 1 - i];
        if !keeps_low(operation, is_needed(operation, &used)) {
            return false;
        }
        use_from(codes, operation, &mut used);
    }
    true
}

fn has_room(codes: CodeSources, program: &[Micro]) -> bool
    ensures { result ≡ nat_le (program_words codes program.now) most_words }
{
    program_words(codes, program) <= MOST_WORDS
}

/// Whether a program fits a block, as far as the program alone tells. `codes` says where its instruction's codes come
/// from. Each temporary that is read was written; each reference stands behind its check; changes of the state come
/// last, and `Leave` at the end, where the temporaries hold what the codes come from; the temporaries have registers,
/// and the words have room.
pub fn fits(codes: CodeSources, program: &[Micro]) -> bool
    ensures { result ≡ fits codes program.now }
{
    comes_to_end(codes, program) && all_keep_low(codes, program) && has_room(codes, program)
}
