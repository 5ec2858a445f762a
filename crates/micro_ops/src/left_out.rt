// Which computations of a program have no words.
ghost use Rattle.std.specs.Prelude.{◌≡◌, ℕ, ◌<◌, Bool, false, Some, List, slice_get, length, unwrap_or};
ghost use Rattle.micro_ops.specs.LeftOut.{is_low, is_computed, is_needed, uses_now, uses_from, is_used, is_left_out, AreJust, Tells, with_flag};

use crate::codes::{CodeSource, CodeSources};
use crate::program::Micro;
use crate::uses::{Names, read_by, replaced_by};

/// One flag for each temporary that a number can name.
pub(crate) type Table = [bool; 256];

/// What nothing stands behind.
pub(crate) const NONE_USED: Table = [false; 256];

/// Whether a temporary has a register in a block.
pub fn is_low(temp: u8) -> bool
    ensures { result ≡ is_low temp }
{
    temp < 6
}

fn is_computed(source: CodeSource) -> bool
    ensures { result ≡ is_computed source }
{
    matches!(source, CodeSource::Computed(_))
}

/// Whether what an operation computes has words, where those temporaries are used behind it.
pub(crate) fn is_needed(operation: Micro, later: &Table) -> bool
    ensures { (used : ℕ → Bool) → Tells later.now used → result ≡ is_needed operation used }
{
    match operation {
        Micro::Compute { to, .. } => is_low(to) || later[to as usize],
        _ => true,
    }
}

/// The temporaries that an operation uses, and not for codes that have a rule alone.
fn used_now(codes: CodeSources, needed: bool, operation: Micro) -> Names
    ensures names { AreJust result (uses_now codes needed operation) }
    ensures long { length result ≡ 4 }
{
    match operation {
        Micro::Codes { v, c, .. } => [
            if is_computed(codes.nzv) {
                Some(v)
            } else {
                None
            },
            if is_computed(codes.c) { c } else { None },
            None,
            None,
        ],
        _ => {
            if needed {
                read_by(operation)
            } else {
                [None; 4]
            }
        }
    }
}

/// Sets the flag of a temporary, if one is named.
fn set_flag(flags: &mut Table, temp: Option<u8>, flag: bool)
    ensures { Tells flags.new (with_flag temp flag flags.old) }
{
    if let Some(temp) = temp {
        flags[temp as usize] = flag;
    }
}

/// Makes the table of those that are used behind an operation that of those used from it on.
pub(crate) fn use_from(codes: CodeSources, operation: Micro, used: &mut Table)
    ensures { (later : ℕ → Bool) → Tells used.old later → Tells used.new (λ temp. uses_from codes (is_needed operation later) (later temp) operation temp) }
{
    let names = used_now(codes, is_needed(operation, used), operation);
    set_flag(used, replaced_by(operation), false);
    for temp in names {
        set_flag(used, temp, true);
    }
}

/// Which temporaries a program uses.
fn used_by(codes: CodeSources, program: &[Micro]) -> Table
    ensures { Tells result (is_used codes program.now) }
{
    let mut used = NONE_USED;
    for i in 0..program.len() {
        use_from(codes, program[program.len() - 1 - i], &mut used);
    }
    used
}

/// Whether a computation goes into a temporary above 5, and is used for codes with a rule alone: the words that make the
/// codes stand in for it.
pub fn is_left_out(codes: CodeSources, operation: Micro, behind: &[Micro]) -> bool
    ensures { result ≡ is_left_out codes operation behind.now }
{
    match operation {
        Micro::Compute { to, .. } => !is_low(to) && !used_by(codes, behind)[to as usize],
        _ => false,
    }
}
