// Which temporaries a micro operation reads and writes.
ghost use Rattle.std.specs.Prelude.{◌≡◌, ℕ, length};
ghost use Rattle.micro_ops.specs.LeftOut.{AreJust};
ghost use Rattle.micro_ops.specs.Uses.{is_unary, is_select, is_temp, is_code, leaves_through, reads, replaces, is_codes, leaves_longword};

use crate::program::{Arg, Exit, Micro, MicroOp};
use vax_form::Size;

/// Whether an operation has no second argument.
pub fn is_unary(op: MicroOp) -> bool
    ensures { result ≡ is_unary op }
{
    matches!(
        op,
        MicroOp::Move | MicroOp::SignExtend | MicroOp::ZeroExtend
    )
}

/// Whether an operation may leave its temporary as it was.
pub fn is_select(op: MicroOp) -> bool
    ensures { result ≡ is_select op }
{
    matches!(op, MicroOp::SelectNonzero)
}

/// As many temporaries as an operation reads at most.
pub(crate) type Names = [Option<u8>; 4];

fn named_by(arg: Arg) -> Option<u8>
    ensures { (temp : ℕ) → is_code temp result ≡ is_temp temp arg }
{
    match arg {
        Arg::Temp(number) => Some(number),
        _ => None,
    }
}

fn left_through(exit: Exit) -> Option<u8>
    ensures { (temp : ℕ) → is_code temp result ≡ leaves_through temp exit }
{
    match exit {
        Exit::Computed(temp) | Exit::Choice { when: temp, .. } | Exit::Service(temp) => Some(temp),
        Exit::Next | Exit::Fixed(_) | Exit::Breakpoint => None,
    }
}

/// The temporaries that matter to an operation.
pub(crate) fn read_by(operation: Micro) -> Names
    ensures names { AreJust result (λ temp. reads temp operation) }
    ensures long { length result ≡ 4 }
{
    match operation {
        Micro::Compute { to, op, a, b, .. } => [
            named_by(a),
            if is_unary(op) { None } else { named_by(b) },
            if is_select(op) { Some(to) } else { None },
            None,
        ],
        Micro::Probe { place, .. } | Micro::Read { place, .. } => [Some(place), None, None, None],
        Micro::Refuse { when } => [Some(when), None, None, None],
        Micro::Write { place, from, .. } | Micro::Locked { place, from, .. } => {
            [Some(place), Some(from), None, None]
        }
        Micro::Commit { from, .. } | Micro::SetPsw { from } => [Some(from), None, None, None],
        Micro::Codes { n, z, v, c } => [Some(n), Some(z), Some(v), c],
        Micro::Leave(exit) => [left_through(exit), None, None, None],
    }
}

/// The temporary of which nothing is left.
pub(crate) fn replaced_by(operation: Micro) -> Option<u8>
    ensures { (temp : ℕ) → is_code temp result ≡ replaces temp operation }
{
    match operation {
        Micro::Compute { to, op, .. } if !is_select(op) => Some(to),
        Micro::Read { to, .. } | Micro::Locked { to, .. } => Some(to),
        _ => None,
    }
}

pub fn is_codes(operation: Micro) -> bool
    ensures { result ≡ is_codes operation }
{
    matches!(operation, Micro::Codes { .. })
}

/// Whether what the operation writes is below 2^32.
pub fn leaves_longword(operation: Micro) -> bool
    ensures { result ≡ leaves_longword operation }
{
    match operation {
        Micro::Compute { op, size, .. } => {
            !matches!(size, Size::Quad) && !matches!(op, MicroOp::SignExtend)
        }
        Micro::Read { count, .. } => count <= 4,
        _ => false,
    }
}
