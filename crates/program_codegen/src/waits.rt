// Words of computations that wait, and a word that needs no copy before it.
ghost use Rattle.std.specs.Prelude.{◌≡◌};
ghost use Rattle.program_codegen.specs.Homes.{is_choice, second_reads, only_word, copied_to, reads_over, passed};

use crate::lines::{VAX_REGISTERS, is_temporary};
use alpha_encode::{AlphaInstr, OperateOp, Second};

/// A conditional move reads what it writes.
pub(crate) fn is_choice(op: OperateOp) -> bool
    ensures { result ≡ is_choice op }
{
    matches!(op, OperateOp::Cmoveq | OperateOp::Cmovne)
}

pub(crate) fn second_reads(second: Second, register: u8) -> bool
    ensures { result ≡ second_reads second register }
{
    match second {
        Second::Register(number) => number == register,
        Second::Literal(_) => false,
    }
}

/// The word, where it is the only one.
pub(crate) fn only_word(words: &[AlphaInstr]) -> Option<AlphaInstr>
    ensures { result ≡ only_word words.now }
{
    match words {
        [AlphaInstr::Operate { op, ra, rb, rc }] => Some(AlphaInstr::Operate {
            op: *op,
            ra: *ra,
            rb: *rb,
            rc: *rc,
        }),
        _ => None,
    }
}

/// The VAX register that what waits copies to that place.
fn copied_to(place: u8, waiting: Option<AlphaInstr>) -> Option<u8>
    ensures { result ≡ copied_to place waiting }
{
    match waiting {
        Some(
            AlphaInstr::Operate {
                op: OperateOp::Addl,
                ra,
                rb: Second::Literal(value),
                rc,
            },
        ) => {
            if rc == place && value == 0 && ra < VAX_REGISTERS {
                Some(ra)
            } else {
                None
            }
        },
        _ => None,
    }
}

/// Whether a word reads the register of a temporary that it writes over.
fn reads_over(op: OperateOp, first: u8, second: Second, to: u8) -> bool
    ensures { result ≡ reads_over op first second to }
{
    first == to && !second_reads(second, to) && !is_choice(op) && is_temporary(to)
}

/// The word that reads the VAX register itself, where the word that waits only copies it to what this one writes over.
pub(crate) fn passed(waiting: Option<AlphaInstr>, word: AlphaInstr) -> Option<AlphaInstr>
    ensures { result ≡ passed waiting word }
{
    match word {
        AlphaInstr::Operate { op, ra, rb, rc } => {
            if !reads_over(op, ra, rb, rc) {
                return None;
            }
            match copied_to(rc, waiting) {
                Some(from) => Some(AlphaInstr::Operate {
                    op,
                    ra: from,
                    rb,
                    rc,
                }),
                None => None,
            }
        }
        _ => None,
    }
}
