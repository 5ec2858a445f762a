// Exits that are chosen by what stands in a register.
ghost use Rattle.std.specs.Prelude.{◌≡◌, ◌≤◌, ◌++◌, ◌∷◌, IfOk, IfSome, MatchOption, OnOk, None, Some, map};
ghost use Rattle.program_codegen.specs.Words.{plain};
ghost use Rattle.program_codegen.specs.Ends.{zero_test, is_number, choice_of};
ghost use Rattle.program_codegen.specs.Direct.{bit_register, bit_test, code_test, byte_test, test_of, choice_lines, may_test, tested_exit, needed_words, tested_words, next_exit, tested_at};
ghost use Rattle.program_codegen.specs.Programs.{IsExit, IsRanged, RangedToLeave};

use crate::direct::{are_left, are_short_rules, exit_of};
use crate::homes::{Homes, VALUES, home_at, home_of, is_direct, made, push_waiting, stands_in};
use crate::leaving::may_trap;
use crate::lines::{Line, holder, plain, push_exit, push_words};
use crate::points::Site;
use crate::spared::written;
use alpha_encode::registers::{NEGATIVE, TEMPORARIES, ZERO};
use alpha_encode::{AlphaInstr, BranchOp, OperateOp, Second, branch};
use micro_ops::{Arg, Exit, Micro, MicroOp};
use std::alloc::{AllocError, Global};
use vax_form::Size;

/// How many codes have a register.
const CODES: u8 = 4;
/// How many temporaries have a register.
const TEMPORARIES_HELD: u8 = 6;
/// The mask of the lowest bit.
const LOWEST: u64 = 1;

/// A branch, and its register.
type Test = (BranchOp, u8);

fn bit_register(homes: Homes, arg: Arg) -> Option<u8>
    ensures { result ≡ bit_register homes arg }
{
    match arg {
        Arg::Temp(temp) => {
            if temp < TEMPORARIES_HELD {
                Some(home_of(homes, temp).unwrap_or(holder(temp)))
            } else {
                None
            }
        }
        Arg::Register(number) => Some(number),
        Arg::Flag(_) | Arg::Const(_) => None,
    }
}

fn bit_test(homes: Homes, a: Arg, b: Arg) -> Option<Test>
    ensures { result ≡ bit_test homes a b }
{
    match (b, bit_register(homes, a)) {
        (Arg::Const(LOWEST), Some(register)) => Some((BranchOp::Blbc, register)),
        _ => None,
    }
}

fn code_test(arg: Arg) -> Option<Test>
    ensures { result ≡ code_test arg }
{
    match arg {
        Arg::Flag(flag) => {
            if flag < CODES {
                Some((BranchOp::Beq, NEGATIVE + flag))
            } else {
                None
            }
        }
        _ => None,
    }
}

/// A branch that is taken just where the computation gives 0, and its register.
fn test_of(homes: Homes, op: MicroOp, size: Size, a: Arg, b: Arg) -> Option<Test>
    ensures { result ≡ test_of homes op size a b }
{
    match (op, size) {
        (MicroOp::And, Size::Byte | Size::Long) => bit_test(homes, a, b),
        (MicroOp::Move, Size::Byte) => code_test(a),
        _ => None,
    }
}

/// The word that waits, where the computation doesn't write over it, or the test reads it.
fn push_needed(
    lines: &mut Vec<Line>,
    to: u8,
    register: u8,
    waiting: Option<AlphaInstr>,
) -> Result<(), AllocError>
    requires { to ≤ 5 }
    ensures { OnOk result (lines.new.items ≡ lines.old.items ++ map plain (needed_words to register waiting)) }
{
    let place = holder(to);
    match waiting {
        Some(word) => {
            if written(word) == place && register != place {
                Ok(())
            } else {
                push_words(lines, &[word])
            }
        }
        None => Ok(()),
    }
}

/// The branch goes over one exit to the other.
fn push_choice(lines: &mut Vec<Line>, test: Test, taken: u32, other: u32) -> Result<(), AllocError>
    ensures { OnOk result (lines.new.items ≡ lines.old.items ++ choice_lines test taken other) }
{
    let (op, register) = test;
    lines.push(plain(branch(op, register, 3)))?;
    push_exit(lines, taken)?;
    push_exit(lines, other)
}

/// A comparison with 0: the branch that is taken just where it gives 0, and the register that is compared.
fn zero_test(word: AlphaInstr) -> Option<Test>
    ensures { result ≡ zero_test word }
{
    match word {
        AlphaInstr::Operate {
            op: OperateOp::Cmplt,
            ra: ZERO,
            rb: Second::Register(register),
            ..
        } => Some((BranchOp::Ble, register)),
        AlphaInstr::Operate {
            op: OperateOp::Cmplt,
            ra,
            rb: Second::Literal(0),
            ..
        } => Some((BranchOp::Bge, ra)),
        _ => None,
    }
}

/// Whether a register that is compared is the home of a temporary, its own, over which the comparison isn't written.
fn is_number(homes: Homes, register: u8, to: u8) -> bool
    ensures { result ≡ is_number homes register to }
{
    register < TEMPORARIES + VALUES
        && stands_in(home_at(homes, register), register)
        && register != to
}

/// The exit, and the branch by which it goes if it chooses: where a comparison with 0 waits for it, it goes by the number.
pub(crate) fn choice_of(homes: Homes, exit: Exit) -> (BranchOp, Exit)
    requires exit { IsExit exit }
    ensures choice { result ≡ choice_of homes exit }
    ensures exit { IsExit result.1 }
{
    let Exit::Choice { when, taken, other } = exit else {
        return (BranchOp::Beq, exit);
    };
    let Some(word) = homes.waiting else {
        return (BranchOp::Beq, exit);
    };
    let Some((op, register)) = zero_test(word) else {
        return (BranchOp::Beq, exit);
    };
    let to = written(word);
    if to != holder(when) || !is_number(homes, register, to) {
        return (BranchOp::Beq, exit);
    }
    let number = register.saturating_sub(TEMPORARIES);
    (
        op,
        Exit::Choice {
            when: number,
            taken,
            other,
        },
    )
}

/// Whether no word leaves a code, and nothing traps.
fn may_test(
    site: Site,
    codes: &[AlphaInstr],
    homes: Homes,
    to: u8,
    op: MicroOp,
    size: Size,
    a: Arg,
    b: Arg,
) -> bool
    ensures { result ≡ may_test site codes.now homes to op size a b }
{
    to < TEMPORARIES_HELD
        && is_direct(homes, to, op, size, a, b)
        && made(homes, to, op, size, a, b).is_none()
        && codes.is_empty()
        && !may_trap(site)
        && are_short_rules(site.behind)
        && are_left(site.sources, homes)
}

fn next_exit(behind: &[Micro]) -> Option<Exit>
    ensures exit { result ≡ next_exit behind.now }
    ensures ranged { IfSome result (λ exit. RangedToLeave behind.now) }
{
    if behind.is_empty() {
        None
    } else {
        exit_of(behind[0])
    }
}

/// The lines from an operation on of which an exit comes next.
pub(crate) fn tested_at(
    alloc: Global,
    site: Site,
    codes: &[AlphaInstr],
    homes: Homes,
    operation: Micro,
    behind: &[Micro],
) -> Result<Option<Vec<Line>>, AllocError>
    ensures lines { IfOk result (λ lines. MatchOption lines (tested_at site codes.now homes operation behind.now ≡ None) (λ made. tested_at site codes.now homes operation behind.now ≡ Some made.items)) }
    ensures ranged { IfOk result (λ lines. IfSome lines (λ made. RangedToLeave (operation ∷ behind.now))) }
{
    let Micro::Compute { to, op, size, a, b } = operation else {
        return Ok(None);
    };
    let Some(Exit::Choice { when, taken, other }) = next_exit(behind) else {
        return Ok(None);
    };
    if when != to || !may_test(site, codes, homes, to, op, size, a, b) {
        return Ok(None);
    }
    let Some(test) = test_of(homes, op, size, a, b) else {
        return Ok(None);
    };
    let mut lines = Vec::new(alloc);
    push_waiting(&mut lines, homes.before)?;
    push_needed(&mut lines, to, test.1, homes.waiting)?;
    push_choice(&mut lines, test, taken, other)?;
    Ok(Some(lines))
}
