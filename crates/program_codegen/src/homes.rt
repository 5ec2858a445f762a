// Where the temporaries of a program stand, and the words of its computations.
ghost use Rattle.std.specs.Prelude.{◌≡◌, ◌++◌, ◌≤◌, OnOk, IfOk, false, Some, None, map};
ghost use Rattle.compute_sequences.specs.Registers.{IsArgument, IsTarget};
ghost use Rattle.compute_sequences.specs.Words.{is_moved};
ghost use Rattle.micro_ops.specs.Uses.{is_unary};
ghost use Rattle.program_codegen.specs.Homes.{AreHomes, home_of, with_home, all_waiting, home_at, stands_in, is_shared, argument_in, standing_in, placed, extended_register, extended_second, extended_first, long_operation, sum_operation, made_operation, comparison, joined_word, one_word, is_copying, copied, is_logical, made_size, made, compared, new_home, direct_code, waiting_words, direct_by, is_short_constant, literal_word, passed, one_waits};
ghost use Rattle.program_codegen.specs.Direct.{is_direct, is_exact, is_sized};
ghost use Rattle.program_codegen.specs.Words.{holder, plain};

use crate::lines::{Line, VAX_REGISTERS, holder, push_words};
use crate::waits::{only_word, passed};
use alpha_encode::registers::{TEMPORARIES, ZERO};
use alpha_encode::{AlphaInstr, OperateOp, Second, operate_by};
use compute_sequences::compute_words;
use micro_ops::{Arg, MicroOp};
use std::alloc::{AllocError, Global};
use vax_form::{Size, WantOfMemory};

/// The temporary of a result.
const RESULT: u8 = 2;
/// That of the place of a reference.
const PLACE: u8 = 3;
/// How many temporaries may have a home.
const HOMES: u8 = 4;
/// How many of them, the first ones, are what the words for the codes read.
pub(crate) const VALUES: u8 = 3;
/// The least number that is no literal.
const LITERALS: u64 = 0x100;
/// The least number that one load of an address doesn't leave.
const SHORT: u64 = 0x8000;

/// For temporaries 0 to 3 the register, extended with its sign, whose low longword each is. One without stands in its own
/// register, exactly.
#[derive(Clone, Copy)]
pub(crate) struct Homes {
    pub(crate) first: Option<u8>,
    pub(crate) second: Option<u8>,
    pub(crate) result: Option<u8>,
    pub(crate) place: Option<u8>,
    /// The last two words, where they wait.
    pub(crate) before: Option<AlphaInstr>,
    pub(crate) waiting: Option<AlphaInstr>,
}

pub(crate) const NO_HOMES: Homes = Homes {
    first: None,
    second: None,
    result: None,
    place: None,
    before: None,
    waiting: None,
};

pub(crate) fn home_of(homes: Homes, temp: u8) -> Option<u8>
    ensures { result ≡ home_of homes temp }
{
    match temp {
        0 => homes.first,
        1 => homes.second,
        RESULT => homes.result,
        PLACE => homes.place,
        _ => None,
    }
}

pub(crate) fn with_home(temp: u8, home: Option<u8>, homes: Homes) -> Homes
    ensures { result ≡ with_home temp home homes }
{
    match temp {
        0 => Homes {
            first: home,
            ..homes
        },
        1 => Homes {
            second: home,
            ..homes
        },
        RESULT => Homes {
            result: home,
            ..homes
        },
        PLACE => Homes {
            place: home,
            ..homes
        },
        _ => homes,
    }
}

/// The home of the temporary, of those that the words for the codes read, that has this register.
pub(crate) fn home_at(homes: Homes, register: u8) -> Option<u8>
    ensures { result ≡ home_at homes register }
{
    if register == holder(0) {
        homes.first
    } else if register == holder(1) {
        homes.second
    } else if register == holder(RESULT) {
        homes.result
    } else {
        None
    }
}

pub(crate) fn stands_in(home: Option<u8>, register: u8) -> bool
    ensures { result ≡ stands_in home register }
{
    match home {
        Some(home) => home == register,
        None => false,
    }
}

/// Whether another temporary stands in this one's register.
pub(crate) fn is_shared(homes: Homes, temp: u8) -> bool
    requires { temp ≤ 5 }
    ensures { result ≡ is_shared homes temp }
{
    let register = holder(temp);
    (temp != 0 && stands_in(homes.first, register))
        || (temp != 1 && stands_in(homes.second, register))
        || (temp != RESULT && stands_in(homes.result, register))
        || (temp != PLACE && stands_in(homes.place, register))
}

/// The argument that a register holds.
fn argument_in(register: u8) -> Arg
    ensures { result ≡ argument_in register }
{
    if register < VAX_REGISTERS {
        Arg::Register(register)
    } else {
        Arg::Temp(register.saturating_sub(TEMPORARIES))
    }
}

fn standing_in(home: Option<u8>, temp: u8) -> Arg
    ensures { result ≡ standing_in home temp }
{
    match home {
        Some(register) => argument_in(register),
        None => Arg::Temp(temp),
    }
}

/// An argument, from where it stands.
fn placed(homes: Homes, arg: Arg) -> Arg
    ensures { result ≡ placed homes arg }
{
    match arg {
        Arg::Temp(temp) => standing_in(home_of(homes, temp), temp),
        _ => arg,
    }
}

/// The sign-extended register whose low longword the argument is.
fn extended_register(homes: Homes, arg: Arg) -> Option<u8>
    ensures { result ≡ extended_register homes arg }
{
    match arg {
        Arg::Register(number) => Some(number),
        Arg::Temp(temp) => home_of(homes, temp),
        Arg::Flag(_) | Arg::Const(_) => None,
    }
}

/// The same as a second argument, or a constant that is a literal.
fn extended_second(homes: Homes, arg: Arg) -> Option<Second>
    ensures { result ≡ extended_second homes arg }
{
    if let Arg::Const(value) = arg {
        return if value < LITERALS {
            Some(Second::Literal(value as u8))
        } else {
            None
        };
    }
    match extended_register(homes, arg) {
        Some(register) => Some(Second::Register(register)),
        None => None,
    }
}

/// The same as a first argument, or 0, which R31 reads.
fn extended_first(homes: Homes, arg: Arg) -> Option<u8>
    ensures { result ≡ extended_first homes arg }
{
    match arg {
        Arg::Const(0) => Some(ZERO),
        Arg::Const(_) => None,
        _ => extended_register(homes, arg),
    }
}

/// An operation on sign-extended longwords that gives one.
fn long_operation(op: MicroOp) -> Option<OperateOp>
    ensures { result ≡ long_operation op }
{
    match op {
        MicroOp::Add => Some(OperateOp::Addl),
        MicroOp::Sub => Some(OperateOp::Subl),
        MicroOp::And => Some(OperateOp::And),
        MicroOp::Or => Some(OperateOp::Bis),
        MicroOp::Xor => Some(OperateOp::Xor),
        MicroOp::AndNot => Some(OperateOp::Bic),
        _ => None,
    }
}

/// A sum or a difference, which may be an address.
fn sum_operation(op: MicroOp) -> Option<OperateOp>
    ensures { result ≡ sum_operation op }
{
    match op {
        MicroOp::Add => Some(OperateOp::Addl),
        MicroOp::Sub => Some(OperateOp::Subl),
        _ => None,
    }
}

/// What one word makes in a temporary.
fn made_operation(to: u8, op: MicroOp) -> Option<OperateOp>
    ensures { result ≡ made_operation to op }
{
    if to == RESULT {
        long_operation(op)
    } else {
        sum_operation(op)
    }
}

/// They compare as longwords do.
fn comparison(op: MicroOp) -> Option<OperateOp>
    ensures { result ≡ comparison op }
{
    match op {
        MicroOp::Equal => Some(OperateOp::Cmpeq),
        MicroOp::Less => Some(OperateOp::Cmplt),
        MicroOp::LessUnsigned => Some(OperateOp::Cmpult),
        _ => None,
    }
}

fn joined_word(
    op: Option<OperateOp>,
    first: Option<u8>,
    second: Option<Second>,
    to: u8,
) -> Option<AlphaInstr>
    ensures { result ≡ joined_word op first second to }
{
    match (op, first, second) {
        (Some(op), Some(ra), Some(rb)) => Some(AlphaInstr::Operate { op, ra, rb, rc: to }),
        _ => None,
    }
}

fn one_word(
    op: Option<OperateOp>,
    homes: Homes,
    size: Size,
    a: Arg,
    b: Arg,
    to: u8,
) -> Option<AlphaInstr>
    ensures { result ≡ one_word op homes size a b to }
{
    match size {
        Size::Long => joined_word(op, extended_first(homes, a), extended_second(homes, b), to),
        Size::Byte | Size::Word | Size::Quad => None,
    }
}

fn is_copying(op: MicroOp, size: Size) -> bool
    ensures { result ≡ is_copying op size }
{
    matches!(
        (op, size),
        (MicroOp::Move | MicroOp::ZeroExtend, Size::Long)
    )
}

/// The register of which a longword is a copy.
fn copied(homes: Homes, to: u8, op: MicroOp, size: Size, a: Arg) -> Option<u8>
    ensures { result ≡ copied homes to op size a }
{
    if to < HOMES && is_copying(op, size) {
        extended_register(homes, a)
    } else {
        None
    }
}

/// Whether it gives its argument, but for the bits above its size.
fn is_moved(op: MicroOp) -> bool
    ensures { result ≡ is_moved op }
{
    matches!(op, MicroOp::Move | MicroOp::ZeroExtend)
}

fn is_logical(op: MicroOp) -> bool
    ensures { result ≡ is_logical op }
{
    matches!(
        op,
        MicroOp::And | MicroOp::Or | MicroOp::Xor | MicroOp::AndNot
    )
}

/// A logical operation on longwords gives the same as one on quadwords.
fn made_size(op: MicroOp, size: Size) -> Size
    ensures { result ≡ made_size op size }
{
    if matches!(size, Size::Quad) && is_logical(op) {
        Size::Long
    } else {
        size
    }
}

/// A constant that is a literal.
fn literal_word(to: u8, arg: Arg) -> Option<AlphaInstr>
    ensures { result ≡ literal_word to arg }
{
    match arg {
        Arg::Const(value) => {
            if value < LITERALS {
                Some(operate_by(OperateOp::Bis, ZERO, value as u8, to))
            } else {
                None
            }
        }
        _ => None,
    }
}

/// A word whose result is extended with its sign: a literal, or an operation.
pub(crate) fn made(
    homes: Homes,
    to: u8,
    op: MicroOp,
    size: Size,
    a: Arg,
    b: Arg,
) -> Option<AlphaInstr>
    ensures { result ≡ made homes to op size a b }
{
    if to < VALUES && is_moved(op) {
        literal_word(holder(to), a)
    } else if to < HOMES {
        one_word(
            made_operation(to, op),
            homes,
            made_size(op, size),
            a,
            b,
            holder(to),
        )
    } else {
        None
    }
}

fn compared(homes: Homes, to: u8, op: MicroOp, size: Size, a: Arg, b: Arg) -> Option<AlphaInstr>
    requires { to ≤ 5 }
    ensures { result ≡ compared homes to op size a b }
{
    one_word(comparison(op), homes, size, a, b, holder(to))
}

fn is_short_constant(to: u8, op: MicroOp, size: Size, a: Arg) -> bool
    ensures { result ≡ is_short_constant to op size a }
{
    to < VALUES && is_copying(op, size) && matches!(a, Arg::Const(value) if value < SHORT)
}

/// Whether an argument stands exactly where it is read.
fn is_exact(homes: Homes, arg: Arg) -> bool
    ensures { result ≡ is_exact homes arg }
{
    match arg {
        Arg::Temp(temp) => home_of(homes, temp).is_none(),
        _ => true,
    }
}

/// Whether a computation is on longwords at most, or one that they give the same, or of arguments that stand exactly.
fn is_sized(homes: Homes, to: u8, op: MicroOp, size: Size, a: Arg, b: Arg) -> bool
    ensures { result ≡ is_sized homes to op size a b }
{
    !matches!(size, Size::Quad)
        || made(homes, to, op, size, a, b).is_some()
        || (is_exact(homes, a) && is_exact(homes, b))
}

/// Whether it is such a computation, doesn't read what it writes, and none has its home in its register.
pub(crate) fn is_direct(homes: Homes, to: u8, op: MicroOp, size: Size, a: Arg, b: Arg) -> bool
    requires { to ≤ 5 }
    ensures { result ≡ is_direct homes to op size a b }
{
    is_sized(homes, to, op, size, a, b)
        && !matches!(op, MicroOp::SelectNonzero)
        && !is_shared(homes, to)
}

/// The word that waits.
pub(crate) fn push_waiting(
    lines: &mut Vec<Line>,
    waiting: Option<AlphaInstr>,
) -> Result<(), AllocError>
    ensures { OnOk result (lines.new.items ≡ lines.old.items ++ map plain (waiting_words waiting)) }
{
    match waiting {
        Some(word) => push_words(lines, &[word]),
        None => Ok(()),
    }
}

/// The words that wait.
pub(crate) fn push_all_waiting(lines: &mut Vec<Line>, homes: Homes) -> Result<(), AllocError>
    ensures { OnOk result (lines.new.items ≡ lines.old.items ++ map plain (all_waiting homes)) }
{
    push_waiting(lines, homes.before)?;
    push_waiting(lines, homes.waiting)
}

/// The homes where a word waits behind the last one of those before.
fn waiting_behind(homes: Homes, now: Homes, word: AlphaInstr) -> Homes
    ensures { result ≡ record now { before = homes.waiting; waiting = Some word } }
{
    Homes {
        before: homes.waiting,
        waiting: Some(word),
        ..now
    }
}

/// One word waits in place of a copy that it has no use for, or behind the word before it.
fn one_waits(
    lines: &mut Vec<Line>,
    homes: Homes,
    now: Homes,
    word: AlphaInstr,
) -> Result<Homes, AllocError>
    requires { AreHomes now }
    ensures lines { OnOk result (lines.new.items ≡ lines.old.items ++ map plain (one_waits (passed homes.waiting word) homes.before homes.waiting now word).1) }
    ensures homes { IfOk result (λ behind. behind ≡ (one_waits (passed homes.waiting word) homes.before homes.waiting now word).0) }
    ensures are { IfOk result AreHomes }
{
    if let Some(shorter) = passed(homes.waiting, word) {
        return Ok(Homes {
            before: homes.before,
            waiting: Some(shorter),
            ..now
        });
    }
    push_waiting(lines, homes.before)?;
    Ok(waiting_behind(homes, now, word))
}

/// The words up to a computation, of which a copy has none and one word waits, and where its temporary stands behind them.
pub(crate) fn push_direct(
    alloc: Global,
    lines: &mut Vec<Line>,
    homes: Homes,
    to: u8,
    op: MicroOp,
    size: Size,
    a: Arg,
    b: Arg,
) -> Result<Homes, WantOfMemory>
    requires homes { AreHomes homes }
    requires target { IsTarget (holder to) }
    requires first { IsArgument a }
    requires second { is_unary op ≡ false → IsArgument b }
    ensures lines { OnOk result (lines.new.items ≡ lines.old.items ++ map plain (direct_by homes to op size a b).1) }
    ensures homes { IfOk result (λ now. now ≡ (direct_by homes to op size a b).0) }
    ensures are { IfOk result AreHomes }
{
    if let Some(register) = copied(homes, to, op, size, a) {
        return Ok(with_home(to, Some(register), homes));
    }
    if let Some(word) = made(homes, to, op, size, a, b) {
        push_waiting(lines, homes.before)?;
        return Ok(waiting_behind(homes, with_home(to, Some(holder(to)), homes), word));
    }
    let home = if is_short_constant(to, op, size, a) {
        Some(holder(to))
    } else {
        None
    };
    let now = with_home(to, home, homes);
    if let Some(word) = compared(homes, to, op, size, a, b) {
        push_waiting(lines, homes.before)?;
        return Ok(waiting_behind(homes, now, word));
    }
    let words = compute_words(
        alloc,
        op,
        size,
        placed(homes, a),
        placed(homes, b),
        holder(to),
    )?;
    if let Some(word) = only_word(&words) {
        return Ok(one_waits(lines, homes, now, word)?);
    }
    push_all_waiting(lines, homes)?;
    push_words(lines, &words)?;
    Ok(Homes {
        before: None,
        waiting: None,
        ..now
    })
}
