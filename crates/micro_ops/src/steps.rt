// Whether each micro operation fits where it stands, and what is known behind it.
ghost use Rattle.std.specs.Prelude.{◌≡◌, ◌<◌, ◌&&◌, not, true, nat_le};
ghost use Rattle.micro_ops.specs.Known.{holds, behind_write, behind_access, behind_commit};
ghost use Rattle.micro_ops.specs.Meaning.{locked_count};
ghost use Rattle.micro_ops.specs.Fits.{is_count, argument_fits, computation_fits, holding_of, place_fits, check_fits, reference_fits, are_apart, read_fits, write_fits, locked_fits, commit_fits, code_fits, codes_fit, exit_holds, exit_fits, is_from_values, is_from_psw, signs_are_held, carry_is_held, sources_fit, when_fits, step};

use crate::codes::{CodeSource, CodeSources};
use crate::known::{Checked, Holding, Known, REGISTERS, TEMPORARIES, is_checked};
use crate::program::{Arg, Exit, LockedOp, Micro, MicroOp};
use crate::uses::{is_select, is_unary, leaves_longword};

fn is_count(count: u8) -> bool
    ensures { result ≡ is_count count }
{
    matches!(count, 1 | 2 | 4 | 8)
}

/// What is read was written, and is not lost. No register is read behind its commit, and no flag behind a change of the
/// flags.
fn argument_fits(known: &Known, arg: Arg) -> bool
    ensures { result ≡ argument_fits known.now arg }
{
    match arg {
        Arg::Temp(temp) => known.holds(temp),
        Arg::Register(number) => number < REGISTERS && !known.is_committed(number),
        Arg::Flag(flag) => flag < 8 && !known.codes && !known.psw,
        Arg::Const(_) => true,
    }
}

fn computation_fits(known: &Known, to: u8, op: MicroOp, a: Arg, b: Arg) -> bool
    ensures { result ≡ computation_fits known.now to op a b }
{
    to < TEMPORARIES
        && argument_fits(known, a)
        && (is_unary(op) || argument_fits(known, b))
        && (!is_select(op) || known.holds(to))
}

fn holding_of(longword: bool) -> Holding
    ensures { result ≡ holding_of longword }
{
    if longword {
        Holding::Longword
    } else {
        Holding::Wide
    }
}

/// No check or reference stands behind a change, and each place is a longword.
fn place_fits(known: &Known, place: u8) -> bool
    ensures { result ≡ place_fits known.now place }
{
    !known.changed && known.holds_longword(place)
}

fn check_fits(known: &Known, place: u8, count: u8) -> bool
    ensures { result ≡ check_fits known.now place count }
{
    is_count(count) && place_fits(known, place)
}

/// Each reference stands behind a check of its place and count, for writing where it writes.
fn reference_fits(known: &Known, place: u8, count: u8, write: bool) -> bool
    ensures { result ≡ reference_fits known.now place count write }
{
    place_fits(known, place) && is_checked(known.checked, place, count, write)
}

/// The temporaries of one reference are different from each other and among 0 to 3.
fn are_apart(a: u8, b: u8) -> bool
    ensures { result ≡ are_apart a b }
{
    a < 4 && b < 4 && a != b
}

fn read_fits(known: &Known, to: u8, place: u8, count: u8) -> bool
    ensures { result ≡ read_fits known.now to place count }
{
    is_count(count) && are_apart(to, place) && reference_fits(known, place, count, false)
}

fn write_fits(known: &Known, place: u8, count: u8, from: u8) -> bool
    ensures { result ≡ write_fits known.now place count from }
{
    is_count(count)
        && are_apart(place, from)
        && known.holds(from)
        && reference_fits(known, place, count, true)
}

fn locked_count(kind: LockedOp) -> u8
    ensures { result ≡ locked_count kind }
{
    match kind {
        LockedOp::AddWord => 2,
        LockedOp::SetBit | LockedOp::ClearBit => 1,
    }
}

fn locked_fits(known: &Known, to: u8, place: u8, count: u8, from: u8) -> bool
    ensures { result ≡ locked_fits known.now to place count from }
{
    are_apart(to, place)
        && are_apart(place, from)
        && are_apart(from, to)
        && known.holds(from)
        && reference_fits(known, place, count, true)
}

fn commit_fits(known: &Known, register: u8, from: u8) -> bool
    ensures { result ≡ commit_fits known.now register from }
{
    register < REGISTERS && known.holds(from) && !known.is_committed(register)
}

fn code_fits(known: &Known, code: Option<u8>) -> bool
    ensures { result ≡ code_fits known.now code }
{
    match code {
        Some(temp) => known.holds(temp),
        None => true,
    }
}

fn codes_fit(known: &Known, n: u8, z: u8, v: u8, c: Option<u8>) -> bool
    ensures { result ≡ codes_fit known.now n z v c }
{
    !known.codes && known.holds(n) && known.holds(z) && known.holds(v) && code_fits(known, c)
}

/// The words that make the codes change temporaries 3 and 4.
fn exit_holds(known: &Known, temp: u8) -> bool
    ensures { result ≡ exit_holds known.now temp }
{
    known.holds(temp) && temp != 3 && temp != 4
}

/// A service finds the codes as the instruction found them, and the breakpoint fault finds the whole state so.
fn exit_fits(known: &Known, exit: Exit) -> bool
    ensures { result ≡ exit_fits known.now exit }
{
    match exit {
        Exit::Next | Exit::Fixed(_) => true,
        Exit::Computed(temp) => exit_holds(known, temp),
        Exit::Choice { when, .. } => exit_holds(known, when),
        Exit::Service(temp) => exit_holds(known, temp) && !known.codes && !known.psw,
        Exit::Breakpoint => !known.changed,
    }
}

fn is_from_values(source: CodeSource) -> bool
    ensures { result ≡ is_from_values source }
{
    !matches!(source, CodeSource::Kept | CodeSource::Psw)
}

fn is_from_psw(source: CodeSource) -> bool
    ensures { result ≡ is_from_psw source }
{
    matches!(source, CodeSource::Psw)
}

/// Whether the temporaries hold what N, Z and V come from, and the result.
fn signs_are_held(known: &Known, source: CodeSource) -> bool
    ensures { result ≡ signs_are_held known.now source }
{
    match source {
        CodeSource::Kept | CodeSource::Zero => true,
        CodeSource::Result(_) => known.holds(2),
        CodeSource::Add(_) | CodeSource::Sub(_) => {
            known.holds(0) && known.holds(1) && known.holds(2)
        }
        CodeSource::Compare(_) => known.holds(0) && known.holds(1),
        CodeSource::Computed(_) => known.holds(2) && known.holds(3),
        CodeSource::Psw => known.holds(2),
    }
}

/// The same of C.
fn carry_is_held(known: &Known, source: CodeSource) -> bool
    ensures { result ≡ carry_is_held known.now source }
{
    match source {
        CodeSource::Kept | CodeSource::Zero | CodeSource::Result(_) => true,
        CodeSource::Add(_) | CodeSource::Sub(_) | CodeSource::Compare(_) => {
            known.holds(0) && known.holds(1)
        }
        CodeSource::Computed(_) => known.holds(4),
        CodeSource::Psw => known.holds(2),
    }
}

/// `Codes` stands just where N, Z and V come from values, `SetPsw` just where they come from the PSW.
fn sources_fit(codes: CodeSources, known: &Known) -> bool
    ensures { result ≡ sources_fit codes known.now }
{
    known.codes == is_from_values(codes.nzv)
        && known.psw == is_from_psw(codes.nzv)
        && signs_are_held(known, codes.nzv)
        && carry_is_held(known, codes.c)
}

fn when_fits(fits: bool, known: Known) -> Option<Known>
    ensures { result ≡ when_fits fits known }
{
    if fits { Some(known) } else { None }
}

fn compute_step(known: Known, to: u8, op: MicroOp, a: Arg, b: Arg, longword: bool) -> Option<Known>
    ensures { result ≡ when_fits (computation_fits known to op a b) (behind_write to (holding_of longword) known) }
{
    if to < TEMPORARIES && computation_fits(&known, to, op, a, b) {
        Some(known.behind_write(to, holding_of(longword)))
    } else {
        None
    }
}

fn probe_step(known: Known, place: u8, count: u8, write: bool) -> Option<Known>
    ensures { result ≡ when_fits (check_fits known place count) (behind_access (record known { checked = Checked.At place count write })) }
{
    let checked = Checked::At {
        place,
        count,
        write,
    };
    when_fits(
        check_fits(&known, place, count),
        Known { checked, ..known }.behind_access(),
    )
}

fn read_step(known: Known, to: u8, place: u8, count: u8) -> Option<Known>
    ensures { result ≡ when_fits (read_fits known to place count) (behind_access (behind_write to (holding_of (nat_le count 4)) known)) }
{
    if to < 4 && read_fits(&known, to, place, count) {
        Some(
            known
                .behind_write(to, holding_of(count <= 4))
                .behind_access(),
        )
    } else {
        None
    }
}

fn locked_step(known: Known, to: u8, place: u8, kind: LockedOp, from: u8) -> Option<Known>
    ensures { result ≡ when_fits (locked_fits known to place (locked_count kind) from) (behind_access (behind_write to Holding.Wide known)) }
{
    if to < 4 && locked_fits(&known, to, place, locked_count(kind), from) {
        Some(known.behind_write(to, Holding::Wide).behind_access())
    } else {
        None
    }
}

fn commit_step(known: Known, register: u8, from: u8) -> Option<Known>
    ensures { result ≡ when_fits (commit_fits known register from) (behind_commit register known) }
{
    if register < REGISTERS && commit_fits(&known, register, from) {
        Some(known.behind_commit(register))
    } else {
        None
    }
}

fn codes_step(known: Known, n: u8, z: u8, v: u8, c: Option<u8>) -> Option<Known>
    ensures { result ≡ when_fits (codes_fit known n z v c) (record known { codes = true; changed = true }) }
{
    when_fits(
        codes_fit(&known, n, z, v, c),
        Known {
            codes: true,
            changed: true,
            ..known
        },
    )
}

fn psw_step(known: Known, from: u8) -> Option<Known>
    ensures { result ≡ when_fits (not known.psw && holds known from) (record known { psw = true; changed = true }) }
{
    when_fits(
        !known.psw && known.holds(from),
        Known {
            psw: true,
            changed: true,
            ..known
        },
    )
}

fn leave_step(codes: CodeSources, known: Known, exit: Exit) -> Option<Known>
    ensures { result ≡ when_fits (exit_fits known exit && sources_fit codes known) (record known { ended = true }) }
{
    when_fits(
        exit_fits(&known, exit) && sources_fit(codes, &known),
        Known {
            ended: true,
            ..known
        },
    )
}

/// What is known behind an operation, where it fits.
#[tactic(auto, unfolding(crate::specs::Fits::step))]
pub(crate) fn step(codes: CodeSources, known: Known, operation: Micro) -> Option<Known>
    ensures { result ≡ step codes known operation }
{
    match operation {
        Micro::Compute { to, op, a, b, .. } => {
            compute_step(known, to, op, a, b, leaves_longword(operation))
        }
        Micro::Probe {
            place,
            count,
            write,
        } => probe_step(known, place, count, write),
        Micro::Refuse { when } => when_fits(!known.changed && known.holds(when), known),
        Micro::Read { to, place, count } => read_step(known, to, place, count),
        Micro::Write { place, count, from } => when_fits(
            write_fits(&known, place, count, from),
            known.behind_access(),
        ),
        Micro::Locked {
            to,
            place,
            kind,
            from,
        } => locked_step(known, to, place, kind, from),
        Micro::Commit { register, from } => commit_step(known, register, from),
        Micro::Codes { n, z, v, c } => codes_step(known, n, z, v, c),
        Micro::SetPsw { from } => psw_step(known, from),
        Micro::Leave(exit) => leave_step(codes, known, exit),
    }
}
