// The words of programs whose operands are used where they stand.
ghost use Rattle.std.specs.Prelude.{◌≡◌, ◌++◌, ◌∷◌, IfOk, IfSome, OnOk, MatchOption, None, Some, map, true};
ghost use Rattle.program_codegen.specs.Words.{plain};
ghost use Rattle.program_codegen.specs.Homes.{no_homes, AreHomes};
ghost use Rattle.program_codegen.specs.Ends.{is_operand, is_operand_second, second_home, unmoved, moved_operand, moved_both, moved_first, moved_by, is_raised, raised_at, raised_second, with_raised, have_homes, raised_home, compared_raised, moved_word, moved_step, moved_words, is_short_rule, are_short_rules, is_wordless, exit_of, exit_behind, with_commit, end_at, exit_stays, commit_stays, commit_words, is_made_there, are_left, may_end, direct_end, end_lines, end_words};
ghost use Rattle.program_codegen.specs.Direct.{ended_lines, goes_on, homes_at, step_at, lines_at, direct_lines};
ghost use Rattle.program_codegen.specs.Programs.{AllFitWords, HasWords, IsExit, IsRanged, IsRangedExit, RangedToLeave, is_narrow};

use crate::homes::{Homes, NO_HOMES, home_at, home_of, is_direct, push_direct, stands_in};
use crate::leaving::{push_departing, push_trap};
use crate::lines::{Line, holder, push_words};
use crate::points::Site;
use crate::reached::reach;
use crate::spared::end_words;
use crate::tested::{choice_of, tested_at};
use crate::waits::is_choice;
use alpha_encode::registers::{CARRY_FIRST, CARRY_SECOND, RULE_FIRST, RULE_SECOND, TEMPORARIES};
use alpha_encode::{AlphaInstr, OperateOp, Second, operate, operate_by};
use exception_records::{CodeRule, Rules};
use micro_ops::{CodeSource, CodeSources, Exit, Micro, is_left_out};
use std::alloc::{AllocError, Global};
use vax_form::{Size, WantOfMemory};

/// What raises a longword.
const RAISED: u8 = 32;
/// The sign of a longword, and that of a quadword.
const LONGWORD_SIGN: u8 = 31;

const QUADWORD_SIGN: u8 = 63;
/// The words for the codes leave the temporaries below the first of these, and the last one.
const LEFT_ALONE: u8 = 3;

const LAST_LEFT_ALONE: u8 = 5;

/// The registers into which two longwords are raised.
const FIRST_RAISED: u8 = TEMPORARIES + 3;

const SECOND_RAISED: u8 = TEMPORARIES + 4;

/// For both the home whose low longword it is to hold, raised.
#[derive(Clone, Copy)]
struct Raised {
    first: Option<u8>,
    second: Option<u8>,
}

const NONE_RAISED: Raised = Raised {
    first: None,
    second: None,
};

/// The register that is written, and the temporary that it is written from.
pub(crate) type Commit = Option<(u8, u8)>;

/// Whether the low bytes of a register are an operand of a rule.
fn is_operand(register: u8) -> bool
    ensures { result ≡ is_operand register }
{
    register == RULE_FIRST
        || register == RULE_SECOND
        || register == CARRY_FIRST
        || register == CARRY_SECOND
}

fn is_operand_second(second: Second) -> bool
    ensures { result ≡ is_operand_second second }
{
    match second {
        Second::Register(register) => is_operand(register),
        Second::Literal(_) => false,
    }
}

fn second_home(homes: Homes, second: Second) -> Option<u8>
    ensures { result ≡ second_home homes second }
{
    match second {
        Second::Register(register) => home_at(homes, register),
        Second::Literal(_) => None,
    }
}

/// A word that reads no home.
fn unmoved(op: OperateOp, first: u8, second: Second, to: u8) -> Option<AlphaInstr>
    ensures { result ≡ unmoved op first second to }
{
    if is_operand(first) || is_operand_second(second) || is_choice(op) {
        None
    } else {
        Some(AlphaInstr::Operate {
            op,
            ra: first,
            rb: second,
            rc: to,
        })
    }
}

/// An operand of a rule is moved to its register.
fn moved_operand(op: OperateOp, first: u8, home: u8, to: u8) -> Option<AlphaInstr>
    ensures { result ≡ moved_operand op first home to }
{
    match op {
        OperateOp::Bis => {
            if !is_operand(first) && is_operand(to) {
                Some(operate(OperateOp::Bis, first, home, to))
            } else {
                None
            }
        }
        _ => None,
    }
}

/// Sign-extended longwords compare as longwords do.
fn moved_both(op: OperateOp, first: u8, second: u8, to: u8) -> Option<AlphaInstr>
    ensures { result ≡ moved_both op first second to }
{
    match op {
        OperateOp::Cmpeq | OperateOp::Cmpult => Some(operate(op, first, second, to)),
        _ => None,
    }
}

/// They are 0 as longwords are, their low longwords are raised alike, and their sign is bit 63.
fn moved_first(op: OperateOp, home: u8, second: Second, to: u8) -> Option<AlphaInstr>
    ensures { result ≡ moved_first op home second to }
{
    match (op, second) {
        (OperateOp::Cmpeq, Second::Literal(0)) => Some(operate_by(op, home, 0, to)),
        (OperateOp::Sll, Second::Literal(RAISED)) => Some(operate_by(op, home, RAISED, to)),
        (OperateOp::Srl, Second::Literal(LONGWORD_SIGN)) => {
            Some(operate_by(op, home, QUADWORD_SIGN, to))
        }
        _ => None,
    }
}

fn moved_by(
    home: Option<u8>,
    other: Option<u8>,
    op: OperateOp,
    first: u8,
    second: Second,
    to: u8,
) -> Option<AlphaInstr>
    ensures { result ≡ moved_by home other op first second to }
{
    match (home, other) {
        (None, None) => unmoved(op, first, second, to),
        (None, Some(y)) => moved_operand(op, first, y, to),
        (Some(x), None) => moved_first(op, x, second, to),
        (Some(x), Some(y)) => moved_both(op, x, y, to),
    }
}

fn is_raised(register: u8) -> bool
    ensures { result ≡ is_raised register }
{
    register == FIRST_RAISED || register == SECOND_RAISED
}

/// The home that a register is to hold, raised.
fn raised_at(raised: Raised, register: u8) -> Option<u8>
    ensures { result ≡ raised_at raised register }
{
    match register {
        FIRST_RAISED => raised.first,
        SECOND_RAISED => raised.second,
        _ => None,
    }
}

fn raised_second(raised: Raised, second: Second) -> Option<u8>
    ensures { result ≡ raised_second raised second }
{
    match second {
        Second::Register(register) => raised_at(raised, register),
        Second::Literal(_) => None,
    }
}

fn with_raised(register: u8, home: Option<u8>, raised: Raised) -> Raised
    ensures { result ≡ with_raised register home raised }
{
    match register {
        FIRST_RAISED => Raised {
            first: home,
            ..raised
        },
        SECOND_RAISED => Raised {
            second: home,
            ..raised
        },
        _ => raised,
    }
}

/// Whether both operands have homes.
fn have_homes(homes: Homes) -> bool
    ensures { result ≡ have_homes homes }
{
    homes.first.is_some() && homes.second.is_some()
}

/// The home that a word raises.
fn raised_home(homes: Homes, op: OperateOp, first: u8, second: Second, to: u8) -> Option<u8>
    ensures { result ≡ raised_home homes op first second to }
{
    match (op, second) {
        (OperateOp::Sll, Second::Literal(RAISED)) => {
            if is_raised(to) && have_homes(homes) {
                home_at(homes, first)
            } else {
                None
            }
        }
        _ => None,
    }
}

/// Homes compare as raised longwords do.
fn compared_raised(op: OperateOp, first: u8, second: u8, to: u8) -> Option<AlphaInstr>
    ensures { result ≡ compared_raised op first second to }
{
    match op {
        OperateOp::Cmplt => Some(operate(op, first, second, to)),
        _ => None,
    }
}

/// A word that reads the homes in place of the temporaries' own registers; none where it would do something else.
fn moved_word(
    raised: Option<u8>,
    other: Option<u8>,
    homes: Homes,
    op: OperateOp,
    first: u8,
    second: Second,
    to: u8,
) -> Option<AlphaInstr>
    ensures { result ≡ moved_word raised other homes op first second to }
{
    match (raised, other) {
        (None, None) => moved_by(
            home_at(homes, first),
            second_home(homes, second),
            op,
            first,
            second,
            to,
        ),
        (Some(x), Some(y)) => compared_raised(op, x, y, to),
        _ => None,
    }
}

/// What is to be raised behind a word, and the word if any: one that raises a home has none.
fn moved_step(
    homes: Homes,
    raised: Raised,
    word: AlphaInstr,
) -> Option<(Raised, Option<AlphaInstr>)>
    ensures { result ≡ moved_step homes raised word }
{
    let AlphaInstr::Operate { op, ra, rb, rc } = word else {
        return None;
    };
    if let Some(home) = raised_home(homes, op, ra, rb, rc) {
        return Some((with_raised(rc, Some(home), raised), None));
    }
    match moved_word(
        raised_at(raised, ra),
        raised_second(raised, rb),
        homes,
        op,
        ra,
        rb,
        rc,
    ) {
        Some(moved) => Some((with_raised(rc, None, raised), Some(moved))),
        None => None,
    }
}

fn moved_words(
    alloc: Global,
    homes: Homes,
    words: &[AlphaInstr],
) -> Result<Option<Vec<AlphaInstr>>, AllocError>
    ensures { IfOk result (λ moved. MatchOption moved (moved_words homes words.now ≡ None) (λ m. moved_words homes words.now ≡ Some m.items)) }
{
    let mut moved = Vec::new(alloc);
    let mut raised = NONE_RAISED;
    for i in 0..words.len() {
        let Some((behind, word)) = moved_step(homes, raised, words[i]) else {
            return Ok(None);
        };
        raised = behind;
        if let Some(word) = word {
            moved.push(word)?;
        }
    }
    Ok(Some(moved))
}

/// Whether at most the low longwords of the operands tell the code.
fn is_short_rule(rule: CodeRule) -> bool
    ensures { result ≡ is_short_rule rule }
{
    match rule {
        CodeRule::Result { size }
        | CodeRule::Add { size }
        | CodeRule::Sub { size }
        | CodeRule::Compare { size } => !matches!(size, Size::Quad),
        CodeRule::Ready | CodeRule::Zero => true,
    }
}

pub(crate) fn are_short_rules(behind: Rules) -> bool
    ensures { result ≡ are_short_rules behind }
{
    is_short_rule(behind.n)
        && is_short_rule(behind.z)
        && is_short_rule(behind.v)
        && is_short_rule(behind.c)
}

/// Whether an operation has no words: the words that leave the codes stand in for it.
fn is_wordless(sources: CodeSources, operation: Micro, behind: &[Micro]) -> bool
    ensures wordless { result ≡ is_wordless sources operation behind.now }
    ensures ranged { IsRanged operation }
{
    match operation {
        Micro::Compute { .. } => is_left_out(sources, operation, behind),
        Micro::Codes { .. } => true,
        _ => false,
    }
}

pub(crate) fn exit_of(operation: Micro) -> Option<Exit>
    ensures exit { result ≡ exit_of operation }
    ensures ranged { IsRanged operation }
{
    match operation {
        Micro::Leave(exit) => Some(exit),
        _ => None,
    }
}

/// The exit behind operations without words.
fn exit_behind(sources: CodeSources, program: &[Micro]) -> Option<Exit>
    ensures exit { result ≡ exit_behind sources program.now }
    ensures ranged { IfSome result (λ exit. RangedToLeave program.now) }
{
    for i in 0..program.len() {
        if !is_wordless(sources, program[i], &program[i + 1..]) {
            return exit_of(program[i]);
        }
    }
    None
}

/// Whether it goes to an address, by a temporary in its own register if by one.
fn exit_stays(homes: Homes, exit: Exit) -> bool
    ensures { result ≡ exit_stays homes exit }
{
    match exit {
        Exit::Next | Exit::Fixed(_) => true,
        Exit::Choice { when, .. } => home_of(homes, when).is_none(),
        Exit::Computed(_) | Exit::Service(_) | Exit::Breakpoint => false,
    }
}

fn commit_stays(commit: Commit) -> bool
    ensures { result ≡ commit_stays commit }
{
    match commit {
        Some((_register, from)) => from < LEFT_ALONE || from == LAST_LEFT_ALONE,
        None => true,
    }
}

/// Whether it is V that an instruction makes by itself, which is read in the register of temporary 3.
fn is_made_there(source: CodeSource) -> bool
    ensures { result ≡ is_made_there source }
{
    matches!(source, CodeSource::Computed(_))
}

/// Whether no operand stands in the register of temporary 3, which the words for the codes write, and what they read there does.
pub(crate) fn are_left(sources: CodeSources, homes: Homes) -> bool
    ensures { result ≡ are_left sources homes }
{
    !(stands_in(homes.first, FIRST_RAISED)
        || stands_in(homes.second, FIRST_RAISED)
        || stands_in(homes.result, FIRST_RAISED))
        && (homes.place.is_none() || !is_made_there(sources.nzv))
}

fn may_end(site: Site, homes: Homes, commit: Commit, exit: Exit) -> bool
    ensures { result ≡ may_end site homes commit exit }
{
    are_left(site.sources, homes)
        && commit_stays(commit)
        && exit_stays(homes, exit)
        && are_short_rules(site.behind)
}

/// The words up to the one that writes the register, the trap on overflow, and the exits.
fn end_lines(
    alloc: Global,
    site: Site,
    homes: Homes,
    commit: Commit,
    exit: Exit,
    codes: &[AlphaInstr],
) -> Result<Vec<Line>, WantOfMemory>
    requires commit { commit_stays commit ≡ true }
    requires exit { IsExit exit }
    requires narrow { is_narrow site.behind.v ≡ true }
    ensures { IfOk result (λ lines. lines.items ≡ end_lines site homes commit exit codes.now) }
{
    let (op, exit) = choice_of(homes, exit);
    let words = end_words(alloc, homes, commit, exit, codes)?;
    let mut lines = Vec::new(alloc);
    push_words(&mut lines, &words)?;
    push_trap(alloc, &mut lines, site, op, exit)?;
    push_departing(&mut lines, site, op, exit)?;
    Ok(lines)
}

/// The words for the codes, the register that is written, the trap on overflow, and the exits.
fn direct_end(
    alloc: Global,
    site: Site,
    codes: &[AlphaInstr],
    homes: Homes,
    commit: Commit,
    exit: Exit,
) -> Result<Option<Vec<Line>>, WantOfMemory>
    requires exit { IsRangedExit exit → IsExit exit }
    requires narrow { is_narrow site.behind.v ≡ true }
    ensures { IfOk result (λ lines. MatchOption lines (direct_end site codes.now homes commit exit ≡ None) (λ made. direct_end site codes.now homes commit exit ≡ Some made.items)) }
{
    if !may_end(site, homes, commit, exit) {
        return Ok(None);
    }
    let Some(moved) = moved_words(alloc, homes, codes)? else {
        return Ok(None);
    };
    Ok(Some(end_lines(alloc, site, homes, commit, exit, &moved)?))
}

fn with_commit(commit: Commit, exit: Option<Exit>) -> Option<(Commit, Exit)>
    ensures { result ≡ with_commit commit exit }
{
    match exit {
        Some(exit) => Some((commit, exit)),
        None => None,
    }
}

/// The register that is written, with the temporary from which, and the exit, where an operation comes to the end.
fn end_at(sources: CodeSources, operation: Micro, behind: &[Micro]) -> Option<(Commit, Exit)>
    ensures end { result ≡ end_at sources operation behind.now }
    ensures ranged { IfSome result (λ end. RangedToLeave (operation ∷ behind.now)) }
{
    match operation {
        Micro::Commit { register, from } => {
            with_commit(Some((register, from)), exit_behind(sources, behind))
        }
        Micro::Codes { .. } => with_commit(None, exit_behind(sources, behind)),
        _ => with_commit(None, exit_of(operation)),
    }
}

/// Whether a program goes on by an operation as it does with operands where they stand.
fn goes_on(operation: Micro) -> bool
    ensures { result ≡ goes_on operation }
{
    matches!(
        operation,
        Micro::Compute { .. } | Micro::Probe { .. } | Micro::Read { .. } | Micro::Write { .. }
    )
}

/// The words of a computation, of which one that is left out has none, or those of a reference, and where the temporaries stand
/// behind them.
fn push_step(
    alloc: Global,
    lines: &mut Vec<Line>,
    site: Site,
    homes: Homes,
    operation: Micro,
    behind: &[Micro],
) -> Result<Option<Homes>, WantOfMemory>
    requires words { IsRanged operation → HasWords site.sources operation behind.now }
    requires homes { AreHomes homes }
    ensures homes { IfOk result (λ now. now ≡ homes_at (step_at site homes operation behind.now)) }
    ensures lines { OnOk result (lines.new.items ≡ lines.old.items ++ lines_at (step_at site homes operation behind.now)) }
    ensures are { IfOk result (λ now. IfSome now AreHomes) }
    ensures ranged { IsRanged operation }
{
    let Micro::Compute { to, op, size, a, b } = operation else {
        let Some((now, more)) = reach(alloc, site, homes, operation, behind)? else {
            return Ok(None);
        };
        lines.extend_from_slice(&more)?;
        return Ok(Some(now));
    };
    if is_left_out(site.sources, operation, behind) {
        return Ok(Some(homes));
    }
    if !is_direct(homes, to, op, size, a, b) {
        return Ok(None);
    }
    Ok(Some(push_direct(alloc, lines, homes, to, op, size, a, b)?))
}

/// The lines with which a program comes to its end.
fn ended_lines(
    alloc: Global,
    site: Site,
    codes: &[AlphaInstr],
    homes: Homes,
    operation: Micro,
    behind: &[Micro],
) -> Result<Option<Vec<Line>>, WantOfMemory>
    requires words { AllFitWords site.sources (operation ∷ behind.now) }
    requires narrow { is_narrow site.behind.v ≡ true }
    ensures lines { IfOk result (λ lines. MatchOption lines (ended_lines site codes.now homes operation behind.now ≡ None) (λ made. ended_lines site codes.now homes operation behind.now ≡ Some made.items)) }
    ensures ranged { IfOk result (λ lines. IfSome lines (λ made. RangedToLeave (operation ∷ behind.now))) }
{
    match end_at(site.sources, operation, behind) {
        Some((commit, exit)) => direct_end(alloc, site, codes, homes, commit, exit),
        None => Ok(None),
    }
}

/// The lines of a program; none where it makes an interlocked reference, or writes two registers, or where operands can't be
/// used where they stand.
pub(crate) fn direct_lines(
    alloc: Global,
    site: Site,
    codes: &[AlphaInstr],
    program: &[Micro],
) -> Result<Option<Vec<Line>>, WantOfMemory>
    requires words { AllFitWords site.sources program.now }
    requires narrow { is_narrow site.behind.v ≡ true }
    ensures lines { IfOk result (λ lines. MatchOption lines (direct_lines site codes.now no_homes program.now ≡ None) (λ made. direct_lines site codes.now no_homes program.now ≡ Some made.items)) }
    ensures ranged { IfOk result (λ lines. IfSome lines (λ made. RangedToLeave program.now)) }
{
    let mut lines = Vec::new(alloc);
    let mut homes = NO_HOMES;
    for i in 0..program.len() {
        let behind = &program[i + 1..];
        if !goes_on(program[i]) {
            let Some(end) = ended_lines(alloc, site, codes, homes, program[i], behind)? else {
                return Ok(None);
            };
            lines.extend_from_slice(&end)?;
            return Ok(Some(lines));
        }
        if let Some(end) = tested_at(alloc, site, codes, homes, program[i], behind)? {
            lines.extend_from_slice(&end)?;
            return Ok(Some(lines));
        }
        match push_step(alloc, &mut lines, site, homes, program[i], behind)? {
            Some(now) => homes = now,
            None => return Ok(None),
        }
    }
    Ok(None)
}
