// The end of a block: the trap on overflow, and the exits.
ghost use Rattle.std.specs.Prelude.{◌≡◌, ◌++◌, ◌≤◌, length, map, OnOk, IfOk, true};
ghost use Rattle.program_codegen.specs.Words.{plain, width_of, overflow_made, overflow_register, tells_overflow, may_overflow, load_by, overflow_by, enabled_lines, tested_lines, may_trap, trap_by, departing, departing_by, leaving};
ghost use Rattle.program_codegen.specs.Programs.{IsExit, is_narrow};

use crate::lines::{Line, RAISE, copy, holder, marked, plain, push_exit, push_words};
use crate::points::{BREAKPOINT, Site, point_of, raising, trapping};
use alpha_encode::registers::{
    ADDRESS, OVERFLOW, RULE_FIRST, RULE_SECOND, STATUS, TARGET, TEMPORARIES, ZERO,
};
use alpha_encode::{
    AlphaInstr, BranchOp, MemoryOp, OperateOp, branch, load_longword, operate_by, pal,
};
use compute_sequences::{Arithmetic, overflow_words};
use exception_records::CodeRule;
use micro_ops::{CodeSource, Exit};
use std::alloc::{AllocError, Global};
use vax_form::{Size, WantOfMemory, Width};

/// IV in R20.
const OVERFLOW_TRAPS: u8 = 1 << 5;
/// The words that test it.
const ENABLED_TEST: i32 = 2;
/// The code of a service, and the type of a trap.
const CODE: u8 = TEMPORARIES;
/// V where it is made for the trap alone.
const MADE_OVERFLOW: u8 = TEMPORARIES + 3;

const SCRATCH: u8 = ADDRESS;
/// The type of the trap on integer overflow.
const INTEGER_OVERFLOW: i16 = 1;

const LOOK_UP: AlphaInstr = AlphaInstr::Pal(pal::LOOK_UP);

const SERVE: AlphaInstr = AlphaInstr::Pal(pal::SERVE);

const TRAP: AlphaInstr = AlphaInstr::Pal(pal::TRAP);

fn width_of(size: Size) -> Width
    ensures { result ≡ width_of size }
{
    match size {
        Size::Byte => Width::Byte,
        Size::Word => Width::Word,
        Size::Long | Size::Quad => Width::Long,
    }
}

/// The words that make V by its rule.
fn overflow_made(alloc: Global, rule: CodeRule) -> Result<Vec<AlphaInstr>, WantOfMemory>
    ensures words { IfOk result (λ words. words.items ≡ overflow_made rule) }
    ensures few { IfOk result (λ words. length words.items ≤ 9) }
{
    let (arithmetic, size) = match rule {
        CodeRule::Add { size } => (Arithmetic::Sum, size),
        CodeRule::Sub { size } => (Arithmetic::Difference, size),
        _ => return Ok(Vec::new(alloc)),
    };
    overflow_words(
        alloc,
        arithmetic,
        width_of(size),
        RULE_FIRST,
        RULE_SECOND,
        MADE_OVERFLOW,
    )
}

fn overflow_register(rule: CodeRule) -> u8
    ensures { result ≡ overflow_register rule }
{
    match rule {
        CodeRule::Ready => OVERFLOW,
        _ => MADE_OVERFLOW,
    }
}

/// Whether V by this rule may be 1.
fn tells_overflow(rule: CodeRule) -> bool
    ensures { result ≡ tells_overflow rule }
{
    matches!(
        rule,
        CodeRule::Ready | CodeRule::Add { .. } | CodeRule::Sub { .. }
    )
}

fn may_overflow(source: CodeSource) -> bool
    ensures { result ≡ may_overflow source }
{
    matches!(
        source,
        CodeSource::Add(_) | CodeSource::Sub(_) | CodeSource::Computed(_)
    )
}

/// The PC behind the instruction, into R26. A choice takes the other of its addresses where the branch is taken.
fn push_pc(lines: &mut Vec<Line>, op: BranchOp, after: u32, exit: Exit) -> Result<(), AllocError>
    requires { IsExit exit }
    ensures { OnOk result (lines.new.items ≡ lines.old.items ++ map plain (load_by op after exit)) }
{
    match exit {
        Exit::Fixed(address) => push_words(lines, &load_longword(TARGET, address)),
        Exit::Computed(temp) => push_words(lines, &[copy(holder(temp), TARGET)]),
        Exit::Choice { when, taken, other } => {
            let [taken_high, taken_low] = load_longword(TARGET, taken);
            let [other_high, other_low] = load_longword(TARGET, other);
            push_words(
                lines,
                &[
                    branch(op, holder(when), 3),
                    taken_high,
                    taken_low,
                    branch(BranchOp::Br, ZERO, 2),
                    other_high,
                    other_low,
                ],
            )
        }
        Exit::Next | Exit::Service(_) | Exit::Breakpoint => {
            push_words(lines, &load_longword(TARGET, after))
        }
    }
}

/// The words of the trap.
fn overflow_lines(
    alloc: Global,
    site: Site,
    op: BranchOp,
    exit: Exit,
) -> Result<Vec<Line>, AllocError>
    requires { IsExit exit }
    ensures lines { IfOk result (λ lines. lines.items ≡ overflow_by op site exit) }
    ensures few { IfOk result (λ lines. length lines.items ≤ 8) }
{
    let mut lines = Vec::new(alloc);
    push_pc(&mut lines, op, site.after, exit)?;
    lines.extend_from_slice(&[
        plain(AlphaInstr::Memory {
            op: MemoryOp::Lda,
            ra: CODE,
            rb: ZERO,
            disp: INTEGER_OVERFLOW,
        }),
        marked(TRAP, trapping(site)),
    ])?;
    Ok(lines)
}

/// Words are passed over where IV is clear.
fn push_enabled(lines: &mut Vec<Line>, over: usize) -> Result<(), AllocError>
    requires { over ≤ 18 }
    ensures { OnOk result (lines.new.items ≡ lines.old.items ++ enabled_lines over) }
{
    lines.extend_from_slice(&[
        plain(operate_by(OperateOp::And, STATUS, OVERFLOW_TRAPS, SCRATCH)),
        plain(branch(BranchOp::Beq, SCRATCH, over as i32)),
    ])
}

/// The trap behind its tests: of V that is ready, and of IV; V that is not ready is made only where IV is set.
fn push_tested(
    lines: &mut Vec<Line>,
    rule: CodeRule,
    made: &[AlphaInstr],
    trap: &[Line],
) -> Result<(), AllocError>
    requires made { length made.now ≤ 9 }
    requires trap { length trap.now ≤ 8 }
    ensures { OnOk result (lines.new.items ≡ lines.old.items ++ tested_lines rule made.now trap.now) }
{
    let over = trap.len();
    let register = overflow_register(rule);
    if matches!(rule, CodeRule::Ready) {
        lines.push(plain(branch(BranchOp::Beq, register, ENABLED_TEST + over as i32)))?;
        push_enabled(lines, over)?;
    } else {
        push_enabled(lines, made.len() + 1 + over)?;
        push_words(lines, made)?;
        lines.push(plain(branch(BranchOp::Beq, register, over as i32)))?;
    }
    lines.extend_from_slice(trap)
}

pub(crate) fn may_trap(site: Site) -> bool
    ensures { result ≡ may_trap site }
{
    may_overflow(site.sources.nzv) && tells_overflow(site.behind.v)
}

pub(crate) fn push_trap(
    alloc: Global,
    lines: &mut Vec<Line>,
    site: Site,
    op: BranchOp,
    exit: Exit,
) -> Result<(), WantOfMemory>
    requires exit { IsExit exit }
    requires narrow { is_narrow site.behind.v ≡ true }
    ensures { OnOk result (lines.new.items ≡ lines.old.items ++ trap_by op site exit) }
{
    if may_trap(site) {
        let made = overflow_made(alloc, site.behind.v)?;
        let trap = overflow_lines(alloc, site, op, exit)?;
        push_tested(lines, site.behind.v, &made, &trap)?;
    }
    Ok(())
}

fn push_service(lines: &mut Vec<Line>, site: Site, temp: u8) -> Result<(), AllocError>
    requires { IsExit (Exit.Service temp) }
    ensures { OnOk result (lines.new.items ≡ lines.old.items ++ departing site (Exit.Service temp)) }
{
    if holder(temp) != CODE {
        lines.push(plain(copy(holder(temp), CODE)))?;
    }
    let [high, low] = load_longword(TARGET, site.after);
    lines.extend_from_slice(&[plain(high), plain(low), marked(SERVE, point_of(site))])?;
    push_exit(lines, site.after)
}

fn push_choice(
    lines: &mut Vec<Line>,
    op: BranchOp,
    when: u8,
    taken: u32,
    other: u32,
) -> Result<(), AllocError>
    requires { IsExit (Exit.Choice when taken other) }
    ensures { (site : _) → OnOk result (lines.new.items ≡ lines.old.items ++ departing_by op site (Exit.Choice when taken other)) }
{
    lines.push(plain(branch(op, holder(when), 3)))?;
    push_exit(lines, taken)?;
    push_exit(lines, other)
}

pub(crate) fn push_departing(
    lines: &mut Vec<Line>,
    site: Site,
    op: BranchOp,
    exit: Exit,
) -> Result<(), AllocError>
    requires { IsExit exit }
    ensures { OnOk result (lines.new.items ≡ lines.old.items ++ departing_by op site exit) }
{
    match exit {
        Exit::Next => push_exit(lines, site.after),
        Exit::Fixed(address) => push_exit(lines, address),
        Exit::Computed(temp) => {
            lines.extend_from_slice(&[plain(copy(holder(temp), TARGET)), plain(LOOK_UP)])
        }
        Exit::Choice { when, taken, other } => push_choice(lines, op, when, taken, other),
        Exit::Service(temp) => push_service(lines, site, temp),
        Exit::Breakpoint => {
            lines.push(marked(RAISE, raising(site, BREAKPOINT)))?;
            Ok(())
        }
    }
}

/// The words that leave the codes, the trap on overflow, and the exits.
pub(crate) fn push_leaving(
    alloc: Global,
    lines: &mut Vec<Line>,
    site: Site,
    codes: &[AlphaInstr],
    exit: Exit,
) -> Result<(), WantOfMemory>
    requires exit { IsExit exit }
    requires narrow { is_narrow site.behind.v ≡ true }
    ensures { OnOk result (lines.new.items ≡ lines.old.items ++ leaving site codes.now exit) }
{
    push_words(lines, codes)?;
    push_trap(alloc, lines, site, BranchOp::Beq, exit)?;
    push_departing(lines, site, BranchOp::Beq, exit)?;
    Ok(())
}
