// The frame of a call: what is pushed, the checks of the pushes, and the pushes.
ghost use Rattle.std.specs.Prelude.{◌≡◌, ◌++◌, ◌<◌, ◌≤◌, ◌+◌, IfOk, OnOk, length, map, slice_index};
ghost use Rattle.alpha_encode.specs.Halves.{low_half};
ghost use Rattle.vax_long.specs.Registers.{is_in_mask};
ghost use Rattle.program_codegen.specs.Calls.{align_frame, check_lines, checks_from, count_lines, displacement, frame_of, longword_words, pushes_from, register_words, status_high, status_words, value_register, value_words};
ghost use Rattle.program_codegen.specs.Words.{plain};

use crate::calls::{Call, FIRST_TEMP, FRAME_TEMP, LIST_TEMP, VALUE_TEMP};
use crate::lines::{Line, VAX_REGISTERS, holder, marked, plain, push_words};
use crate::operations::{PROBE, write_by};
use crate::points::{Site, probing};
use alpha_encode::registers::{ADDRESS, BYTES, STATUS, TEMPORARIES, ZERO};
use alpha_encode::{
    AlphaInstr, MemoryOp, OperateOp, load_high, load_longword, memory, operate, operate_by,
};
use operand_programs::Steps;
use std::alloc::{AllocError, Global};
use vax_form::{AP, FP, WantOfMemory};

/// The registers of the temporaries.
const VALUE: u8 = TEMPORARIES + VALUE_TEMP;

const LIST: u8 = TEMPORARIES + LIST_TEMP;

const FRAME: u8 = TEMPORARIES + FRAME_TEMP;

/// FU, DV and IV in R20.
const STATUS_TRAPS: u8 = 0xE0;
/// The bits of an address within its longword.
const LOW_BITS: u8 = 3;

/// A longword of a frame.
#[derive(Clone, Copy)]
pub(crate) enum Pushed {
    Register(u8),
    /// The PC behind the call.
    After,
    Status,
    NoHandler,
}

fn is_saved(number: u8, mask: u16) -> bool
    requires { number < 12 }
    ensures { result ≡ is_in_mask number mask }
{
    (mask >> number) % 2 == 1
}

/// What is pushed, in order.
pub(crate) fn frame_of(alloc: Global, mask: u16) -> Result<Vec<Pushed>, AllocError>
    ensures frame { IfOk result (λ frame. frame.items ≡ frame_of mask) }
    ensures few { IfOk result (λ frame. length frame.items ≤ 17) }
{
    let mut frame = Vec::new(alloc);
    for done in 0..12 {
        let number = 12 - (done + 1);
        if is_saved(number, mask) {
            frame.push(Pushed::Register(number))?;
        }
    }
    frame.extend_from_slice(&[
        Pushed::After,
        Pushed::Register(FP),
        Pushed::Register(AP),
        Pushed::Status,
        Pushed::NoHandler,
    ])?;
    Ok(frame)
}

fn low_half(value: u32) -> i16
    ensures { result ≡ low_half value }
{
    ((value % (1 << 16)) as u16).cast_signed()
}

/// The place of a push, by its number from 1 on.
pub(crate) fn displacement(number: u8) -> i16
    requires { number ≤ 17 }
    ensures { result ≡ displacement number }
{
    low_half(0u32.wrapping_sub(4 * u32::from(number)))
}

pub(crate) fn align_frame() -> AlphaInstr
    ensures { result ≡ align_frame }
{
    operate_by(OperateOp::Bic, LIST, LOW_BITS, FRAME)
}

fn push_check(lines: &mut Vec<Line>, site: Site, number: u8) -> Result<(), AllocError>
    requires { number ≤ 17 }
    ensures { OnOk result (lines.new.items ≡ lines.old.items ++ check_lines site number) }
{
    lines.extend_from_slice(&[
        plain(memory(MemoryOp::Lda, ADDRESS, FRAME, displacement(number))),
        marked(PROBE, probing(site, 4, true)),
    ])
}

/// The checks of the pushes of a frame.
#[tactic(auto, using(crate::proofs::Pushing::checks_next))]
pub(crate) fn push_checks(
    lines: &mut Vec<Line>,
    site: Site,
    frame: &[Pushed],
) -> Result<(), AllocError>
    requires { length frame.now ≤ 17 }
    ensures { OnOk result (lines.new.items ≡ lines.old.items ++ checks_from site 1 (length frame.now)) }
{
    for place in 0..frame.len() {
        push_check(lines, site, place as u8 + 1)?;
    }
    Ok(())
}

/// The push of the count.
pub(crate) fn push_count(
    alloc: Global,
    lines: &mut Vec<Line>,
    site: Site,
    stack: bool,
) -> Result<(), WantOfMemory>
    ensures { OnOk result (lines.new.items ≡ lines.old.items ++ count_lines site stack) }
{
    if stack {
        let words = write_by(alloc, site.byte_word, LIST, 4, holder(FIRST_TEMP))?;
        push_words(lines, &words)?;
    }
    Ok(())
}

fn status_high(call: Call) -> u32
    ensures { result ≡ status_high call }
{
    let stack = if call.stack { 1 << 29 } else { 0 };
    stack + u32::from(call.mask) % 4096 * (1 << 16)
}

fn status_words(call: Call) -> [AlphaInstr; 6]
    ensures { result ≡ status_words call }
{
    [
        operate_by(OperateOp::And, STATUS, STATUS_TRAPS, VALUE),
        load_high(BYTES, status_high(call)),
        operate(OperateOp::Bis, VALUE, BYTES, VALUE),
        operate_by(OperateOp::And, LIST, LOW_BITS, BYTES),
        operate_by(OperateOp::Sll, BYTES, 30, BYTES),
        operate(OperateOp::Bis, VALUE, BYTES, VALUE),
    ]
}

/// What the operands added to a register R0 to R14.
fn step(steps: &Steps, number: u8) -> u32
    ensures { result ≡ slice_index steps.now number }
{
    if number < VAX_REGISTERS {
        steps[number as usize]
    } else {
        0
    }
}

fn push_register_value(lines: &mut Vec<Line>, number: u8, step: u32) -> Result<(), AllocError>
    ensures { OnOk result (lines.new.items ≡ lines.old.items ++ map plain (register_words number step)) }
{
    if step != 0 {
        push_words(
            lines,
            &[memory(MemoryOp::Lda, VALUE, number, low_half(step))],
        )?;
    }
    Ok(())
}

/// The words that make a value.
fn push_value(
    lines: &mut Vec<Line>,
    after: u32,
    call: Call,
    steps: &Steps,
    pushed: Pushed,
) -> Result<(), AllocError>
    ensures { OnOk result (lines.new.items ≡ lines.old.items ++ map plain (value_words after call steps.now pushed)) }
{
    match pushed {
        Pushed::Register(number) => push_register_value(lines, number, step(steps, number)),
        Pushed::After => push_words(lines, &load_longword(VALUE, after)),
        Pushed::Status => push_words(lines, &status_words(call)),
        Pushed::NoHandler => Ok(()),
    }
}

/// The register in which a value is then.
fn value_register(steps: &Steps, pushed: Pushed) -> u8
    ensures { result ≡ value_register steps.now pushed }
{
    match pushed {
        Pushed::Register(number) if step(steps, number) == 0 => number,
        Pushed::Register(_) | Pushed::After | Pushed::Status => VALUE,
        Pushed::NoHandler => ZERO,
    }
}

fn push_longword(
    lines: &mut Vec<Line>,
    after: u32,
    call: Call,
    steps: &Steps,
    number: u8,
    pushed: Pushed,
) -> Result<(), AllocError>
    requires { number ≤ 17 }
    ensures { OnOk result (lines.new.items ≡ lines.old.items ++ map plain (longword_words after call steps.now number pushed)) }
{
    push_value(lines, after, call, steps, pushed)?;
    let register = value_register(steps, pushed);
    push_words(
        lines,
        &[memory(MemoryOp::Stl, register, FRAME, displacement(number))],
    )
}

/// The pushes of a frame.
pub(crate) fn push_frame(
    lines: &mut Vec<Line>,
    after: u32,
    call: Call,
    steps: &Steps,
    frame: &[Pushed],
) -> Result<(), AllocError>
    requires { length frame.now ≤ 17 }
    ensures { OnOk result (lines.new.items ≡ lines.old.items ++ pushes_from after call steps.now 1 frame.now) }
{
    for place in 0..frame.len() {
        push_longword(lines, after, call, steps, place as u8 + 1, frame[place])?;
    }
    Ok(())
}
