// The block of MOVC3: behind the checks of both strings a loop moves the bytes.
ghost use Rattle.std.specs.Prelude.{◌≡◌, ◌++◌, ◌∷◌, ◌<◌, ◌≤◌, ◌^◌, [], true, All, IfOk, OnOk, length, map, slice_index};
ghost use Rattle.vax_form.specs.Codes.{all};
ghost use Rattle.exception_records.specs.Codes.{all_ready};
ghost use Rattle.block_law.specs.Blocks.{IsBlockOf};
ghost use Rattle.block_law.specs.Tidy.{codes_written};
ghost use Rattle.program_codegen.specs.Programs.{AllFitWords, AllRanged, is_narrow};
ghost use Rattle.program_codegen.specs.Promises.{BeginsBy, HasRules};
ghost use Rattle.program_codegen.specs.StringPromises.{AreLongStrings, CompilesString, IsStringMove};
ghost use Rattle.program_codegen.specs.Strings.{behind_words, destination_specifier, direction_words, length_specifier, loop_words, move_words, moved_words, operands_of, set, source_specifier, step_word, step_words, steps_from, steps_of, string_block, string_check, string_lines, string_site, turn_words};
ghost use Rattle.program_codegen.specs.Words.{block_of, plain, point_of, with_first};

use crate::lines::{
    Line, block_of, copy, holder, mark_first, marked, plain, push_exit, push_words,
};
use crate::operations::{PROBE, program_lines, read_by, write_by};
use crate::points::{Site, point_of, probing};
use alpha_encode::registers::{
    ADDRESS, CARRY, IS_ZERO, NEGATIVE, OVERFLOW, RULE_FIRST, TEMPORARIES, ZERO,
};
use alpha_encode::{AlphaInstr, BranchOp, OperateOp, branch, operate, operate_by};
use exception_records::{Block, Rules};
use micro_ops::{Micro, sources_of};
use operand_programs::{Specifier, Steps, piece_laws, put_operand};
use std::alloc::{AllocError, Global};
use vax_form::{Access, Instr, LongOperation, Operand, Operation, Size, WantOfMemory};

/// The temporary of the bytes that are left.
const LENGTH_TEMP: u8 = 0;
/// The temporary of the address of the byte that is read next.
const SOURCE_TEMP: u8 = 1;
/// The temporary of the address to which it goes.
const DESTINATION_TEMP: u8 = 2;
/// The temporary of the byte.
const BYTE_TEMP: u8 = 3;

const LENGTH: u8 = TEMPORARIES + LENGTH_TEMP;

const SOURCE: u8 = TEMPORARIES + SOURCE_TEMP;

const DESTINATION: u8 = TEMPORARIES + DESTINATION_TEMP;

const BYTE: u8 = TEMPORARIES + BYTE_TEMP;
/// What is added to both addresses behind each byte: behind the block all rules are ready, so the register of a rule's
/// operand is free.
const STRIDE: u8 = RULE_FIRST;

/// The first register whose step is not lost.
const FIRST_STEPPED: u8 = 6;
/// How many registers follow from there, up to SP.
const STEPPED: usize = 9;

fn length_specifier(operand: Operand) -> Specifier
    ensures { result ≡ length_specifier operand }
{
    Specifier {
        access: Access::Read,
        size: Size::Word,
        operand,
        to: LENGTH_TEMP,
        place: SOURCE_TEMP,
    }
}

fn source_specifier(operand: Operand) -> Specifier
    ensures { result ≡ source_specifier operand }
{
    Specifier {
        access: Access::Address,
        size: Size::Byte,
        operand,
        to: SOURCE_TEMP,
        place: DESTINATION_TEMP,
    }
}

fn destination_specifier(operand: Operand) -> Specifier
    ensures { result ≡ destination_specifier operand }
{
    Specifier {
        access: Access::Address,
        size: Size::Byte,
        operand,
        to: DESTINATION_TEMP,
        place: BYTE_TEMP,
    }
}

/// The program of the operands; what they add to the registers stands beside.
fn operands_of(alloc: Global, instr: &Instr) -> Result<(Vec<Micro>, Steps), WantOfMemory>
    ensures operands { IfOk result (λ front. (front.0.items ≡ operands_of instr.now) × (front.1 ≡ steps_of instr.now)) }
    ensures long { AreLongStrings instr.now }
{
    let (first, second, third) = (instr.operands[0], instr.operands[1], instr.operands[2]);
    let mut program = Vec::new(alloc);
    let mut steps = [0; 15];
    put_operand(&mut program, length_specifier(first), &mut steps)?;
    put_operand(&mut program, source_specifier(second), &mut steps)?;
    put_operand(&mut program, destination_specifier(third), &mut steps)?;
    Ok((program, steps))
}

/// The check of a string.
fn push_check(lines: &mut Vec<Line>, site: Site, temp: u8, write: bool) -> Result<(), AllocError>
    requires { temp ≤ 5 }
    ensures { OnOk result (lines.new.items ≡ lines.old.items ++ string_check site temp write) }
{
    lines.extend_from_slice(&[
        plain(copy(holder(temp), ADDRESS)),
        marked(PROBE, probing(site, 0, write)),
    ])
}

/// What the operands added to a register: a few bytes up or down.
fn step_word(number: u8, step: u32) -> AlphaInstr
    ensures { result ≡ step_word number step }
{
    if step < 0x8000_0000 {
        operate_by(OperateOp::Addl, number, (step % 0x100) as u8, number)
    } else {
        let less = 0u32.wrapping_sub(step);
        operate_by(OperateOp::Subl, number, (less % 0x100) as u8, number)
    }
}

fn push_step(words: &mut Vec<AlphaInstr>, number: u8, step: u32) -> Result<(), AllocError>
    ensures { OnOk result (words.new.items ≡ words.old.items ++ step_words number step) }
{
    if step != 0 {
        words.push(step_word(number, step))?;
    }
    Ok(())
}

fn set(register: u8, value: u8) -> AlphaInstr
    ensures { result ≡ set register value }
{
    operate_by(OperateOp::Bis, ZERO, value, register)
}

/// R1 and R3 are one beyond the strings, R0, R2, R4 and R5 are 0, and of the codes only Z is set.
fn moved_words() -> [AlphaInstr; 10]
    ensures { result ≡ moved_words }
{
    [
        operate(OperateOp::Addl, SOURCE, LENGTH, 1),
        operate(OperateOp::Addl, DESTINATION, LENGTH, 3),
        set(0, 0),
        set(2, 0),
        set(4, 0),
        set(5, 0),
        set(NEGATIVE, 0),
        set(IS_ZERO, 1),
        set(OVERFLOW, 0),
        set(CARRY, 0),
    ]
}

/// The registers and codes behind the instruction; the steps of R0 to R5 are lost.
fn behind_words(alloc: Global, steps: &Steps) -> Result<Vec<AlphaInstr>, AllocError>
    ensures { IfOk result (λ words. words.items ≡ behind_words steps.now) }
{
    let mut words = Vec::new(alloc);
    for done in 0..STEPPED {
        let number = FIRST_STEPPED + done as u8;
        push_step(&mut words, number, steps[number as usize])?;
    }
    words.extend_from_slice(&moved_words())?;
    Ok(words)
}

/// Upward where the destination isn't above the source, else downward, from the last byte on.
fn direction_words() -> [AlphaInstr; 8]
    ensures { result ≡ direction_words }
{
    [
        set(STRIDE, 1),
        operate(OperateOp::Cmpule, DESTINATION, SOURCE, BYTE),
        branch(BranchOp::Bne, BYTE, 5),
        operate_by(OperateOp::Subq, ZERO, 1, STRIDE),
        operate(OperateOp::Addq, SOURCE, LENGTH, SOURCE),
        operate_by(OperateOp::Subq, SOURCE, 1, SOURCE),
        operate(OperateOp::Addq, DESTINATION, LENGTH, DESTINATION),
        operate_by(OperateOp::Subq, DESTINATION, 1, DESTINATION),
    ]
}

/// A byte is read and written, and both addresses go on.
fn turn_words(alloc: Global, byte_word: bool) -> Result<Vec<AlphaInstr>, WantOfMemory>
    ensures words { IfOk result (λ words. words.items ≡ turn_words byte_word) }
    ensures few { IfOk result (λ words. length words.items ≤ 12) }
{
    let mut words = read_by(alloc, byte_word, SOURCE, 1, BYTE)?;
    let write = write_by(alloc, byte_word, DESTINATION, 1, BYTE)?;
    words.extend_from_slice(&write)?;
    words.extend_from_slice(&[
        operate(OperateOp::Addq, SOURCE, STRIDE, SOURCE),
        operate(OperateOp::Addq, DESTINATION, STRIDE, DESTINATION),
        operate_by(OperateOp::Subq, LENGTH, 1, LENGTH),
    ])?;
    Ok(words)
}

/// A turn, from its first word again while bytes are left.
fn loop_words(alloc: Global, byte_word: bool) -> Result<Vec<AlphaInstr>, WantOfMemory>
    ensures words { IfOk result (λ words. words.items ≡ loop_words byte_word) }
    ensures few { IfOk result (λ words. length words.items ≤ 13) }
{
    let mut words = turn_words(alloc, byte_word)?;
    let back = -(words.len() as i32) - 1;
    words.extend_from_slice(&[branch(BranchOp::Bne, LENGTH, back)])?;
    Ok(words)
}

/// The loop in its direction, round which a string of no bytes goes.
fn push_move(alloc: Global, lines: &mut Vec<Line>, byte_word: bool) -> Result<(), WantOfMemory>
    ensures { OnOk result (lines.new.items ≡ lines.old.items ++ map plain (move_words byte_word)) }
{
    let direction = direction_words();
    let turns = loop_words(alloc, byte_word)?;
    let over = direction.len() as i32 + turns.len() as i32;
    push_words(lines, &[branch(BranchOp::Beq, LENGTH, over)])?;
    push_words(lines, &direction)?;
    push_words(lines, &turns)?;
    Ok(())
}

/// The lines of the block.
fn string_lines(alloc: Global, site: Site, instr: &Instr) -> Result<Vec<Line>, WantOfMemory>
    requires operands { AreLongStrings instr.now → AllFitWords site.sources (operands_of instr.now) }
    requires narrow { is_narrow site.behind.v ≡ true }
    ensures lines { IfOk result (λ lines. lines.items ≡ string_lines site instr.now) }
    ensures ranged { IfOk result (λ lines. AllRanged (operands_of instr.now)) }
    ensures long { AreLongStrings instr.now }
{
    let (program, steps) = operands_of(alloc, instr)?;
    let behind = behind_words(alloc, &steps)?;
    let mut lines = program_lines(alloc, site, &[], &program)?;
    push_check(&mut lines, site, SOURCE_TEMP, false)?;
    push_check(&mut lines, site, DESTINATION_TEMP, true)?;
    push_words(&mut lines, &behind)?;
    push_move(alloc, &mut lines, site.byte_word)?;
    push_exit(&mut lines, site.after)?;
    Ok(lines)
}

#[tactic(auto, unfolding(micro_ops::specs::Sources::sources_of))]
fn string_site(instr: &Instr, before: Rules, byte_word: bool) -> Site
    ensures { result ≡ string_site instr.now before byte_word }
{
    Site {
        at: instr.at,
        after: instr.after,
        sources: sources_of(Operation::Long(LongOperation::MoveCharacters)),
        before,
        behind: Rules::READY,
        byte_word,
    }
}

fn marked_block(alloc: Global, site: Site, instr: &Instr) -> Result<Block, WantOfMemory>
    requires operands { AreLongStrings instr.now → AllFitWords site.sources (operands_of instr.now) }
    requires few { AreLongStrings instr.now → AllRanged (operands_of instr.now) → site.after < 2 ^ 32 → length (string_lines site instr.now) ≤ 256 }
    requires narrow { is_narrow site.behind.v ≡ true }
    ensures block { IfOk result (λ block. block ≡ block_of (with_first (point_of site) (string_lines site instr.now))) }
    ensures ranged { IfOk result (λ block. AllRanged (operands_of instr.now)) }
    ensures long { AreLongStrings instr.now }
    ensures after { site.after < 2 ^ 32 }
{
    let mut lines = string_lines(alloc, site, instr)?;
    mark_first(&mut lines, point_of(site));
    Ok(block_of(alloc, &lines)?)
}

/// The block of MOVC3. `before` are the rules of the codes before it; behind it all are ready. With `byte_word` the processor has
/// the byte-word extension.
pub fn string_block(
    alloc: Global,
    byte_word: bool,
    instr: &Instr,
    before: Rules,
) -> Result<Block, WantOfMemory>
    requires moves { IsStringMove instr.now }
    // It has a loop, and 1 to 256 words, which have encodings, and writes nothing that a boundary shows before its last check.
    ensures shape { IfOk result (λ block. IsBlockOf true instr.now.at block) }
    // Its exit leads behind the instruction.
    ensures exits { IfOk result (λ block. map (λ exit. exit.1) block.exits ≡ instr.now.after ∷ []) }
    // The codes at its first word are by the rules before the instruction.
    ensures first { IfOk result (BeginsBy before) }
    // So are those at its other words.
    ensures rules { IfOk result (λ block. All (HasRules before all_ready) block.points) }
    // It writes the registers of all codes.
    ensures written { IfOk result (λ block. codes_written block.words ≡ all) }
    // Wherever it stands, it does what the instruction means.
    ensures means { IfOk result (CompilesString instr.now before byte_word) }
    // It is a function of the arguments.
    ensures words { IfOk result (λ block. block ≡ string_block instr.now before byte_word) }
{
    piece_laws();
    marked_block(alloc, string_site(instr, before, byte_word), instr)
}
