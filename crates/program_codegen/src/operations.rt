// The words of each operation of a program.
ghost use Rattle.std.specs.Prelude.{◌≡◌, ◌++◌, ◌∷◌, [], OnOk, IfOk, map, true};
ghost use Rattle.vt_words.specs.Quad.{IsCount};
ghost use Rattle.byte_sequences.specs.Instructions.{IsArgument};
ghost use Rattle.program_codegen.specs.Words.{plain, read_by, write_by, lines_of, program_lines};
ghost use Rattle.program_codegen.specs.Programs.{IsRanged, AllRanged, HasWords, AllFitWords, is_narrow};

use crate::leaving::push_leaving;
use crate::lines::{Line, RAISE, copy, holder, marked, plain, push_words};
use crate::points::{RESERVED_OPERAND, Site, probing, raising};
use alpha_encode::registers::{ADDRESS, STATUS};
use alpha_encode::{AlphaInstr, BranchOp, OperateOp, branch, operate_by, pal};
use byte_sequences::{bw_read_words, bw_write_words, locked_words, read_words, write_words};
use compute_sequences::compute_words;
use micro_ops::{Micro, is_left_out};
use std::alloc::Global;
use vax_form::WantOfMemory;

/// Bits 7:4 of the processor status word.
const STATUS_BITS: u8 = 0xF0;

pub(crate) const PROBE: AlphaInstr = AlphaInstr::Pal(pal::PROBE);

fn push_line(lines: &mut Vec<Line>, line: Line) -> Result<(), WantOfMemory>
    ensures { OnOk result (lines.new.items ≡ lines.old.items ++ (line ∷ [])) }
{
    lines.push(line).map_err(|_| WantOfMemory)?;
    Ok(())
}

pub(crate) fn push_two(lines: &mut Vec<Line>, first: Line, second: Line) -> Result<(), WantOfMemory>
    ensures { OnOk result (lines.new.items ≡ lines.old.items ++ (first ∷ second ∷ [])) }
{
    lines.extend_from_slice(&[first, second])?;
    Ok(())
}

pub(crate) fn read_by(
    alloc: Global,
    byte_word: bool,
    place: u8,
    count: u8,
    to: u8,
) -> Result<Vec<AlphaInstr>, WantOfMemory>
    requires place { IsArgument place }
    requires to { IsArgument to }
    requires count { IsCount count }
    ensures { IfOk result (λ words. words.items ≡ read_by byte_word place count to) }
{
    if byte_word {
        bw_read_words(alloc, place, count, to)
    } else {
        read_words(alloc, place, count, to)
    }
}

pub(crate) fn write_by(
    alloc: Global,
    byte_word: bool,
    place: u8,
    count: u8,
    from: u8,
) -> Result<Vec<AlphaInstr>, WantOfMemory>
    requires place { IsArgument place }
    requires from { IsArgument from }
    requires count { IsCount count }
    ensures { IfOk result (λ words. words.items ≡ write_by byte_word place count from) }
{
    if byte_word {
        bw_write_words(alloc, place, count, from)
    } else {
        write_words(alloc, place, count, from)
    }
}

/// The words of an operation, before those behind it. A computation that is left out has none: those that leave the codes
/// stand in for it.
fn push_operation(
    alloc: Global,
    lines: &mut Vec<Line>,
    site: Site,
    codes: &[AlphaInstr],
    operation: Micro,
    behind: &[Micro],
) -> Result<(), WantOfMemory>
    requires words { HasWords site.sources operation behind.now }
    requires narrow { is_narrow site.behind.v ≡ true }
    ensures { OnOk result (lines.new.items ≡ lines.old.items ++ lines_of site codes.now operation behind.now) }
{
    match operation {
        Micro::Compute { to, op, size, a, b } => {
            if is_left_out(site.sources, operation, behind) {
                return Ok(());
            }
            let words = compute_words(alloc, op, size, a, b, holder(to))?;
            push_words(lines, &words)?;
            Ok(())
        }
        Micro::Probe {
            place,
            count,
            write,
        } => push_two(
            lines,
            plain(copy(holder(place), ADDRESS)),
            marked(PROBE, probing(site, count, write)),
        ),
        Micro::Refuse { when } => push_two(
            lines,
            plain(branch(BranchOp::Beq, holder(when), 1)),
            marked(RAISE, raising(site, RESERVED_OPERAND)),
        ),
        Micro::Read { to, place, count } => {
            let words = read_by(alloc, site.byte_word, holder(place), count, holder(to))?;
            push_words(lines, &words)?;
            Ok(())
        }
        Micro::Write { place, count, from } => {
            let words = write_by(alloc, site.byte_word, holder(place), count, holder(from))?;
            push_words(lines, &words)?;
            Ok(())
        }
        Micro::Locked {
            to,
            place,
            kind,
            from,
        } => {
            let words = locked_words(alloc, holder(place), kind, holder(from), holder(to))?;
            push_words(lines, &words)?;
            Ok(())
        }
        Micro::Commit { register, from } => {
            push_line(
                lines,
                plain(operate_by(OperateOp::Addl, holder(from), 0, register)),
            )
        }
        Micro::Codes { .. } => Ok(()),
        Micro::SetPsw { from } => push_line(
            lines,
            plain(operate_by(OperateOp::And, holder(from), STATUS_BITS, STATUS)),
        ),
        Micro::Leave(exit) => push_leaving(alloc, lines, site, codes, exit),
    }
}

/// The same; what is asked of the operation may rest on the types of its numbers.
fn push_next(
    alloc: Global,
    lines: &mut Vec<Line>,
    site: Site,
    codes: &[AlphaInstr],
    operation: Micro,
    behind: &[Micro],
) -> Result<(), WantOfMemory>
    requires words { IsRanged operation → HasWords site.sources operation behind.now }
    requires narrow { is_narrow site.behind.v ≡ true }
    ensures lines { OnOk result (lines.new.items ≡ lines.old.items ++ lines_of site codes.now operation behind.now) }
    ensures ranged { IsRanged operation }
{
    push_operation(alloc, lines, site, codes, operation, behind)
}

/// The words of a program.
pub(crate) fn program_lines(
    alloc: Global,
    site: Site,
    codes: &[AlphaInstr],
    program: &[Micro],
) -> Result<Vec<Line>, WantOfMemory>
    requires words { AllFitWords site.sources program.now }
    requires narrow { is_narrow site.behind.v ≡ true }
    ensures lines { IfOk result (λ lines. lines.items ≡ program_lines site codes.now program.now) }
    ensures ranged { IfOk result (λ lines. AllRanged program.now) }
{
    let mut lines = Vec::new(alloc);
    for i in 0..program.len() {
        push_next(
            alloc,
            &mut lines,
            site,
            codes,
            program[i],
            &program[i + 1..],
        )?;
    }
    Ok(lines)
}
