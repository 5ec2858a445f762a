// The blocks of the instructions of a list.
ghost use Rattle.std.specs.Prelude.{◌≡◌, All, IfOk, Some, false, true};
ghost use Rattle.vax_form.specs.Grammar.{IsSpelled};
ghost use Rattle.vax_form.specs.Row.{class_at};
ghost use Rattle.vax_form.specs.declared.row.Class.TheVariants.{Translated};
ghost use Rattle.flow_discovery.specs.Mapped.{has_block, has_call_block, has_string_block};
ghost use Rattle.code_runs.specs.Codes.{instruction_codes};
ghost use Rattle.code_runs.specs.Runs.{AreInOrder};
ghost use Rattle.micro_lower.specs.Lowering.{IsLowered, WritesOperand};
ghost use Rattle.micro_lower.specs.Rows.{program_for};
ghost use Rattle.translate.specs.Compiled.{AreCompiled, AreReadyFor, IsCompiled, has_byte_word};

use code_runs::{InstrCodes, instruction_codes};
use exception_records::Block;
use flag_codegen::code_words;
use flow_discovery::{has_call_block, has_string_block};
use image_meaning::Target;
use micro_lower::lower;
use micro_ops::{Micro, sources_of};
use program_codegen::{block, long_block, string_block};
use std::alloc::Global;
use vax_form::{Instr, Pages, WantOfMemory, operation_of};

/// The program of an instruction.
fn program(alloc: Global, instr: &Instr) -> Result<Vec<Micro>, WantOfMemory>
    requires { IsSpelled instr.now }
    ensures lowered { IfOk result (λ program. IsLowered instr.now program.items) }
    ensures value { IfOk result (λ program. program_for instr.now ≡ Some program.items) }
    ensures written { IfOk result (λ program. WritesOperand instr.now program.items) }
{
    lower(alloc, instr).map_err(|_| WantOfMemory)
}

/// Whether the processors have the byte-word extension.
fn has_byte_word(target: Target) -> bool
    ensures { result ≡ has_byte_word target }
{
    match target {
        Target::Original => false,
        Target::ByteWord => true,
    }
}

/// The block of an instruction's program, by the codes that it has along its run.
fn short_block(
    alloc: Global,
    pages: &Pages,
    instr: &Instr,
    codes: &InstrCodes,
    target: Target,
) -> Result<(u32, Block), WantOfMemory>
    requires spelled { IsSpelled instr.now }
    requires translated { class_at instr.now.opcode ≡ Translated }
    requires short { has_call_block instr.now pages.now ≡ false }
    requires still { has_string_block instr.now ≡ false }
    requires ready { AreReadyFor instr.now codes.now }
    ensures { IfOk result (IsCompiled target pages.now instr.now codes.now) }
{
    let Some(operation) = operation_of(instr.opcode) else {
        unreachable!()
    };
    let program = program(alloc, instr)?;
    let (words, _) = code_words(alloc, instr, codes.live)?;
    let sources = sources_of(operation);
    let block = block(
        alloc,
        instr,
        sources,
        &program,
        &words,
        codes.before,
        codes.behind,
        has_byte_word(target),
    )?;
    Ok((instr.at, block))
}

/// The block of a call.
fn call_block(
    alloc: Global,
    pages: &Pages,
    instr: &Instr,
    codes: &InstrCodes,
    target: Target,
) -> Result<(u32, Block), WantOfMemory>
    requires spelled { IsSpelled instr.now }
    requires call { has_call_block instr.now pages.now ≡ true }
    requires ready { AreReadyFor instr.now codes.now }
    ensures { IfOk result (IsCompiled target pages.now instr.now codes.now) }
{
    let block = long_block(alloc, has_byte_word(target), instr, pages, codes.before)?;
    Ok((instr.at, block))
}

/// The block of MOVC3.
fn move_block(
    alloc: Global,
    pages: &Pages,
    instr: &Instr,
    codes: &InstrCodes,
    target: Target,
) -> Result<(u32, Block), WantOfMemory>
    requires spelled { IsSpelled instr.now }
    requires no_call { has_call_block instr.now pages.now ≡ false }
    requires moves { has_string_block instr.now ≡ true }
    requires ready { AreReadyFor instr.now codes.now }
    ensures { IfOk result (IsCompiled target pages.now instr.now codes.now) }
{
    let block = string_block(alloc, has_byte_word(target), instr, codes.before)?;
    Ok((instr.at, block))
}

/// The block of an instruction, with its address, by the codes that it has along its run.
#[tactic(auto, using(crate::proofs::Calls::short_translated))]
fn compiled_instr(
    alloc: Global,
    pages: &Pages,
    instr: &Instr,
    codes: &InstrCodes,
    target: Target,
) -> Result<(u32, Block), WantOfMemory>
    requires spelled { IsSpelled instr.now }
    requires built { has_block instr.now pages.now ≡ true }
    requires ready { AreReadyFor instr.now codes.now }
    ensures { IfOk result (IsCompiled target pages.now instr.now codes.now) }
{
    if has_call_block(instr, pages) {
        call_block(alloc, pages, instr, codes, target)
    } else if has_string_block(instr) {
        move_block(alloc, pages, instr, codes, target)
    } else {
        short_block(alloc, pages, instr, codes, target)
    }
}

fn compiled_all(
    alloc: Global,
    pages: &Pages,
    instrs: &[Instr],
    codes: &[InstrCodes],
    target: Target,
) -> Result<Vec<(u32, Block)>, WantOfMemory>
    requires order { AreInOrder instrs.now }
    requires spelled { All IsSpelled instrs.now }
    requires built { All (λ instr. has_block instr pages.now ≡ true) instrs.now }
    requires codes { codes.now ≡ instruction_codes instrs.now }
    ensures { IfOk result (λ blocks. AreCompiled target pages.now instrs.now blocks.items) }
{
    let mut blocks = Vec::new(alloc);
    for (place, instr) in instrs.iter().enumerate() {
        let block = compiled_instr(alloc, pages, instr, &codes[place], target)?;
        blocks.push(block).map_err(|_| WantOfMemory)?;
    }
    Ok(blocks)
}

/// The block of each instruction, with its address.
pub(crate) fn compiled(
    alloc: Global,
    pages: &Pages,
    instrs: &[Instr],
    target: Target,
) -> Result<Vec<(u32, Block)>, WantOfMemory>
    requires order { AreInOrder instrs.now }
    requires spelled { All IsSpelled instrs.now }
    requires built { All (λ instr. has_block instr pages.now ≡ true) instrs.now }
    ensures { IfOk result (λ blocks. AreCompiled target pages.now instrs.now blocks.items) }
{
    let codes = instruction_codes(alloc, instrs)?;
    compiled_all(alloc, pages, instrs, &codes, target)
}
