// The block of a micro program, which is laid out beside others.
ghost use Rattle.std.specs.Prelude.{◌≡◌, IfOk, false, true};
ghost use Rattle.std.specs.List.{list_any};
ghost use Rattle.exception_records.specs.Codes.{all_ready};
ghost use Rattle.micro_ops.specs.Exits.{leaves_computed};
ghost use Rattle.micro_ops.specs.Sources.{is_written};
ghost use Rattle.block_law.specs.Blocks.{IsBlockOf};
ghost use Rattle.program_codegen.specs.Programs.{is_narrow};

use anyhow::{Result, bail, ensure};
use exception_records::{Block, CodeRule, Rules};
use flag_codegen::code_words;
use micro_ops::{CodeSource, Exit, Micro, fits, sources_of};
use program_codegen::block;
use std::alloc::Global;
use vax_form::{Flags, Instr, Operand, Size, operation_of};

/// The address of an instruction, and the one behind it.
#[derive(Clone, Copy)]
pub struct Site {
    pub at: u32,
    pub after: u32,
}

fn is_written(source: CodeSource) -> bool
    ensures { result ≡ is_written source }
{
    !matches!(source, CodeSource::Kept)
}

/// Whether V is not that of a sum or a difference of quadwords.
fn is_narrow(rule: CodeRule) -> bool
    ensures { result ≡ is_narrow rule }
{
    match rule {
        CodeRule::Add { size } | CodeRule::Sub { size } => !matches!(size, Size::Quad),
        _ => true,
    }
}

/// Whether it leaves to an address that it computes.
fn leaves_computed(operation: &Micro) -> bool
    ensures { result ≡ leaves_computed operation.now }
{
    matches!(operation, Micro::Leave(Exit::Computed(_)))
}

fn has_computed_exit(program: &[Micro]) -> bool
    ensures { result ≡ list_any leaves_computed program.now }
{
    program.iter().any(|operation| leaves_computed(operation))
}

fn are_ready(rules: Rules) -> bool
    ensures { result ≡ true → rules ≡ all_ready }
{
    matches!(
        rules,
        Rules {
            n: CodeRule::Ready,
            z: CodeRule::Ready,
            v: CodeRule::Ready,
            c: CodeRule::Ready,
        }
    )
}

/// The block of a program that fits, before which all codes are ready, where these are live behind it.
pub fn made(alloc: Global, site: Site, opcode: u8, program: &[Micro], live: Flags) -> Result<Block>
    ensures { IfOk result (IsBlockOf false site.at) }
{
    let Some(operation) = operation_of(opcode) else {
        bail!("a reserved opcode");
    };
    let sources = sources_of(operation);
    let instr = Instr {
        at: site.at,
        opcode,
        count: 0,
        operands: [Operand::Unused; 6],
        after: site.after,
    };
    let Ok((words, behind)) = code_words(alloc, &instr, live) else {
        bail!("want of memory");
    };
    ensure!(fits(sources, program), "it does not fit");
    ensure!(
        is_written(sources.nzv) || !is_written(sources.c),
        "C is written alone"
    );
    ensure!(is_narrow(behind.v), "V of quadwords");
    ensure!(
        are_ready(behind) || !has_computed_exit(program),
        "codes that are not ready"
    );
    match block(
        alloc,
        &instr,
        sources,
        program,
        &words,
        Rules::READY,
        behind,
        false,
    ) {
        Ok(block) => Ok(block),
        Err(_) => bail!("want of memory"),
    }
}
