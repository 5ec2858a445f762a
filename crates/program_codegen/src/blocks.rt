// The block of a micro program.
ghost use Rattle.std.specs.Prelude.{◌≡◌, ◌<◌, ◌^◌, ◌≤◌, All, IfOk, false, true, map, length};
ghost use Rattle.alpha_encode.specs.Words.{IsEncodable};
ghost use Rattle.micro_ops.specs.Fits.{fits};
ghost use Rattle.block_law.specs.Blocks.{IsBlockOf};
ghost use Rattle.block_law.specs.CodeWords.{LeavesCodes};
ghost use Rattle.block_law.specs.Tidy.{codes_written};
ghost use Rattle.micro_ops.specs.Exits.{addresses_of};
ghost use Rattle.program_codegen.specs.Blocks.{block_lines, chosen_lines, program_block};
ghost use Rattle.program_codegen.specs.Words.{block_of};
ghost use Rattle.program_codegen.specs.Programs.{AllFitWords, RangedToLeave, ReadsReady, LeavesReady, KeepsTogether, is_narrow};
ghost use Rattle.program_codegen.specs.Promises.{BeginsBy, HasRules, CompilesProgram};

use crate::direct::direct_lines;
use crate::lines::{Line, block_of, mark_first};
use crate::operations::program_lines;
use crate::points::{Site, point_of};
use alpha_encode::AlphaInstr;
use exception_records::{Block, Rules};
use micro_ops::{CodeSources, Micro};
use std::alloc::Global;
use vax_form::{Instr, WantOfMemory};

/// The lines of a program: operands are used where they stand, if they can be.
fn chosen_lines(
    alloc: Global,
    site: Site,
    codes: &[AlphaInstr],
    program: &[Micro],
) -> Result<Vec<Line>, WantOfMemory>
    requires words { AllFitWords site.sources program.now }
    requires narrow { is_narrow site.behind.v ≡ true }
    ensures lines { IfOk result (λ lines. lines.items ≡ chosen_lines site codes.now program.now) }
    ensures ranged { IfOk result (λ lines. RangedToLeave program.now) }
{
    match direct_lines(alloc, site, codes, program)? {
        Some(lines) => Ok(lines),
        None => program_lines(alloc, site, codes, program),
    }
}

fn block_in(
    alloc: Global,
    site: Site,
    program: &[Micro],
    codes: &[AlphaInstr],
) -> Result<Block, WantOfMemory>
    requires words { AllFitWords site.sources program.now }
    requires few { RangedToLeave program.now → site.after < 2 ^ 32 → length (block_lines site codes.now program.now) ≤ 256 }
    requires narrow { is_narrow site.behind.v ≡ true }
    ensures block { IfOk result (λ block. block ≡ block_of (block_lines site codes.now program.now)) }
    ensures ranged { IfOk result (λ block. RangedToLeave program.now) }
    ensures after { site.after < 2 ^ 32 }
{
    let mut lines = chosen_lines(alloc, site, codes, program)?;
    mark_first(&mut lines, point_of(site));
    Ok(block_of(alloc, &lines)?)
}

/// The block of an instruction that does what its program means. `codes` are the words that leave its condition codes, as
/// `sources` say where they come from; `before` are the rules of the codes before the instruction, `behind` those behind it.
/// With `byte_word` the processor has the byte-word extension: a byte, and a word at an even address, are loaded and stored
/// as a whole.
pub fn block(
    alloc: Global,
    instr: &Instr,
    sources: CodeSources,
    program: &[Micro],
    codes: &[AlphaInstr],
    before: Rules,
    behind: Rules,
    byte_word: bool,
) -> Result<Block, WantOfMemory>
    requires fits { fits sources program.now ≡ true }
    requires codes { LeavesCodes sources before behind codes.now }
    requires encodable { All IsEncodable codes.now }
    requires reads { ReadsReady before program.now }
    requires leaves { LeavesReady behind program.now }
    requires together { KeepsTogether sources }
    requires narrow { is_narrow behind.v ≡ true }
    // It has 1 to 256 words, which have encodings, and writes nothing that a boundary shows before its last fault.
    ensures shape { IfOk result (λ block. IsBlockOf false instr.now.at block) }
    // Its exits lead where the program leaves to.
    ensures exits { IfOk result (λ block. map (λ exit. exit.1) block.exits ≡ addresses_of instr.now.after program.now) }
    // The codes at its first word are by the rules before the instruction.
    ensures first { IfOk result (BeginsBy before) }
    // The codes at its words are by the rules before the instruction, and where it is done by those behind it.
    ensures rules { IfOk result (λ block. All (HasRules before behind) block.points) }
    // Of the registers of the codes it writes those that the words for the codes write.
    ensures written { IfOk result (λ block. codes_written block.words ≡ codes_written codes.now) }
    // Wherever it stands, it does what the program means.
    ensures means { IfOk result (CompilesProgram instr.now sources program.now before behind byte_word) }
    // It is a function of the arguments.
    ensures words { IfOk result (λ block. block ≡ program_block instr.now sources program.now codes.now before behind byte_word) }
{
    let site = Site {
        at: instr.at,
        after: instr.after,
        sources,
        before,
        behind,
        byte_word,
    };
    block_in(alloc, site, program, codes)
}
