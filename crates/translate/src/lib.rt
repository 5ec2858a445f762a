//! The translator: the instructions of an image that can be reached, as far as they have blocks, become Alpha code that
//! does what they mean.
//!
//! Each instruction is compiled into a block of its own, and the blocks are laid out in the order of their addresses. Along
//! a run of instructions condition codes are made only where they are live.
#![tactic(auto)]

mod blocks;
mod laws;
mod refusal;

ghost use Rattle.std.specs.Prelude.{◌≡◌, ◌≤◌, ◌<◌, ◌^◌, All, IfErr, IfOk, length, map, true};
ghost use Rattle.std.specs.List.{filter};
ghost use Rattle.flow_discovery.specs.Starts.{starts};
ghost use Rattle.block_law.specs.Translations.{Meets};
ghost use Rattle.image_meaning.specs.Meant.{image_meaning};
ghost use Rattle.image_meaning.specs.Permits.{any_permit, permit_of};
ghost use Rattle.branch_layout.specs.Layouts.{layout};
ghost use Rattle.code_runs.specs.Runs.{AreInOrder};
ghost use Rattle.translate.specs.Compiled.{AreCompiled, AreFound, AreLaidOut, CanBeLaid, InOrder, IsLaidOut, IsTranslation, addresses};
ghost use Rattle.flow_discovery.specs.Mapped.{has_block};
ghost use Rattle.translate.specs.Mapped.{HasMapped};
ghost use Rattle.translate.specs.Refusal.{AreFew, IsRefused};

use crate::blocks::compiled;
use branch_layout::lay_out;
use exception_records::Block;
use flow_discovery::{has_block, reach};
use image_file::Image;
pub use image_meaning::Target;
use laws::pages_law;
pub use laws::{ready_law, translation_law};
pub use refusal::{Numbers, TranslateRefusal};
use std::alloc::Global;
use system_model::Translation;
use vax_form::{Instr, Pages, WantOfMemory};

/// The translation of blocks, in the order of their addresses.
fn laid_out(alloc: Global, blocks: &[(u32, Block)]) -> Result<Translation, WantOfMemory>
    requires { CanBeLaid blocks.now }
    ensures { IfOk result (IsLaidOut blocks.now) }
{
    let (words, map, points) = lay_out(alloc, blocks)?;
    let Ok(mut points) = exception_records::build(points) else {
        unreachable!()
    };
    points.prepare(alloc)?;
    let Ok(map) = address_map::build(alloc, &map) else {
        return Err(WantOfMemory);
    };
    Ok(Translation { words, map, points })
}

/// The translation of instructions of an image, in the order of their addresses, of which each has a block.
fn translate_instrs(
    alloc: Global,
    pages: &Pages,
    instrs: &[Instr],
    target: Target,
) -> Result<Translation, WantOfMemory>
    requires few { length instrs.now ≤ 32768 }
    requires longwords { All (λ instr. instr.at < 2 ^ 32) instrs.now }
    requires rising { InOrder instrs.now }
    requires found { AreFound pages.now instrs.now }
    requires built { All (λ instr. has_block instr pages.now ≡ true) instrs.now }
    ensures meets { IfOk result (Meets (image_meaning pages.now) (permit_of target pages.now)) }
    ensures mapped { IfOk result (λ code. map (λ pair. pair.0) code.map ≡ addresses instrs.now) }
    ensures blocks { IfOk result (AreLaidOut target pages.now instrs.now) }
{
    pages_law(pages);
    let blocks = compiled(alloc, pages, instrs, target)?;
    laid_out(alloc, &blocks)
}

// Drops those that have no block.
fn keep_built(instrs: &mut Vec<Instr>, pages: &Pages)
    ensures { instrs.new.items ≡ filter (λ instr. has_block instr pages.now) instrs.old.items }
{
    instrs.retain(|instr| has_block(instr, pages));
}

/// The translation of an image for the processors of a target, as far as its instructions can be reached from its threads,
/// its entries and these hints, and have blocks.
pub fn translate(
    alloc: Global,
    image: &Image,
    hints: &[u32],
    target: Target,
) -> Result<Translation, TranslateRefusal>
    // Each mapped instruction has its block, which does what the instruction means, by accesses that these processors have.
    ensures meets { IfOk result (Meets (image_meaning image.now.pages) (permit_of target image.now.pages)) }
    // So it does what it may on any.
    ensures any { IfOk result (Meets (image_meaning image.now.pages) (any_permit image.now.pages)) }
    // Mapped are just those of the reached instructions that have a block.
    ensures mapped { IfOk result (HasMapped image.now.pages (starts image.now hints.now)) }
    // Each block is the instruction's, by the codes along its run.
    ensures blocks { IfOk result (IsTranslation target image.now.pages (starts image.now hints.now)) }
    // An image is refused exactly where too many instructions can be reached.
    ensures few { IfOk result (λ _. AreFew image.now.pages (starts image.now hints.now)) }
    ensures refused { IfErr result (IsRefused image.now.pages (starts image.now hints.now)) }
{
    let mut instrs = reach(alloc, image, hints)?;
    keep_built(&mut instrs, &image.pages);
    Ok(translate_instrs(alloc, &image.pages, &instrs, target)?)
}
