// The block of a call: behind the pushes it enters the procedure.
ghost use Rattle.std.specs.Prelude.{◌≡◌, ◌++◌, ◌∷◌, ◌<◌, ◌≤◌, ◌^◌, [], false, true, All, IfOk, OnOk, length, map};
ghost use Rattle.vax_form.specs.Codes.{all};
ghost use Rattle.vax_form.specs.Targets.{behind_mask};
ghost use Rattle.exception_records.specs.Codes.{all_ready};
ghost use Rattle.block_law.specs.Blocks.{IsBlockOf};
ghost use Rattle.block_law.specs.Tidy.{codes_written};
ghost use Rattle.program_codegen.specs.CallPromises.{CompilesCall, IsFixedCall};
ghost use Rattle.program_codegen.specs.Calls.{call_block, call_lines, call_site, destination_of, end_of, entry_traps, entry_words, frame_program, front_program, list_program, steps_of};
ghost use Rattle.program_codegen.specs.Programs.{AllFitWords, AllRanged, is_narrow};
ghost use Rattle.program_codegen.specs.Promises.{BeginsBy, HasRules};
ghost use Rattle.program_codegen.specs.Words.{block_of, point_of, program_lines, with_first};

use crate::calls::{Call, FRAME_TEMP, call_at, front_program, list_program};
use crate::frames::{
    Pushed, align_frame, displacement, frame_of, push_checks, push_count, push_frame,
};
use crate::lines::{Line, block_of, mark_first, push_exit, push_words};
use crate::operations::program_lines;
use crate::points::{Site, point_of};
use alpha_encode::registers::{CARRY, IS_ZERO, NEGATIVE, OVERFLOW, STATUS, TEMPORARIES, ZERO};
use alpha_encode::{AlphaInstr, MemoryOp, OperateOp, memory, operate_by};
use exception_records::{Block, Rules};
use micro_ops::{Micro, sources_of};
use operand_programs::{Steps, piece_laws};
use std::alloc::{AllocError, Global};
use vax_form::{FP, Instr, LongOperation, Operation, Pages, SP, WantOfMemory};

const FRAME: u8 = TEMPORARIES + FRAME_TEMP;
/// T in R20.
const TRACE: u8 = 0x10;

/// FP and SP become the frame's place.
fn frame_program() -> [Micro; 2]
    ensures { result ≡ frame_program }
{
    [
        Micro::Commit {
            register: FP,
            from: FRAME_TEMP,
        },
        Micro::Commit {
            register: SP,
            from: FRAME_TEMP,
        },
    ]
}

/// DV and IV of a procedure.
fn entry_traps(mask: u16) -> u8
    ensures { result ≡ entry_traps mask }
{
    (mask / 0x8000 % 2) as u8 * 128 + (mask / 0x4000 % 2) as u8 * 32
}

/// N, Z, V and C are 0, and T is kept.
fn entry_words(mask: u16) -> [AlphaInstr; 6]
    ensures { result ≡ entry_words mask }
{
    [
        operate_by(OperateOp::Bis, ZERO, 0, NEGATIVE),
        operate_by(OperateOp::Bis, ZERO, 0, IS_ZERO),
        operate_by(OperateOp::Bis, ZERO, 0, OVERFLOW),
        operate_by(OperateOp::Bis, ZERO, 0, CARRY),
        operate_by(OperateOp::And, STATUS, TRACE, STATUS),
        operate_by(OperateOp::Bis, STATUS, entry_traps(mask), STATUS),
    ]
}

/// The words of operations that leave no codes.
fn push_program(
    alloc: Global,
    lines: &mut Vec<Line>,
    site: Site,
    program: &[Micro],
) -> Result<(), WantOfMemory>
    requires words { AllFitWords site.sources program.now }
    requires narrow { is_narrow site.behind.v ≡ true }
    ensures lines { OnOk result (lines.new.items ≡ lines.old.items ++ program_lines site [] program.now) }
    ensures ranged { OnOk result (AllRanged program.now) }
{
    let words = program_lines(alloc, site, &[], program)?;
    lines.extend_from_slice(&words)?;
    Ok(())
}

/// The words behind the pushes of a frame.
fn push_end(
    alloc: Global,
    lines: &mut Vec<Line>,
    site: Site,
    call: Call,
    steps: &Steps,
    frame: &[Pushed],
) -> Result<(), WantOfMemory>
    requires words { AllFitWords site.sources (list_program call.stack steps.now) }
    requires narrow { is_narrow site.behind.v ≡ true }
    requires few { length frame.now ≤ 17 }
    ensures lines { OnOk result (lines.new.items ≡ lines.old.items ++ end_of site call steps.now (length frame.now)) }
    ensures ranged { OnOk result (AllRanged (list_program call.stack steps.now)) }
{
    let list = list_program(alloc, call.stack, steps)?;
    push_program(alloc, lines, site, &list)?;
    let below = displacement(frame.len() as u8);
    push_words(lines, &[memory(MemoryOp::Lda, FRAME, FRAME, below)])?;
    push_program(alloc, lines, site, &frame_program())?;
    push_words(lines, &entry_words(call.mask))?;
    push_exit(lines, call.entry)?;
    Ok(())
}

/// The lines of a call.
fn call_lines(alloc: Global, site: Site, call: Call) -> Result<Vec<Line>, WantOfMemory>
    requires front { AllFitWords site.sources (front_program call) }
    requires list { AllFitWords site.sources (list_program call.stack (steps_of call)) }
    requires narrow { is_narrow site.behind.v ≡ true }
    ensures lines { IfOk result (λ lines. lines.items ≡ call_lines site call) }
    ensures front { IfOk result (λ lines. AllRanged (front_program call)) }
    ensures list { IfOk result (λ lines. AllRanged (list_program call.stack (steps_of call))) }
{
    let (front, steps) = front_program(alloc, call)?;
    let frame = frame_of(alloc, call.mask)?;
    let mut lines = program_lines(alloc, site, &[], &front)?;
    push_words(&mut lines, &[align_frame()])?;
    push_checks(&mut lines, site, &frame)?;
    push_count(alloc, &mut lines, site, call.stack)?;
    push_frame(&mut lines, site.after, call, &steps, &frame)?;
    push_end(alloc, &mut lines, site, call, &steps, &frame)?;
    Ok(lines)
}

#[tactic(auto, unfolding(micro_ops::specs::Sources::sources_of))]
fn call_site(instr: &Instr, before: Rules, byte_word: bool) -> Site
    ensures { result ≡ call_site instr.now before byte_word }
{
    Site {
        at: instr.at,
        after: instr.after,
        sources: sources_of(Operation::Long(LongOperation::CallStack)),
        before,
        behind: Rules::READY,
        byte_word,
    }
}

fn call_block(alloc: Global, site: Site, call: Call) -> Result<Block, WantOfMemory>
    requires front { AllFitWords site.sources (front_program call) }
    requires list { AllFitWords site.sources (list_program call.stack (steps_of call)) }
    requires few { AllRanged (front_program call) → AllRanged (list_program call.stack (steps_of call)) → site.after < 2 ^ 32 → length (call_lines site call) ≤ 256 }
    requires narrow { is_narrow site.behind.v ≡ true }
    ensures block { IfOk result (λ block. block ≡ block_of (with_first (point_of site) (call_lines site call))) }
    ensures ranged { IfOk result (λ block. AllRanged (front_program call) × AllRanged (list_program call.stack (steps_of call))) }
    ensures after { site.after < 2 ^ 32 }
{
    let mut lines = call_lines(alloc, site, call)?;
    mark_first(&mut lines, point_of(site));
    Ok(block_of(alloc, &lines)?)
}

/// The block of a call, CALLS or CALLG, whose destination the code fixes, neither deferred nor indexed, and at whose destination an
/// entry mask stands. `before` are the rules of the codes before it; behind it all are ready. With `byte_word` the processor has
/// the byte-word extension.
pub fn long_block(
    alloc: Global,
    byte_word: bool,
    instr: &Instr,
    pages: &Pages,
    before: Rules,
) -> Result<Block, WantOfMemory>
    requires fixed { IsFixedCall instr.now pages.now }
    // It has 1 to 256 words, which have encodings, and writes nothing that a boundary shows before its last fault.
    ensures shape { IfOk result (λ block. IsBlockOf false instr.now.at block) }
    // Its exit leads behind the entry mask.
    ensures exits { IfOk result (λ block. map (λ exit. exit.1) block.exits ≡ behind_mask (destination_of instr.now) ∷ []) }
    // The codes at its first word are by the rules before the instruction.
    ensures first { IfOk result (BeginsBy before) }
    // So are those at its other words.
    ensures rules { IfOk result (λ block. All (HasRules before all_ready) block.points) }
    // It writes the registers of all codes.
    ensures written { IfOk result (λ block. codes_written block.words ≡ all) }
    // Wherever it stands, it does what the call means.
    ensures means { IfOk result (CompilesCall instr.now pages.now before byte_word) }
    // It is a function of the arguments.
    ensures words { IfOk result (λ block. block ≡ call_block instr.now pages.now before byte_word) }
{
    piece_laws();
    let call = call_at(instr, pages);
    call_block(alloc, call_site(instr, before, byte_word), call)
}
