// The condition codes of each instruction of a list.
ghost use Rattle.std.specs.Prelude.{◌≡◌, ◌<◌, IfOk, IfSome, ℕ, length, slice_index_or};
ghost use Rattle.vax_form.specs.Codes.{none};
ghost use Rattle.cc_liveness.specs.Uses.{use_of};
ghost use Rattle.exception_records.specs.Codes.{all_ready};
ghost use Rattle.code_runs.specs.Runs.{AreInOrder, joined_to};
ghost use Rattle.code_runs.specs.Entrances.{AreEntrances};

use crate::entrances::{Entrance, entrances, place_of};
use crate::rules::rules_behind;
use cc_liveness::{CodeUse, code_use, live_behind, wanted};
use exception_records::Rules;
use micro_ops::{CodeSource, CodeSources, sources_of};
use std::alloc::{AllocError, Global};
use vax_form::{Flags, Instr, WantOfMemory, operation_of};

/// The condition codes of an instruction: those that are live behind it, and the rules by which they are told before it and
/// behind it.
#[derive(Clone, Copy, Debug, PartialEq, Eq)]
pub struct InstrCodes {
    pub live: Flags,
    pub before: Rules,
    pub behind: Rules,
}

ghost use Rattle.code_runs.specs.Codes.{AreCodes, code_sources, codes_at, instruction_codes, joined_behind, live_at, no_codes};

#[tactic(auto, unfolding(cc_liveness::specs::Uses::use_of))]
fn use_of(instr: &Instr) -> CodeUse
    ensures { result ≡ use_of instr.now }
{
    match operation_of(instr.opcode) {
        Some(operation) => code_use(operation),
        None => CodeUse {
            reads: Flags::NONE,
            writes: Flags::NONE,
            ends: false,
        },
    }
}

/// Where the codes that an instruction writes come from; one without an operation writes none.
#[tactic(auto, unfolding(crate::specs::Codes::code_sources))]
pub fn code_sources(instr: &Instr) -> CodeSources
    ensures { result ≡ code_sources instr.now }
{
    match operation_of(instr.opcode) {
        Some(operation) => sources_of(operation),
        None => CodeSources {
            nzv: CodeSource::Kept,
            c: CodeSource::Kept,
        },
    }
}

/// The place of the instruction to which the one at a place is joined.
fn joined_to(instrs: &[Instr], entrances: &[Entrance], place: usize) -> Option<usize>
    requires order { AreInOrder instrs.now }
    requires entrances { AreEntrances instrs.now instrs.now entrances.now }
    requires within { place < length instrs.now }
    ensures value { result ≡ joined_to instrs.now place }
    ensures earlier { IfSome result (λ before. before < place) }
{
    entrances[place].joined()
}

/// The place of the instruction that is joined to the one at a place.
fn joined_behind(instrs: &[Instr], entrances: &[Entrance], place: usize) -> Option<usize>
    requires order { AreInOrder instrs.now }
    requires entrances { AreEntrances instrs.now instrs.now entrances.now }
    requires within { place < length instrs.now }
    ensures value { result ≡ joined_behind instrs.now place }
    ensures later { IfSome result (λ next. place < next) }
    ensures within { IfSome result (λ next. next < length instrs.now) }
{
    let next = place_of(instrs, instrs[place].after)?;
    match joined_to(instrs, entrances, next) {
        Some(before) if before == place => Some(next),
        _ => None,
    }
}

/// The codes that are live behind the instruction at a place, from those that are live behind those at higher places.
fn live_at(instrs: &[Instr], entrances: &[Entrance], live: &[Flags], place: usize) -> Flags
    requires order { AreInOrder instrs.now }
    requires entrances { AreEntrances instrs.now instrs.now entrances.now }
    requires within { place < length instrs.now }
    requires count { length live.now ≡ length instrs.now }
    requires later { (next : ℕ) → place < next → next < length instrs.now → slice_index_or live.now next none ≡ live_at instrs.now next }
    ensures { result ≡ live_at instrs.now place }
{
    let wanted = match joined_behind(instrs, entrances, place) {
        Some(next) => wanted(&use_of(&instrs[next]), live[next]),
        None => Flags::ALL,
    };
    live_behind(&use_of(&instrs[place]), wanted)
}

/// The codes that are live behind each instruction, found from the last to the first.
fn live_codes(
    alloc: Global,
    instrs: &[Instr],
    entrances: &[Entrance],
) -> Result<Vec<Flags>, AllocError>
    requires order { AreInOrder instrs.now }
    requires entrances { AreEntrances instrs.now instrs.now entrances.now }
    ensures count { IfOk result (λ live. length live.items ≡ length instrs.now) }
    ensures each { IfOk result (λ live. (place : ℕ) → place < length instrs.now → slice_index_or live.items place none ≡ live_at instrs.now place) }
{
    let mut live = vec![in alloc; Flags::NONE; instrs.len()]?;
    for place in (0..instrs.len()).rev() {
        live[place] = live_at(instrs, entrances, &live, place);
    }
    Ok(live)
}

/// The codes of the instruction at a place, from those at lower places.
fn codes_at(
    instrs: &[Instr],
    entrances: &[Entrance],
    live: Flags,
    earlier: &[InstrCodes],
    place: usize,
) -> InstrCodes
    requires order { AreInOrder instrs.now }
    requires entrances { AreEntrances instrs.now instrs.now entrances.now }
    requires within { place < length instrs.now }
    requires live { live ≡ live_at instrs.now place }
    requires count { length earlier.now ≡ place }
    requires earlier { (before : ℕ) → before < place → slice_index_or earlier.now before no_codes ≡ codes_at instrs.now before }
    ensures { result ≡ codes_at instrs.now place }
{
    let before = match joined_to(instrs, entrances, place) {
        Some(before) => earlier[before].behind,
        None => Rules::READY,
    };
    let behind = rules_behind(code_sources(&instrs[place]), live, before);
    InstrCodes {
        live,
        before,
        behind,
    }
}

/// The condition codes of each instruction of a list, along the run that it is in.
pub fn instruction_codes(alloc: Global, instrs: &[Instr]) -> Result<Vec<InstrCodes>, WantOfMemory>
    requires { AreInOrder instrs.now }
    // Along each run its codes.
    ensures runs { IfOk result (λ codes. AreCodes instrs.now codes.items) }
    // They are a function of the instructions.
    ensures value { IfOk result (λ codes. codes.items ≡ instruction_codes instrs.now) }
{
    let entrances = entrances(alloc, instrs)?;
    let live = live_codes(alloc, instrs, &entrances)?;
    let mut codes = Vec::new(alloc);
    for (place, live) in live.iter().enumerate() {
        let own = codes_at(instrs, &entrances, *live, &codes, place);
        codes.push(own).map_err(|_| WantOfMemory)?;
    }
    Ok(codes)
}
