// Which codes are live behind each instruction of a run.
ghost use Rattle.std.specs.Prelude.{◌≡◌, ◌||◌, ◌&&◌, not, reverse, IfOk};
ghost use Rattle.cc_liveness.specs.Liveness.{AreLive, RecursionIsLiveness, live_codes, wanted_before, live_behind};

use crate::uses::CodeUse;
use std::alloc::{AllocError, Global};
use vax_form::{Flags, WantOfMemory};

/// Whether a code is wanted before an instruction: it reads the code, or the code goes through it and is live behind it.
fn is_wanted(reads: bool, writes: bool, live: bool) -> bool
    ensures { result ≡ (reads || (not writes && live)) }
{
    reads || (!writes && live)
}

/// The codes that are wanted before an instruction, from those that are live behind it.
pub fn wanted(instruction: &CodeUse, live: Flags) -> Flags
    ensures { result ≡ wanted_before instruction.now live }
{
    let (reads, writes) = (instruction.reads, instruction.writes);
    Flags {
        n: is_wanted(reads.n, writes.n, live.n),
        z: is_wanted(reads.z, writes.z, live.z),
        v: is_wanted(reads.v, writes.v, live.v),
        c: is_wanted(reads.c, writes.c, live.c),
    }
}

/// The codes that are live behind an instruction, from those that are wanted behind it.
pub fn live_behind(instruction: &CodeUse, wanted: Flags) -> Flags
    ensures { result ≡ live_behind instruction.now wanted }
{
    if instruction.ends { Flags::ALL } else { wanted }
}

/// The live codes from the last instruction to the first.
fn backward(alloc: Global, run: &[CodeUse]) -> Result<Vec<Flags>, AllocError>
    ensures { IfOk result (λ found. found.items ≡ reverse (live_codes run.now)) }
{
    let mut found = Vec::new(alloc);
    let mut behind = Flags::ALL;
    for i in (0..run.len()).rev() {
        let instruction = &run[i];
        let live = live_behind(instruction, behind);
        found.push(live)?;
        behind = wanted(instruction, live);
    }
    Ok(found)
}

/// The condition codes that are live behind each instruction of a run.
pub fn live(alloc: Global, run: &[CodeUse]) -> Result<Vec<Flags>, WantOfMemory>
    ensures live { IfOk result (λ found. AreLive run.now found.items) }
    ensures recursion { IfOk result (λ found. found.items ≡ live_codes run.now) }
{
    let mut found = backward(alloc, run)?;
    found.reverse();
    Ok(found)
}

/// The codes that the recursion from the last instruction to the first finds are those that are live.
pub fn liveness_laws()
    ensures recursion { RecursionIsLiveness }
{}
