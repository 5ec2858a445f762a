// The order of a history.
ghost use Rattle.std.specs.Prelude.{◌≡◌, IfOk};
ghost use Rattle.system_model.specs.Counted.{is_counted, pick_of, order};

use memory_core::{Entry, Kind};
use std::alloc::Global;
use vax_form::{Pick, WantOfMemory};

/// The order of references that a history keeps, oldest first: a pick for each entry but the load-locked ones and the
/// store conditionals that failed.
pub fn order_of(alloc: Global, history: &[Entry]) -> Result<Vec<Pick>, WantOfMemory>
    ensures { IfOk result (λ picks. picks.items ≡ order history.now) }
{
    let picks: Vec<Pick> = history
        .iter()
        .filter(|entry| is_counted(entry))
        .map(|entry| pick_of(entry))
        .collect(alloc)?;
    Ok(picks)
}

/// Whether an entry has a pick: it is no load-locked access, and no store conditional that failed.
pub fn is_counted(entry: &Entry) -> bool
    ensures { result ≡ is_counted entry.now }
{
    match entry.kind {
        Kind::LoadLocked => false,
        Kind::StoreConditional => entry.success,
        _ => true,
    }
}

/// The pick of an entry: its thread, and how many instructions that had retired.
pub fn pick_of(entry: &Entry) -> Pick
    ensures { result ≡ pick_of entry.now }
{
    Pick {
        thread: entry.processor,
        retired: entry.retired,
    }
}
