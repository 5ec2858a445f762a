//! Lists whose room is asked for once, so that a refused growth is want of memory at once.
#![tactic(auto)]

ghost use Rattle.std.specs.Prelude.{◌≡◌, List, length, ⊤, IfOk};
ghost use Rattle.std.specs.Iterator.{DrainsIf, IsFinite};
ghost use Rattle.std.specs.Vec.{vec_len};

use std::alloc::Global;
use vax_form::WantOfMemory;

/// The items of an iterator, in order. Room for so many is asked for once, and only more items than that ask for more:
/// `collect` asks for less where a first growth is refused.
pub fn list_of<I: Iterator>(
    alloc: Global,
    most: usize,
    items: I,
) -> Result<Vec<I::Item>, WantOfMemory>
where
    I::Item: Drop,
    requires can { I.can_next items }
    requires finite { IsFinite (I.remaining items) }
    ensures ran { IfOk result (λ list. (all : List I.Item) × DrainsIf I.next_gives ⊤ items all × ((list.items ≡ all) × (vec_len list ≡ length all))) }
{
    let mut list = Vec::with_capacity(alloc, most)?;
    list.extend(items)?;
    Ok(list)
}
