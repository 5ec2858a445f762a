//! Which Alpha words have a pair, told at one look: most words of code have none.
ghost use Rattle.std.specs.Prelude.{◌≡◌, IfOk};
ghost use Rattle.address_map.specs.Sound.{AreBeginnings};

use rising_lists::numbers_told;
use std::alloc::Global;
use vax_form::WantOfMemory;

/// For each word up to the last that has a pair, whether it has one.
pub(crate) fn beginnings(alloc: Global, pairs: &[(u32, u32)]) -> Result<Vec<bool>, WantOfMemory>
    ensures { IfOk result (λ begins. AreBeginnings begins.items pairs.now) }
{
    let mut begins = vec![in alloc; false; numbers_told(pairs.last().map(|pair| pair.1))]?;
    for place in 0..pairs.len() {
        let word = pairs[place].1 as usize;
        if word < begins.len() {
            begins[word] = true;
        }
    }
    Ok(begins)
}
