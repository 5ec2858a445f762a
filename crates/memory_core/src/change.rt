// What an access leaves of its quadword.
ghost use Rattle.std.specs.Prelude.{◌≡◌, ◌<◌, ◌%◌};
ghost use Rattle.memory_core.specs.Bytes.{with_bytes};
ghost use Rattle.memory_core.specs.Changes.{changed, leaves, IsInRange};

use crate::entry::{Change, Kind};
use vt_words::{cleared, kept};

fn with_bytes(mask: u8, value: u64, before: u64) -> u64
    ensures { result ≡ with_bytes mask value before }
{
    kept(mask, value) | cleared(mask, before)
}

fn with_word_added(at: u8, value: u16, before: u64) -> u64
    requires within { at < 8 }
    requires even { at % 2 ≡ 0 }
    ensures { result ≡ changed (Change.AddWord at value) before }
{
    let word = ((before >> (8 * at)) & 0xffff) as u16;
    let sum = word.wrapping_add(value);
    with_bytes(3 << at, u64::from(sum) << (8 * at), before)
}

fn changed(change: Change, before: u64) -> u64
    requires { IsInRange change }
    ensures { result ≡ changed change before }
{
    match change {
        Change::Nothing => before,
        Change::Bytes { mask, value } => with_bytes(mask, value, before),
        Change::AddWord { at, value } => with_word_added(at, value, before),
        Change::SetBit(n) => before | 1 << n,
        Change::ClearBit(n) => before & !(1 << n),
        Change::Byte(b) => u64::from(b),
    }
}

/// What an access of the kind leaves, where it makes the change and a store conditional has this success.
#[inline(always)]
pub(crate) fn left(kind: Kind, success: bool, change: Change, before: u64) -> u64
    requires { IsInRange change }
    ensures { result ≡ leaves kind success change before }
{
    match kind {
        Kind::Store | Kind::TieWrite | Kind::TieLocked | Kind::Put => changed(change, before),
        Kind::StoreConditional if success => changed(change, before),
        _ => before,
    }
}
