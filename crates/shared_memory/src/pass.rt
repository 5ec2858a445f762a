// A thread's pass to a shared memory.
ghost use Rattle.std.specs.Prelude.{◌≡◌, true, []};
ghost use Rattle.memory_core.specs.Order.{own};

use crate::steps::Place;

/// What one processor knows of the memory: what it has seen of the history, and its own entries. The first pass is the
/// keeper: it has no processor, gives the others their numbers and takes them in again.
#[derive(Drop)]
pub struct Pass {
    pub(crate) seat: Place,
    ghost home: { seat.me.1 ≡ [] },
    ghost still: { seat.me.0.turn ≡ 0 },
    ghost mine: { seat.me.0.lives ≡ true → own seat.me.0.number seat.me.0.seen ≡ seat.me.0.own },
}
