// The steps of an access on the table.
ghost use Rattle.std.specs.Prelude.{◌≡◌, ◌∷◌, ℕ, [], Some, None, true, false};
ghost use Rattle.memory_core.specs.Contents.{Contents};
ghost use Rattle.shared_memory.specs.Steps.{Won, HasTurn, entered, given_back};
ghost use Rattle.shared_memory.specs.Rule.{behind};
ghost use Rattle.shared_memory.specs.Views.{IsPass};
ghost use Rattle.shared_memory.specs.Ways.{IsLease};

use crate::plays::{Enter, GiveBack, Order, Win};
use crate::view::View;
use crate::waiting::Waiting;
use atomic_table::Seat;
use memory_core::MemState;
use std::snapshot::Snapshot;
use std::sync::Wait;

pub type Shared = atomic_table::Shared<Option<MemState>, View, Snapshot<MemState>, Order>;

pub type Place = Seat<Option<MemState>, View>;

// Takes the turn where it is free, and the slot with it.
fn try_win(shared: &Shared, seat: &mut Place) -> bool
    requires { (seat.old.table_id ≡ shared.now.table_id) × (shared.now.table_id.words ≡ 2) × (shared.now.table_id.slots ≡ 1) × IsPass shared.now.key.value seat.old.me.0.number seat.old.me.0 }
    ensures table { seat.new.table_id ≡ seat.old.table_id }
    ensures won { result ≡ true → Won seat.old.me seat.new.me }
    ensures same { result ≡ false → seat.new.me ≡ seat.old.me }
{
    shared.compare_exchange::<Win>(seat, 1, 0, 1) == 0
}

// Takes the turn, and the slot with it. A waiter is counted before it tries once more.
pub fn win<R: Wait>(rt: &R, shared: &Shared, waiting: &Waiting, seat: &mut Place)
    requires { (seat.old.table_id ≡ shared.now.table_id) × (shared.now.table_id.words ≡ 2) × (shared.now.table_id.slots ≡ 1) × IsPass shared.now.key.value seat.old.me.0.number seat.old.me.0 }
    ensures { (seat.new.table_id ≡ seat.old.table_id) × Won seat.old.me seat.new.me }
{
    if try_win(shared, seat) {
        return;
    }
    waiting.begin();
    for _ in rt.forever() {
        let key = waiting.event.prepare_wait();
        if try_win(shared, seat) {
            waiting.end();
            return;
        }
        key.wait(rt);
    }
    unreachable!()
}

// Takes the memory out of the slot that the seat has.
pub fn take_out(shared: &Shared, seat: &mut Place) -> MemState
    requires { (seat.old.table_id ≡ shared.now.table_id) × ((state : Contents) × (seat.old.me.1 ≡ (0, Some state) ∷ [])) }
    ensures table { seat.new.table_id ≡ seat.old.table_id }
    ensures out { (seat.old.me.1 ≡ (0, Some result) ∷ []) × (seat.new.me ≡ (seat.old.me.0, (0, None) ∷ [])) }
{
    shared.exchange(seat, 0, None).unwrap()
}

// Puts the memory into the slot, and gives the turn back.
pub fn give_back(shared: &Shared, waiting: &Waiting, seat: &mut Place, whole: Option<MemState>)
    requires table { (seat.old.table_id ≡ shared.now.table_id) × (shared.now.table_id.words ≡ 2) × (shared.now.table_id.slots ≡ 1) }
    requires turn { HasTurn seat.old.me }
    requires state { whole ≡ Some (behind shared.now.key.value seat.old.me.0.found) }
    ensures { (seat.new.table_id ≡ seat.old.table_id) × (seat.new.me ≡ (given_back seat.old.me.0, [])) }
{
    drop(shared.exchange(seat, 0, whole));
    shared.store::<GiveBack>(seat, 1, 0);
    waiting.event.notify_one();
}

// Enters what the memory has more than was found, and gives it back. It exchanges nothing: the step announces the memory.
pub fn enter(shared: &Shared, waiting: &Waiting, seat: &mut Place, state: MemState)
    requires table { (seat.old.table_id ≡ shared.now.table_id) × (shared.now.table_id.words ≡ 2) × (shared.now.table_id.slots ≡ 1) }
    requires lease { (number : ℕ) × IsLease shared.now.key.value number seat.old.me state }
    ensures { (seat.new.table_id ≡ seat.old.table_id) × (seat.new.me ≡ (given_back (entered seat.old.me.0 state.history), [])) }
{
    let whole = Some(state);
    shared.compare_exchange_with::<Enter>(seat, 0, 0, 0, &whole);
    give_back(shared, waiting, seat, whole);
}
