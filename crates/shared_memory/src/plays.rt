// The rule of the slot, and what each kind of step tells. The steps that aren't named here tell nothing: taking the memory
// out of the slot, and putting it back.
ghost use Rattle.shared_memory.specs.Rule.{Kept, keeper_of, spent, made_left, made_right, ended_both};
ghost use Rattle.shared_memory.specs.Steps.{Wins, Enters, GivesBack, Chooses};

use crate::view::View;
use atomic_table::{Join, Play, Split, TableRule};
use memory_core::MemState;
use std::snapshot::Snapshot;

pub struct Order;

// The key is the memory as it was handed in.
impl TableRule<Option<MemState>, View, Snapshot<MemState>> for Order {
    ghost holds = { λ key. Kept key.value };

    ghost first = { λ key. keeper_of key.value };
}

/// Asks for the turn.
pub struct Win;

impl Play<Option<MemState>, View> for Win {
    ghost then = { Wins };
}

/// Announces the entries that a pass has made, while the memory is out.
pub struct Enter;

impl Play<Option<MemState>, View> for Enter {
    ghost then = { Enters };
}

/// Gives the turn back, and the slot with it.
pub struct GiveBack;

impl Play<Option<MemState>, View> for GiveBack {
    ghost then = { GivesBack };
}

/// Names the number that the next pass is to have.
pub struct Choose;

impl Play<Option<MemState>, View> for Choose {
    ghost then = { Chooses };
}

/// Makes a pass with the number chosen.
pub struct Make;

impl Split<View> for Make {
    ghost left = { made_left };

    ghost right = { made_right };
}

/// Takes a pass in.
pub struct End;

impl Join<View> for End {
    ghost both = { ended_both };

    ghost spent = { spent };
}
