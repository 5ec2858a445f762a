// Reservations of load-locked accesses, one for each processor.
ghost use Rattle.std.specs.Prelude.{◌≡◌, ℕ, suc, ◌<◌, ◌&&◌, not, length, slice_index_or};
ghost use Rattle.memory_core.specs.Order.{strikes};
ghost use Rattle.memory_core.specs.Reservations.{holds, none, next_tries, own_next, cleared_by, next_reservation};

use crate::entry::{Entry, Kind};

/// The block of 16 bytes that a processor has reserved, and how many store conditionals it has made, less the greatest multiple of the
/// miss number; 0 where that is 0.
#[derive(Clone, Copy)]
pub(crate) struct Reservation {
    pub block: Option<u32>,
    pub tries: u16,
}

impl Reservation {
    pub(crate) const NONE: Reservation = Reservation {
        block: None,
        tries: 0,
    };

    fn holds(&self, block: u32) -> bool
        ensures { result ≡ holds self.now.block block }
    {
        match self.block {
            Some(b) => b == block,
            None => false,
        }
    }

    /// Whether its next store conditional to the block succeeds.
    pub(crate) fn may_store(&self, block: u32, miss: u16) -> bool
        ensures { result ≡ (holds self.now.block block && not (strikes miss (suc self.now.tries))) }
    {
        self.holds(block) && !strikes(miss, self.tries)
    }

    fn note_own(&mut self, kind: Kind, block: u32, miss: u16)
        ensures { self.new ≡ own_next miss kind block self.old }
    {
        match kind {
            Kind::LoadLocked => self.block = Some(block),
            Kind::StoreConditional => {
                self.block = None;
                self.tries = next_tries(self.tries, miss);
            }
            _ => {}
        }
    }
}

// One store conditional more.
fn next_tries(tries: u16, miss: u16) -> u16
    ensures { result ≡ next_tries miss tries }
{
    if u32::from(tries) + 1 < u32::from(miss) {
        tries + 1
    } else {
        0
    }
}

/// Clears the reservation of each other processor on a block that is written.
fn clear_others(reservations: &mut [Reservation], processor: usize, block: u32)
    ensures { (p : ℕ) → p < length reservations.old → slice_index_or reservations.new p none ≡ cleared_by processor block p (slice_index_or reservations.old p none) }
{
    for (i, reservation) in reservations.iter_mut().enumerate() {
        if i != processor && reservation.holds(block) {
            reservation.block = None;
        }
    }
}

/// Notes an entry in all reservations.
#[inline(always)]
pub(crate) fn note(reservations: &mut [Reservation], entry: &Entry, miss: u16)
    requires { entry.now.processor < length reservations.old }
    ensures { (p : ℕ) → p < length reservations.old → slice_index_or reservations.new p none ≡ next_reservation miss entry.now p (slice_index_or reservations.old p none) }
{
    let processor = entry.processor as usize;
    let block = entry.quad / 16;
    if entry.kind.writes(entry.success) {
        clear_others(reservations, processor, block);
    }
    reservations[processor].note_own(entry.kind, block, miss);
}

// Whether the miss rule makes the store conditional behind so many tries fail.
fn strikes(miss: u16, tries: u16) -> bool
    ensures { result ≡ strikes miss (suc tries) }
{
    miss != 0 && (u32::from(tries) + 1) % u32::from(miss) == 0
}
