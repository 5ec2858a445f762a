// A gate that holds accesses of processors until others come to theirs.
use std::alloc::{AllocError, Global};
use std::sync::atomic::{AtomicBool, Ordering};
use vt_outside::Gate;

/// The most turns of a hold.
const MOST_TURNS: u32 = 100_000_000;

/// A processor's access, by how many it asked for before.
#[derive(Clone, Copy, PartialEq, Eq)]
pub struct Access {
    pub processor: u8,
    pub number: u64,
}

/// The first access is held until the second is come to.
#[derive(Clone, Copy)]
pub struct Pair {
    pub held: Access,
    pub until: Access,
}

#[derive(Drop)]
struct Hold {
    pair: Pair,
    came: AtomicBool,
    released: AtomicBool,
}

/// A gate of holds.
#[derive(Drop)]
pub struct Holds(Vec<Hold>);

impl Hold {
    fn new(pair: Pair) -> Hold {
        Hold {
            pair,
            came: AtomicBool::new(false),
            released: AtomicBool::new(false),
        }
    }

    fn before(&self, access: Access) {
        if access == self.pair.until {
            self.came.store(true, Ordering::SeqCst);
        }
        if access == self.pair.held {
            self.wait();
        }
    }

    fn wait(&self) {
        for _ in 0..MOST_TURNS {
            if self.came.load(Ordering::SeqCst) {
                self.released.store(true, Ordering::SeqCst);
                return;
            }
        }
    }
}

impl Holds {
    pub fn nothing(alloc: Global) -> Holds {
        Holds(Vec::new(alloc))
    }

    pub fn of(alloc: Global, pairs: &[Pair]) -> Result<Holds, AllocError> {
        let mut holds = Vec::new(alloc);
        for pair in pairs {
            holds.push(Hold::new(*pair))?;
        }
        Ok(Holds(holds))
    }

    /// Whether each hold ended because the other access came.
    pub fn are_released(&self) -> bool {
        for hold in &self.0 {
            if !hold.released.load(Ordering::SeqCst) {
                return false;
            }
        }
        true
    }
}

impl Gate for Holds {
    fn before(&self, processor: u8, number: u64) {
        for hold in &self.0 {
            hold.before(Access { processor, number });
        }
    }
}
