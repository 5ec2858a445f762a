// Who waits for the turn.
use crossbeam_utils::sync::EventCount;
use std::sync::atomic::AtomicU64;
use std::sync::atomic::Ordering::SeqCst;

/// Those that wait for the turn. The number of them carries no claim: it tells a pass that has the memory when to give it back.
#[derive(Drop)]
pub struct Waiting {
    pub event: EventCount,
    number: AtomicU64,
}

impl Waiting {
    pub fn new() -> Waiting {
        Waiting {
            event: EventCount::new(),
            number: AtomicU64::new(0),
        }
    }

    /// One more waits.
    pub fn begin(&self) {
        self.number.fetch_add(1, SeqCst);
    }

    /// One waits no longer.
    pub fn end(&self) {
        self.number.fetch_sub(1, SeqCst);
    }

    /// Whether one waits.
    pub fn is_any(&self) -> bool {
        self.number.load(SeqCst) != 0
    }
}
