// Where the threads of a run wait until all of them stand.
use std::sync::{OnceLock, Wait};

/// Threads wait at it for the one that makes them, which tells once whether all of them stand.
#[derive(Drop)]
pub(crate) struct Gathering {
    all_stand: OnceLock<bool>,
}

impl Gathering {
    pub fn new() -> Gathering {
        Gathering {
            all_stand: OnceLock::new(),
        }
    }

    /// All threads stand, or one could not be made.
    pub fn tell<R: Wait>(&self, rt: &R, all_stand: bool) {
        let _ = self.all_stand.set(rt, all_stand);
    }

    /// Waits until it is told whether all threads stand.
    pub fn is_complete<R: Wait>(&self, rt: &R) -> bool {
        *self.all_stand.wait(rt)
    }
}
