//! The memory that all processors share: one order of accesses, with reservations for load-locked and store conditional. Its
//! history is kept, 32 bytes an entry, or stands in proofs alone. Each access is answered at once; all memory is taken when the
//! memory is made.
#![tactic(auto)]

mod change;
mod entry;
mod held;
mod index;
pub mod laws;
mod live;
mod memory;
mod page;
mod reservation;
mod state;
mod told;

pub use entry::{Change, Entry, Kind, Limit, Reply, Request, SetUp};
pub use live::LiveState;
pub use memory::Memory;
pub use state::MemState;
