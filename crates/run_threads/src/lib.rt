//! All processors of an image at once: each runs in a thread of its own, over its way to one shared memory.
//!
//! `running` takes the memory of a run and ends it, `job` has a processor beside its pass, `passes`
//! gives each its pass and joins it, `program` is what they run, `turns` runs each processor to its end, and `together` runs all jobs
//! at the same time, which wait at a `gathering` until all threads stand.
#![tactic(auto)]

mod gathering;
mod job;
mod passes;
mod program;
mod running;
mod together;
mod turns;

pub use running::Running;
