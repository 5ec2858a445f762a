// A processor beside its pass.
use shared_memory::Pass;
use tie_switch::Processor;

/// A processor, and its way to the shared memory.
#[derive(Drop)]
pub(crate) struct Job {
    pub processor: Processor,
    pub pass: Pass,
}
