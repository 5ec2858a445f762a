// A processor's way to the memory.
use crate::pass::Pass;
use crate::steps::Place;
use memory_core::MemState;

/// A processor's way to the memory. `whole` is the memory, while the processor has it, and `made` counts the accesses since it was taken.
#[derive(Drop)]
pub struct Way {
    pub(crate) seat: Place,
    pub(crate) whole: Option<MemState>,
    pub(crate) made: u32,
}

impl Way {
    ghost use Rattle.std.specs.Prelude.{◌≡◌, ℕ};
    ghost use Rattle.shared_memory.specs.Passes.{seen_of, IsPassOf};
    ghost use Rattle.shared_memory.specs.Ways.{seen_by, IsWayOf};
    ghost use Rattle.shared_memory.specs.declared.shared.SharedMemory.{SharedMemory};

    /// The way of a pass, which has not the memory.
    pub fn of(pass: Pass) -> Way
        ensures way { (memory : SharedMemory) (number : ℕ) → IsPassOf memory number pass → IsWayOf memory number result }
        ensures seen { seen_by result ≡ seen_of pass }
    {
        let Pass { seat } = pass;
        Way {
            seat,
            whole: None,
            made: 0,
        }
    }
}
