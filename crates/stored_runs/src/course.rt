// What the threads of an image share on their way, besides their memory.
ghost use Rattle.std.specs.Prelude.{IfOk};
ghost use Rattle.tie_switch.specs.Known.{AreFound as AreKnown};
ghost use Rattle.stored_runs.specs.Marks.{AreUnmarked};

use crate::marks::Marks;
use std::alloc::{AllocError, Global};
use tie_switch::KNOWN;
use vax_form::{Instr, Pages};

/// The instructions that were decoded, and the marks of the addresses at which threads retired.
#[derive(Drop)]
pub(crate) struct Course {
    pub(crate) known: Vec<Option<Instr>>,
    pub(crate) marks: Marks,
}

impl Course {
    /// Before the first instruction.
    pub(crate) fn new(alloc: Global, pages: &Pages) -> Result<Course, AllocError>
        ensures known { IfOk result (λ course. AreKnown pages.now course.known.items) }
        ensures marks { IfOk result (λ course. AreUnmarked pages.now course.marks) }
    {
        let mut known = Vec::new(alloc);
        known.resize(KNOWN, None)?;
        let marks = Marks::of_code(alloc, pages)?;
        Ok(Course { known, marks })
    }
}
