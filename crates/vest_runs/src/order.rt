// The file of a run's order. All its memory is taken before the run.
ghost use Rattle.std.specs.Prelude.{◌≡◌, ◌≤◌, [], length, map, vec_capacity, IfOk};
ghost use Rattle.system_model.specs.Counted.{order};
ghost use Rattle.tie_switch.specs.Processors.{processor_of};
ghost use Rattle.run_files.specs.Fits.{AreFew};
ghost use Rattle.run_files.specs.Spelling.{order_bytes};
ghost use Rattle.vest_runs.specs.Order.{HasRoom, end_of, order_made};

use crate::delivery::is_spent;
use memory_core::Entry;
use run_files::{append_order, order_room};
use std::alloc::Global;
use std::marker::Model;
use tie_switch::Processor;
use vax_form::WantOfMemory;

/// Room for the file of an order, and for the ends of its threads.
#[derive(Drop)]
pub struct OrderRoom {
    ends: Vec<(u64, bool)>,
    bytes: Vec<u8>,
}

impl Model for OrderRoom {
    ghost use Rattle.std.specs.Prelude.{◌≡◌, [], vec_capacity};
    ghost use Rattle.vest_runs.specs.Order.{RoomValue};

    ghost Value = { RoomValue };

    ghost view = { λ r. record { ends = vec_capacity r.ends; bytes = vec_capacity r.bytes } };

    ghost invariant = { λ r. (r.ends.items ≡ []) × (r.bytes.items ≡ []) };
}

impl OrderRoom {
    /// Room for a run of so many threads, on so many bytes of input, that makes at most so many entries.
    pub fn new(
        alloc: Global,
        threads: usize,
        input: usize,
        entries: usize,
    ) -> Result<OrderRoom, WantOfMemory>
        requires { AreFew threads input entries }
        ensures { IfOk result (HasRoom threads input entries) }
    {
        let ends = Vec::with_capacity(alloc, threads)?;
        let bytes = Vec::with_capacity(alloc, order_room(threads, input, entries))?;
        Ok(OrderRoom { ends, bytes })
    }

    /// The file of the order of a run: of its history, its input and its processors, which have ended. It takes no memory.
    pub fn filled(self, history: &[Entry], input: &[u8], processors: &[Processor]) -> Vec<u8>
        requires { HasRoom (length processors.now) (length input.now) (length history.now) self }
        ensures { result.items ≡ order_bytes (order_made history.now input.now (map processor_of processors.now)) }
    {
        let OrderRoom {
            mut ends,
            mut bytes,
        } = self;
        put_ends(processors, &mut ends);
        append_order(history, input, &ends, &mut bytes);
        bytes
    }
}

// How each processor ended, in their order.
fn put_ends(processors: &[Processor], ends: &mut Vec<(u64, bool)>)
    requires empty { ends.old.items ≡ [] }
    requires room { length processors.now ≤ vec_capacity ends.old }
    ensures ends { ends.new.items ≡ map end_of (map processor_of processors.now) }
    ensures count { length ends.new.items ≡ length processors.now }
{
    for processor in processors {
        ends.push_reserved((processor.retired(), is_spent(processor)));
    }
}
