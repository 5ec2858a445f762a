// Threads of a program, and their stacks.
ghost use Rattle.std.specs.Prelude.{◌≡◌, ◌<◌, ◌≤◌, ◌+◌, ◌++◌, ◌^◌, IfOk, OnOk, length};
ghost use Rattle.image_file.specs.Rows.{page_bytes};
ghost use Rattle.image_parts.specs.Program.{stack_end, stack_of, stacks_of, thread_at, threads_from};

use image_file::{FIRST_REGISTERS, Section, Start};
use std::alloc::{AllocError, Global};
use vax_form::PAGE_SIZE;

/// Where the first thread's stack ends.
const STACKS_END: u64 = 0x7FFF_0000;

fn page_bytes(size: u32) -> u64
    ensures value { result ≡ page_bytes size }
    ensures bound { result ≤ 2 ^ 33 }
{
    PAGE_SIZE as u64 * u64::from(size.div_ceil(PAGE_SIZE))
}

/// Where a thread's stack ends.
fn stack_end(size: u32, thread: usize) -> u32
    ensures { result ≡ stack_end size thread }
{
    let each = page_bytes(size) + PAGE_SIZE as u64;
    STACKS_END.saturating_sub((thread as u64).saturating_mul(each)) as u32
}

fn stack_of(alloc: Global, size: u32, thread: usize) -> Section
    ensures { result ≡ stack_of size thread }
{
    let end = u64::from(stack_end(size, thread));
    Section {
        start: end.saturating_sub(page_bytes(size)) as u32,
        size,
        writable: true,
        stored: Vec::new(alloc),
    }
}

/// Appends the stacks of so many threads.
pub fn push_stacks(
    alloc: Global,
    size: u32,
    count: usize,
    sections: &mut Vec<Section>,
) -> Result<(), AllocError>
    ensures { OnOk result (sections.new.items ≡ sections.old.items ++ stacks_of size count) }
{
    for thread in 0..count {
        sections.push(stack_of(alloc, size, thread))?;
    }
    Ok(())
}

fn thread_at(size: u32, thread: usize, pc: u32) -> Start
    ensures { result ≡ thread_at size thread pc }
{
    Start {
        pc,
        sp: stack_end(size, thread),
        first: [0; FIRST_REGISTERS],
    }
}

/// The threads that start at these addresses.
pub fn threads_of(alloc: Global, size: u32, starts: &[u32]) -> Result<Vec<Start>, AllocError>
    ensures { IfOk result (λ v. v.items ≡ threads_from size 0 starts.now) }
{
    let mut threads = Vec::new(alloc);
    for (thread, pc) in starts.iter().enumerate() {
        threads.push(thread_at(size, thread, *pc))?;
    }
    Ok(threads)
}
