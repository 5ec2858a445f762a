// All threads of an order with their memory.
ghost use Rattle.std.specs.Prelude.{◌≡◌, ◌≤◌, [], ℕ, List, Some, length, option_map, reverse, IfOk, IfSome};
ghost use Rattle.image_file.specs.Whole.{IsWhole};
ghost use Rattle.vax_form.specs.Made.{Made};
ghost use Rattle.vax_driven.specs.Driven.{picked, runs_from, walk};
ghost use Rattle.vax_run.specs.Values.{threads_of, world_of};
ghost use Rattle.tie_switch.specs.Known.{AreFound as AreKnown};
ghost use Rattle.stored_runs.specs.World.{AreBegun};

use crate::course::Course;
use crate::memory::Memory;
use crate::thread::Thread;
use image_file::Image;
use std::alloc::{AllocError, Global};
use vax_driven::ThreadRun;
use vax_form::Pick;

/// Threads on their way along an order, and what their references left.
#[derive(Drop)]
pub(crate) struct World {
    threads: Vec<Thread>,
    memory: Memory,
}

impl World {
    ghost use Rattle.stored_runs.specs.Marks.{mark_of};
    ghost use Rattle.stored_runs.specs.Stood.{AreAllMarks};
    ghost use Rattle.stored_runs.specs.World.{AreFresh, AreLeft, IsLeft, IsWalked};

    /// The threads of an image before any reference, each with its count.
    pub(crate) fn new(alloc: Global, image: &Image, counts: &[u64]) -> Result<World, AllocError>
        requires whole { IsWhole image.now }
        requires counts { length counts.now ≡ length image.now.threads }
        ensures left { (input : List ℕ) → IfOk result (λ world. IsLeft image.now input counts.now [] world) }
        ensures fresh { IfOk result (λ world. AreFresh world.threads.items) }
    {
        Ok(World {
            threads: begun(alloc, image, counts)?,
            memory: Memory::new(alloc, image)?,
        })
    }

    /// Makes the reference of a pick; false where its thread wants none then.
    fn make(
        &mut self,
        alloc: Global,
        image: &Image,
        course: &mut Course,
        input: &[u8],
        pick: Pick,
    ) -> Result<bool, AllocError>
        requires known { AreKnown image.now.pages course.old.known.items }
        ensures known { AreKnown image.now.pages course.new.known.items }
        ensures made { IfOk result (λ goes. (counts : List ℕ) (made : List Made) → AreLeft image.now input.now counts made self.old course.old.marks
            → IsWalked image.now input.now counts (picked (world_of image.now input.now) (Some made) pick) goes self.new course.new.marks) }
    {
        let at = pick.thread as usize;
        if at >= self.threads.len() {
            return Ok(false);
        }
        let thread = &mut self.threads[at];
        let Some(reference) = thread.wanted(image, pick.thread, course, pick.retired) else {
            return Ok(false);
        };
        let reply = self.memory.make(alloc, input, reference)?;
        thread.take(reply);
        Ok(true)
    }

    /// Makes the references of an order, oldest first; false where a pick's thread wants none then.
    pub(crate) fn walk(
        &mut self,
        alloc: Global,
        image: &Image,
        course: &mut Course,
        input: &[u8],
        order: &[Pick],
    ) -> Result<bool, AllocError>
        requires known { AreKnown image.now.pages course.old.known.items }
        ensures known { AreKnown image.now.pages course.new.known.items }
        ensures walked { IfOk result (λ goes. (counts : List ℕ) → AreLeft image.now input.now counts [] self.old course.old.marks
            → IsWalked image.now input.now counts (walk (world_of image.now input.now) (reverse order.now)) goes self.new course.new.marks) }
    {
        for pick in order {
            if !self.make(alloc, image, course, input, *pick)? {
                return Ok(false);
            }
        }
        Ok(true)
    }

    /// Each thread after its count; None where one doesn't come so far.
    pub(crate) fn runs(
        &self,
        alloc: Global,
        image: &Image,
        course: &mut Course,
    ) -> Result<Option<Vec<ThreadRun>>, AllocError>
        requires threads { length self.now.threads.items ≤ 255 }
        requires known { AreKnown image.now.pages course.old.known.items }
        ensures runs { IfOk result (λ runs. (input counts : List ℕ) (made : List Made) → length counts ≡ length image.now.threads
            → IsLeft image.now input counts made self.now → option_map (λ runs. runs.items) runs ≡ runs_from (threads_of image.now) made 0 counts) }
        ensures marks { IfOk result (λ runs. IfSome runs (λ _. (input counts : List ℕ) (made : List Made) → length counts ≡ length image.now.threads
            → AreLeft image.now input counts made self.now course.old.marks → AreAllMarks image.now counts made (mark_of course.new.marks))) }
    {
        let mut runs = Vec::new(alloc);
        for at in 0..self.threads.len() {
            let thread = self.threads[at];
            let Some(run) = thread.run(image, at as u8, course) else {
                return Ok(None);
            };
            runs.push(run)?;
        }
        Ok(Some(runs))
    }

    /// The bytes that were put, oldest first.
    pub(crate) fn output(self) -> Vec<u8>
        ensures { result.items ≡ self.memory.output.items }
    {
        let World { memory, .. } = self;
        memory.output()
    }
}

/// A thread for each start, with its count.
fn begun(alloc: Global, image: &Image, counts: &[u64]) -> Result<Vec<Thread>, AllocError>
    requires whole { IsWhole image.now }
    requires counts { length counts.now ≡ length image.now.threads }
    ensures { IfOk result (λ threads. AreBegun image.now counts.now (length image.now.threads) threads.items) }
{
    let mut threads = Vec::new(alloc);
    for (thread, start) in image.threads.iter().enumerate() {
        threads.push(Thread::new(image, thread as u8, start.state(), counts[thread]))?;
    }
    Ok(threads)
}
