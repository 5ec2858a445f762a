// All driven threads with their memory.
ghost use Rattle.std.specs.Prelude.{◌≡◌, ◌≤◌, ◌+◌, ◌*◌, ◌++◌, [], List, length, option_map, reverse, map, IfOk, OnOk};
ghost use Rattle.vax_form.specs.PageTable.{page_size};
ghost use Rattle.vax_driven.specs.Driven.{picked, runs_from, walk};
ghost use Rattle.vax_meaning.specs.Made.{Made};
ghost use Rattle.vax_run.specs.Values.{addresses_from, threads_of, world_of};
ghost use Rattle.vax_run.specs.Threads.{AreThreads};

use crate::advance::Place;
use crate::memory::Memory;
use crate::thread::Thread;
use image_file::Image;
use std::alloc::{AllocError, Global};
use vax_driven::ThreadRun;
use vax_form::{PAGE_SIZE, PageRange, Pick, Reference};

/// Threads on their way along an order: each of them, what their references left, and the references themselves.
#[derive(Drop)]
pub(crate) struct World {
    pub(crate) threads: Vec<Thread>,
    pub(crate) memory: Memory,
    pub(crate) references: Vec<Reference>,
}

impl World {
    ghost use Rattle.vax_run.specs.World.{IsLeft, IsWalked, pair_at, bytes_of};

    /// The threads of an image before any reference.
    pub(crate) fn new(alloc: Global, image: &Image) -> Result<World, AllocError>
        ensures { IfOk result (λ world. IsLeft image.now [] world) }
    {
        let threads = threads_of(alloc, image)?;
        Ok(World {
            threads,
            memory: Memory::new(alloc),
            references: Vec::new(alloc),
        })
    }

    /// Makes the reference of a pick; false where its thread wants none then.
    fn make(&mut self, image: &Image, input: &[u8], pick: Pick) -> Result<bool, AllocError>
        requires { (made : List Made) × IsLeft image.now made self.old }
        ensures { IfOk result (λ goes. (made : List Made) → IsLeft image.now made self.old → IsWalked image.now (picked (world_of image.now input.now) (Some made) pick) goes self.new) }
    {
        let at = pick.thread as usize;
        if at >= self.threads.len() {
            return Ok(false);
        }
        let Some(asked) = self.threads[at].wanted(image, pick) else {
            return Ok(false);
        };
        let reply = self.memory.make(image, input, asked.reference)?;
        self.references.push(asked.reference)?;
        self.threads[at].take(asked.place, pick.retired, reply)?;
        Ok(true)
    }

    /// Makes the references of an order, oldest first; false where a pick's thread wants none then.
    pub(crate) fn walk(
        &mut self,
        image: &Image,
        input: &[u8],
        order: &[Pick],
    ) -> Result<bool, AllocError>
        requires { IsLeft image.now [] self.old }
        ensures { IfOk result (λ goes. IsWalked image.now (walk (world_of image.now input.now) (reverse order.now)) goes self.new) }
    {
        for pick in order {
            if !self.make(image, input, *pick)? {
                return Ok(false);
            }
        }
        Ok(true)
    }

    /// Each thread after its count; None where one doesn't come so far.
    pub(crate) fn runs(
        &self,
        alloc: Global,
        image: &Image,
        counts: &[u64],
    ) -> Result<Option<Vec<ThreadRun>>, AllocError>
        requires threads { length image.now.threads ≤ 255 }
        requires counts { length counts.now ≡ length image.now.threads }
        requires left { (made : List Made) × IsLeft image.now made self.now }
        ensures { IfOk result (λ runs. (made : List Made) → IsLeft image.now made self.now → option_map (λ runs. runs.items) runs ≡ runs_from (threads_of image.now) made 0 counts.now) }
    {
        let mut runs = Vec::new(alloc);
        for at in 0..counts.len() {
            let Some(shown) = self.threads[at].run(image, at as u8, counts[at]) else {
                return Ok(None);
            };
            runs.push(shown)?;
        }
        Ok(Some(runs))
    }

    /// Every byte of the image's pages with its address, in rising order.
    pub(crate) fn bytes(&self, alloc: Global, image: &Image) -> Result<Vec<(u32, u8)>, AllocError>
        ensures { IfOk result (λ bytes. bytes.items ≡ bytes_of image.now self.now.memory image.now.pages.ranges) }
    {
        let mut bytes = Vec::new(alloc);
        let pages = &image.pages;
        for range in &pages.ranges {
            self.push_bytes(&mut bytes, image, range)?;
        }
        Ok(bytes)
    }

    fn push_bytes(
        &self,
        bytes: &mut Vec<(u32, u8)>,
        image: &Image,
        range: &PageRange,
    ) -> Result<(), AllocError>
        requires { range.now.first + range.now.count ≤ 4194304 }
        ensures { OnOk result (bytes.new.items ≡ bytes.old.items ++ map (pair_at image.now self.now.memory) (addresses_from (page_size * range.now.first) (page_size * range.now.count))) }
    {
        for place in 0..PAGE_SIZE * range.count {
            let address = PAGE_SIZE * range.first + place;
            bytes.push((address, self.memory.byte(image, address)))?;
        }
        Ok(())
    }
}

/// A thread for each start.
fn threads_of(alloc: Global, image: &Image) -> Result<Vec<Thread>, AllocError>
    ensures { IfOk result (λ threads. AreThreads image.now 0 [] image.now.threads threads.items) }
{
    let mut threads = Vec::new(alloc);
    for start in &image.threads {
        let state = start.state();
        threads.push(Thread {
            start: state,
            replies: Vec::new(alloc),
            place: Place::at_start(state),
            retired: 0,
        })?;
    }
    Ok(threads)
}
