// One of the driven threads, with its replies.
ghost use Rattle.std.specs.Prelude.{◌≡◌, ◌≤◌, ◌++◌, ◌∷◌, [], drop, length, option_map, IfSome, OnOk};
ghost use Rattle.vax_form.specs.Tree.{answer};
ghost use Rattle.vax_driven.specs.Threads.{wanted_at, wanted_in, fault_of, run_in, run_at};
ghost use Rattle.vax_long.specs.Pending.{moment_at};
ghost use Rattle.vax_run.specs.Answered.{life_of, IsPlace, reached_of};
ghost use Rattle.vax_run.specs.Threads.{after_of, IsAt, IsPlaceOf};
ghost use Rattle.vax_run.specs.Values.{threads_of};

use crate::advance::{Life, Place, advance};
use crate::answered::{Answer, answered};
use image_file::Image;
use std::alloc::AllocError;
use vax_driven::ThreadRun;
use vax_form::{Exception, Pick, Reference, VaxState};

/// A reference that a thread asks for, and where it then stands.
#[derive(Clone, Copy)]
pub(crate) struct Asked {
    pub(crate) reference: Reference,
    pub(crate) place: Place,
}

/// A thread that is driven: where it starts, its replies so far, and where it stands after so many instructions.
#[derive(Drop)]
pub(crate) struct Thread {
    pub(crate) start: VaxState,
    pub(crate) replies: Vec<u64>,
    pub(crate) place: Place,
    pub(crate) retired: u64,
}

impl Thread {
    /// Where the thread stands after so many instructions.
    fn place_after(&self, image: &Image, thread: u8, count: u64) -> Option<Place>
        requires { IsAt image.now thread self.now }
        ensures reached { after_of image.now thread self.now count ≡ reached_of self.now.replies.items result }
        ensures place { IsPlace (length self.now.replies.items) result }
    {
        let replies = self.replies.as_slice();
        if self.retired <= count {
            advance(
                &image.pages,
                thread,
                self.place,
                self.retired,
                replies,
                count,
            )
        } else {
            advance(
                &image.pages,
                thread,
                Place::at_start(self.start),
                0,
                replies,
                count,
            )
        }
    }

    /// The reference that the thread wants at a place.
    fn wanted_at(&self, image: &Image, thread: u8, place: &Place) -> Option<Reference>
        requires { place.now.taken ≤ length self.now.replies.items }
        ensures { result ≡ wanted_in (threads_of image.now) thread (life_of place.now.life) place.now.state (drop place.now.taken self.now.replies.items) }
    {
        let Life::Runs = place.life else {
            return None;
        };
        let left = &self.replies[place.taken..];
        match answered(&image.pages, &place.state, thread, left) {
            Answer::Wants(reference) => Some(reference),
            Answer::Fails(_) | Answer::Comes(..) => None,
        }
    }

    /// The reference that the thread wants after so many instructions, and where it then stands.
    pub(crate) fn wanted(&self, image: &Image, pick: Pick) -> Option<Asked>
        requires { IsAt image.now pick.thread self.now }
        ensures value { option_map (λ asked. asked.reference) result ≡ wanted_at (threads_of image.now) pick.thread (after_of image.now pick.thread self.now pick.retired) }
        ensures place { IfSome result (λ asked. IsPlaceOf image.now pick.thread self.now pick.retired asked.place) }
    {
        let place = self.place_after(image, pick.thread, pick.retired)?;
        let reference = self.wanted_at(image, pick.thread, &place)?;
        Some(Asked { reference, place })
    }

    /// Takes a reply, and stands where it was when it asked for it.
    pub(crate) fn take(&mut self, place: Place, retired: u64, reply: u64) -> Result<(), AllocError>
        ensures start { OnOk result (self.new.start ≡ self.old.start) }
        ensures replies { OnOk result (self.new.replies.items ≡ self.old.replies.items ++ reply ∷ []) }
        ensures place { OnOk result (self.new.place ≡ place) }
        ensures retired { OnOk result (self.new.retired ≡ retired) }
    {
        self.replies.push(reply)?;
        self.place = place;
        self.retired = retired;
        Ok(())
    }

    /// The fault of the thread's next instruction at a place.
    fn fault_at(&self, image: &Image, thread: u8, place: &Place) -> Option<Exception>
        requires { place.now.taken ≤ length self.now.replies.items }
        ensures { result ≡ fault_of (answer image.now.pages (moment_at image.now.pages thread place.now.state) (drop place.now.taken self.now.replies.items)) }
    {
        let left = &self.replies[place.taken..];
        match answered(&image.pages, &place.state, thread, left) {
            Answer::Fails(exception) => Some(exception),
            Answer::Wants(_) | Answer::Comes(..) => None,
        }
    }

    /// What is shown of the thread at a place.
    fn shown_at(&self, image: &Image, thread: u8, place: &Place) -> ThreadRun
        requires { place.now.taken ≤ length self.now.replies.items }
        ensures { result ≡ run_in (threads_of image.now) thread (life_of place.now.life) place.now.state (drop place.now.taken self.now.replies.items) }
    {
        let (exited, raised) = match place.life {
            Life::Runs => (false, self.fault_at(image, thread, place)),
            Life::Exited => (true, None),
            Life::Trapped(kind) => (false, Some(Exception::Arithmetic(kind))),
        };
        ThreadRun {
            state: place.state,
            exited,
            raised,
        }
    }

    /// The thread after so many instructions.
    pub(crate) fn run(&self, image: &Image, thread: u8, count: u64) -> Option<ThreadRun>
        requires { IsAt image.now thread self.now }
        ensures { result ≡ run_at (threads_of image.now) thread (after_of image.now thread self.now count) }
    {
        let place = self.place_after(image, thread, count)?;
        Some(self.shown_at(image, thread, &place))
    }
}
