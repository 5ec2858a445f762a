// One thread, which makes the references that an order names.
ghost use Rattle.std.specs.Prelude.{◌≡◌, ◌<◌, ◌-◌, ◌^◌, ◌++◌, ◌∷◌, [], ℕ, List, ◌+◌, suc, None, Some, MatchBool, IfSome};
ghost use Rattle.std.specs.Bool.{OnTrue};
ghost use Rattle.image_file.specs.Values.{ImageValue};
ghost use Rattle.vax_form.specs.Tree.{Answer};
ghost use Rattle.vax_driven.specs.Threads.{fault_of, reached, thread_run, wanted};
ghost use Rattle.vax_run.specs.Values.{threads_of};
ghost use Rattle.tie_switch.specs.Interpreted.{step_of};
ghost use Rattle.tie_switch.specs.Known.{AreFound as AreKnown};
ghost use Rattle.stored_runs.specs.Marks.{mark_of};
ghost use Rattle.stored_runs.specs.Stood.{IsMarking, marks_behind};
ghost use Rattle.stored_runs.specs.Threads.{EndsSo, IsAsking, IsAt, IsBegun, stood};

use crate::course::Course;
use crate::marks::Marks;
use image_file::Image;
use tie_switch::{Interpreted, Last, Step};
use vax_driven::ThreadRun;
use vax_form::{Exception, Pending, Reference, VaxState};

/// How a thread goes on from its boundary.
#[derive(Clone, Copy)]
pub(crate) enum Stage {
    /// By what is interpreted, which was not given the reply to its last reference yet.
    Goes(Interpreted, Option<u64>),
    Exited,
    /// An arithmetic trap of this type.
    Trapped(u8),
}

/// A thread at its boundary, the state behind the instructions that it retired. What is shown of it is its state after
/// `count` of them, which is noted where it goes on.
#[derive(Clone, Copy, Drop)]
pub(crate) struct Thread {
    stage: Stage,
    state: VaxState,
    retired: u64,
    count: u64,
    noted: Option<VaxState>,
}

impl Thread {
    /// A thread before its first instruction.
    pub(crate) fn new(image: &Image, thread: u8, start: VaxState, count: u64) -> Thread
        requires starts { (threads_of image.now).start thread ≡ Some start }
        ensures at { IsAt image.now thread [] result }
        ensures retired { result.retired ≡ 0 }
        ensures count { result.count ≡ count }
    {
        Thread {
            stage: Stage::Goes(Interpreted::begin(&start, &image.pages, thread), None),
            state: start,
            retired: 0,
            count,
            noted: None,
        }
    }

    /// Stands at the next boundary. It marks the address where it stood with nothing pending before it came to its count, and notes
    /// its state where it goes on behind its count.
    fn stand(&mut self, state: VaxState, marks: &mut Marks)
        requires few { self.old.retired < 2 ^ 64 - 1 }
        ensures stands { self.new ≡ stood self.old.stage state self.old }
        ensures long { self.old.state.pc < 2 ^ 32 }
        ensures marks { mark_of marks.new ≡ marks_behind self.old (mark_of marks.old) }
    {
        let pc = self.state.pc;
        if self.retired < self.count && matches!(self.state.pending, Pending::Nothing) {
            marks.mark(pc);
        }
        if self.retired == self.count {
            self.noted = Some(self.state);
        }
        self.state = state;
        self.retired += 1;
    }

    /// Begins what it does at its boundary.
    fn begin(&mut self, image: &Image, thread: u8)
        ensures begun { IsBegun image.now thread self.old self.new }
        ensures retired { self.new.retired ≡ self.old.retired }
        ensures count { self.new.count ≡ self.old.count }
    {
        match &mut self.stage {
            Stage::Goes(interpreted, reply) => {
                interpreted.begin_anew(&self.state, &image.pages, thread);
                *reply = None;
            }
            Stage::Exited | Stage::Trapped(_) => {
                let interpreted = Interpreted::begin(&self.state, &image.pages, thread);
                self.stage = Stage::Goes(interpreted, None);
            }
        }
    }

    /// Retires what ended so; false where that was a fault.
    fn arrive(&mut self, image: &Image, thread: u8, marks: &mut Marks, last: Last) -> bool
        requires few { self.old.retired < 2 ^ 64 - 1 }
        ensures at { (replies left : List ℕ) → EndsSo image.now thread replies left self.old last
            → MatchBool result (IsAt image.now thread replies self.new) (reached (threads_of image.now) thread (suc self.old.retired) replies ≡ None) }
        ensures retired { OnTrue result (self.new.retired ≡ self.old.retired + 1) }
        ensures count { self.new.count ≡ self.old.count }
        ensures long { OnTrue result (self.old.state.pc < 2 ^ 32) }
        ensures marks { OnTrue result (mark_of marks.new ≡ marks_behind self.old (mark_of marks.old)) }
    {
        match last {
            Last::Finish(state) => {
                self.stand(state, marks);
                self.begin(image, thread);
                true
            }
            Last::Exit(state) => {
                self.stand(state, marks);
                self.stage = Stage::Exited;
                true
            }
            Last::Trap(kind, state) => {
                self.stand(state, marks);
                self.stage = Stage::Trapped(kind);
                true
            }
            Last::Fault(_) => false,
        }
    }

    /// Retires what it does at its boundary; false where that doesn't retire with the replies that it has.
    fn retire(&mut self, image: &Image, thread: u8, course: &mut Course) -> bool
        requires few { self.old.retired < 2 ^ 64 - 1 }
        requires known { AreKnown image.now.pages course.old.known.items }
        ensures known { AreKnown image.now.pages course.new.known.items }
        ensures at { (replies : List ℕ) → IsAt image.now thread replies self.old
            → MatchBool result (IsAt image.now thread replies self.new) (reached (threads_of image.now) thread (suc self.old.retired) replies ≡ None) }
        ensures retired { OnTrue result (self.new.retired ≡ self.old.retired + 1) }
        ensures count { self.new.count ≡ self.old.count }
        ensures long { OnTrue result (self.old.state.pc < 2 ^ 32) }
        ensures marks { OnTrue result (mark_of course.new.marks ≡ marks_behind self.old (mark_of course.old.marks)) }
    {
        let step = match &mut self.stage {
            Stage::Goes(interpreted, reply) => {
                interpreted.step_by(&image.pages, &mut course.known, reply.take())
            }
            Stage::Exited | Stage::Trapped(_) => return false,
        };
        match step {
            Step::Leaves(last) => self.arrive(image, thread, &mut course.marks, last),
            Step::Wants(_) => false,
        }
    }

    /// The reference that it wants at its boundary.
    fn asks(&mut self, image: &Image, course: &mut Course) -> Option<Reference>
        requires known { AreKnown image.now.pages course.old.known.items }
        ensures known { AreKnown image.now.pages course.new.known.items }
        ensures value { (thread : ℕ) (replies : List ℕ) → IsAt image.now thread replies self.old
            → result ≡ wanted (threads_of image.now) thread self.old.retired replies }
        ensures asking { IfSome result (λ reference. (thread : ℕ) (replies : List ℕ) → IsAt image.now thread replies self.old
            → IsAsking image.now thread replies reference self.new) }
        ensures retired { self.new.retired ≡ self.old.retired }
        ensures count { self.new.count ≡ self.old.count }
        ensures marks { mark_of course.new.marks ≡ mark_of course.old.marks }
    {
        let step = match &mut self.stage {
            Stage::Goes(interpreted, reply) => {
                interpreted.step_by(&image.pages, &mut course.known, reply.take())
            }
            Stage::Exited | Stage::Trapped(_) => return None,
        };
        match step {
            Step::Wants(reference) => Some(reference),
            Step::Leaves(_) => None,
        }
    }

    /// The reference that it wants after so many instructions, with the replies that it has. It then stands there. Before its
    /// boundary it wants none, since all instructions there retired with these replies.
    pub(crate) fn wanted(
        &mut self,
        image: &Image,
        thread: u8,
        course: &mut Course,
        after: u64,
    ) -> Option<Reference>
        requires known { AreKnown image.now.pages course.old.known.items }
        ensures known { AreKnown image.now.pages course.new.known.items }
        ensures value { (replies : List ℕ) → IsAt image.now thread replies self.old
            → result ≡ wanted (threads_of image.now) thread after replies }
        ensures asking { IfSome result (λ reference. (replies : List ℕ) → IsAt image.now thread replies self.old
            → IsAsking image.now thread replies reference self.new) }
        ensures count { self.new.count ≡ self.old.count }
        ensures marks { IfSome result (λ _. (replies : List ℕ) → IsAt image.now thread replies self.old
            → IsMarking image.now thread replies self.old.retired self.new.retired self.old.count (mark_of course.old.marks) (mark_of course.new.marks)) }
    {
        if after < self.retired {
            return None;
        }
        for _ in self.retired..after {
            if !self.retire(image, thread, course) {
                return None;
            }
        }
        self.asks(image, course)
    }

    /// Takes the reply to the reference that it wants.
    pub(crate) fn take(&mut self, reply: u64)
        ensures at { (image : ImageValue) (thread : ℕ) (replies : List ℕ) (reference : Reference) → IsAsking image thread replies reference self.old
            → IsAt image thread (replies ++ reply ∷ []) self.new }
        ensures retired { self.new.retired ≡ self.old.retired }
        ensures count { self.new.count ≡ self.old.count }
    {
        match &mut self.stage {
            Stage::Goes(_, given) => *given = Some(reply),
            Stage::Exited | Stage::Trapped(_) => {}
        }
    }

    /// What is shown of it at its boundary.
    fn shown(&mut self, image: &Image, course: &mut Course) -> ThreadRun
        requires known { AreKnown image.now.pages course.old.known.items }
        ensures known { AreKnown image.now.pages course.new.known.items }
        ensures shown { (thread : ℕ) (replies : List ℕ) → IsAt image.now thread replies self.old
            → thread_run (threads_of image.now) thread self.old.retired replies ≡ Some result }
        ensures marks { mark_of course.new.marks ≡ mark_of course.old.marks }
    {
        let (exited, raised) = match &mut self.stage {
            Stage::Goes(interpreted, reply) => {
                let step = interpreted.step_by(&image.pages, &mut course.known, reply.take());
                (false, fault_in(step))
            }
            Stage::Exited => (true, None),
            Stage::Trapped(kind) => (false, Some(Exception::Arithmetic(*kind))),
        };
        ThreadRun {
            state: self.state,
            exited,
            raised,
        }
    }

    /// The thread after its count of instructions, which it has not gone on behind; None where it doesn't come so far.
    fn run_on(mut self, image: &Image, thread: u8, course: &mut Course) -> Option<ThreadRun>
        requires noted { self.noted ≡ None }
        requires known { AreKnown image.now.pages course.old.known.items }
        ensures known { AreKnown image.now.pages course.new.known.items }
        ensures run { (replies : List ℕ) → IsAt image.now thread replies self
            → result ≡ thread_run (threads_of image.now) thread self.count replies }
        ensures marks { IfSome result (λ _. (replies : List ℕ) → IsAt image.now thread replies self
            → IsMarking image.now thread replies self.retired self.count self.count (mark_of course.old.marks) (mark_of course.new.marks)) }
    {
        for _ in self.retired..self.count {
            if !self.retire(image, thread, course) {
                return None;
            }
        }
        Some(self.shown(image, course))
    }

    /// The thread after its count of instructions; None where it doesn't come so far.
    pub(crate) fn run(self, image: &Image, thread: u8, course: &mut Course) -> Option<ThreadRun>
        requires known { AreKnown image.now.pages course.old.known.items }
        ensures known { AreKnown image.now.pages course.new.known.items }
        ensures run { (replies : List ℕ) → IsAt image.now thread replies self
            → result ≡ thread_run (threads_of image.now) thread self.count replies }
        ensures marks { IfSome result (λ _. (replies : List ℕ) → IsAt image.now thread replies self
            → IsMarking image.now thread replies self.retired self.count self.count (mark_of course.old.marks) (mark_of course.new.marks)) }
    {
        match self.noted {
            Some(state) => Some(ThreadRun {
                state,
                exited: false,
                raised: None,
            }),
            None => self.run_on(image, thread, course),
        }
    }
}

/// The fault that a step comes to.
fn fault_in(step: Step) -> Option<Exception>
    ensures { (a : Answer) → step ≡ step_of a → result ≡ fault_of a }
{
    match step {
        Step::Leaves(Last::Fault(exception)) => Some(exception),
        Step::Wants(_) | Step::Leaves(_) => None,
    }
}
