// A thread's way to a shared memory, as a memory.
ghost use Rattle.std.specs.Prelude.{◌≡◌, ◌+◌, ◌-◌, ◌^◌, min};
ghost use Rattle.memory_core.specs.Requests.{CanMake, MatchReply};
ghost use Rattle.memory_core.specs.Seen.{IsNext, IsOver};
ghost use Rattle.shared_memory.specs.Passes.{IsPassOf, number_of, seen_of, set_up_of};
ghost use Rattle.shared_memory.specs.Views.{Any};
ghost use Rattle.shared_memory.specs.Ways.{IsWayOf, number_by, seen_by};

use crate::pass::Pass;
use crate::shared::SharedMemory;
use crate::way::Way;
use memory_core::{Memory, Reply, Request};
use std::sync::Wait;
use vt_outside::Gate;

/// One processor's way to the shared memory: a memory as a processor needs it. `asked` counts the accesses that it has
/// asked for; at the greatest number it stays.
#[derive(Drop)]
pub struct Port<'a, R: Wait, G: Gate> {
    pub rt: &'a R,
    pub memory: &'a SharedMemory,
    pub way: Way,
    pub gate: &'a G,
    pub asked: u64,
}

impl<'a, R: Wait, G: Gate> Port<'a, R, G> {
    /// The way of a pass.
    pub fn new(rt: &'a R, memory: &'a SharedMemory, pass: Pass, gate: &'a G) -> Port<'a, R, G>
        requires { IsPassOf memory.now (number_of pass) pass }
        ensures memory { result.memory.now ≡ memory.entry.now }
        ensures asked { result.asked ≡ 0 }
        ensures way { IsWayOf memory.entry.now (number_of pass) result.way }
        ensures seen { seen_by result.way ≡ seen_of pass }
    {
        let way = Way::of(pass);
        Port {
            rt,
            memory,
            way,
            gate,
            asked: 0,
        }
    }

    /// Passes the gate, and then makes one access. Where the gate may hold the processor, it gives the memory back first.
    #[inline(always)]
    pub fn access(&mut self, request: &Request) -> Reply
        requires way { IsWayOf self.old.memory.now request.now.processor self.old.way }
        requires request { CanMake (set_up_of self.old.memory.now) request.now }
        ensures asked { self.new.asked ≡ min (self.old.asked + 1) (2 ^ 64 - 1) }
        ensures memory { self.new.memory ≡ self.old.memory }
        ensures gate { self.new.gate ≡ self.old.gate }
        ensures way { IsWayOf self.old.memory.now request.now.processor self.new.way }
        ensures reply { MatchReply result
            (λ before success. IsNext (set_up_of self.old.memory.now) Any request.now before success (seen_by self.old.way) (seen_by self.new.way))
            (IsOver (set_up_of self.old.memory.now) Any request.now (seen_by self.old.way) (seen_by self.new.way)) }
    {
        if self.gate.may_hold() {
            self.memory.give_back(&mut self.way);
        }
        self.gate.before(request.processor, self.asked);
        self.asked = self.asked.saturating_add(1);
        self.memory.access(self.rt, &mut self.way, request)
    }

    /// Gives the memory back, where another processor waits for it.
    pub fn share(&mut self)
        requires { IsWayOf self.old.memory.now (number_by self.old.way) self.old.way }
        ensures memory { self.new.memory ≡ self.old.memory }
        ensures gate { self.new.gate ≡ self.old.gate }
        ensures asked { self.new.asked ≡ self.old.asked }
        ensures way { IsWayOf self.old.memory.now (number_by self.old.way) self.new.way }
        ensures number { number_by self.new.way ≡ number_by self.old.way }
        ensures seen { seen_by self.new.way ≡ seen_by self.old.way }
    {
        self.memory.share(&mut self.way);
    }

    /// The pass, behind which the memory is back.
    pub fn end(self) -> Pass
        requires { IsWayOf self.memory.now (number_by self.way) self.way }
        ensures pass { IsPassOf self.entry.memory.now (number_by self.entry.way) result }
        ensures seen { seen_of result ≡ seen_by self.entry.way }
    {
        let Port { memory, way, .. } = self;
        memory.pass_of(way)
    }
}

impl<'a, R: Wait, G: Gate> Memory for Port<'a, R, G> {
    ghost use Rattle.std.specs.Prelude.{◌≡◌, ℕ, List};
    ghost use Rattle.shared_memory.specs.Passes.{set_up_of};
    ghost use Rattle.shared_memory.specs.Views.{Any};
    ghost use Rattle.shared_memory.specs.Ways.{IsWayOf, number_by, seen_by};

    ghost set_up = { λ p. set_up_of p.memory.now };

    ghost serves = { λ p n. IsWayOf p.memory.now n p.way };

    ghost same = { λ p q. (q.memory ≡ p.memory) × (number_by q.way ≡ number_by p.way) };

    ghost between = { λ _ entries. Any entries };

    ghost seen = { λ p. seen_by p.way };

    fn access(&mut self, request: &Request) -> Reply {
        self.access(request)
    }
}
