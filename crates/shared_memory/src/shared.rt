// The table in which the memory lies.
ghost use Rattle.std.specs.Prelude.{◌≡◌, ◌<◌, [], None, true, is_some, length, IfOk};
ghost use Rattle.memory_core.specs.Order.{own};
ghost use Rattle.memory_core.specs.Requests.{CanMake, MatchReply};
ghost use Rattle.memory_core.specs.Seen.{IsNext, IsOver};
ghost use Rattle.shared_memory.specs.Lists.{times};
ghost use Rattle.shared_memory.specs.Views.{Any, HasGiven, HasJoined, IsClosed, IsNone};

use crate::pass::Pass;
use crate::plays::{Choose, End, Make, Order};
use crate::steps::{enter, take_out, win};
use crate::view::View;
use crate::waiting::Waiting;
use crate::way::Way;
use atomic_table::{Refused, Table};
use memory_core::{MemState, Reply, Request};
use std::alloc::Global;
use std::snapshot::Snapshot;
use std::sync::Wait;
use vax_form::WantOfMemory;

/// So many accesses are made at least before the memory is given back to another that waits for it: handing it over takes as long
/// as many of them.
const LEASE: u32 = 64;

/// One memory for all processors.
#[derive(Drop)]
pub struct SharedMemory {
    table: Table<Option<MemState>, View, Snapshot<MemState>, Order, Global>,
    waiting: Waiting,
    ghost sized: { (table.shared.table_id.words ≡ 2) × (table.shared.table_id.slots ≡ 1) },
}

impl SharedMemory {
    ghost use Rattle.shared_memory.specs.Ways.{HasCome, IsWayOf, number_by, seen_by};
    ghost use Rattle.shared_memory.specs.Passes.{start_of, set_up_of, processors_of, view_of, number_of, seen_of, own_of, given_of, ended_of, IsPassOf, IsKeeperOf, IsNew};

    /// Shares a memory that has no entries. The pass is the keeper.
    pub fn new(alloc: Global, state: MemState) -> Result<(SharedMemory, Pass), WantOfMemory>
        requires { state.history ≡ [] }
        ensures { IfOk result (λ r. (start_of r.0 ≡ state) × IsKeeperOf r.0 r.1 × IsNew r.1) }
    {
        let start = Snapshot::of(&state);
        let mut slots = Vec::with_capacity(alloc, 1)?;
        slots.push_reserved(Some(state));
        match Table::new(alloc, &[0, 0], slots, &start) {
            Ok((table, seat)) => {
                let waiting = Waiting::new();
                Ok((SharedMemory { table, waiting }, Pass { seat }))
            }
            Err(Refused { slots: _ }) => Err(WantOfMemory),
        }
    }

    /// A pass for a processor that had none before. It has seen what the keeper has.
    pub fn split(&self, keeper: &mut Pass, processor: u8) -> Pass
        requires keeper { IsKeeperOf self.now keeper.old }
        requires processor { processor < processors_of self.now }
        requires fresh { times processor (given_of keeper.old) ≡ 0 }
        ensures keeper { IsKeeperOf self.now keeper.new }
        ensures given { HasGiven processor (view_of keeper.old) (view_of keeper.new) }
        ensures pass { IsPassOf self.now processor result }
        ensures seen { seen_of result ≡ seen_of keeper.old }
        ensures own { own_of result ≡ [] }
        ensures none { own processor (seen_of result) ≡ [] }
    {
        let number = u64::from(processor);
        let shared = &self.table.shared;
        shared.compare_exchange::<Choose>(&mut keeper.seat, 0, number, number);
        let seat = shared.split_seat::<Make>(&mut keeper.seat);
        Pass { seat }
    }

    // Takes the memory where the processor doesn't have it. It may wait for the others' accesses.
    #[inline(always)]
    fn take<R: Wait>(&self, rt: &R, way: &mut Way)
        requires { IsWayOf self.now (number_by way.old) way.old }
        ensures way { IsWayOf self.now (number_by way.old) way.new }
        ensures number { number_by way.new ≡ number_by way.old }
        ensures held { is_some way.new.whole ≡ true }
        ensures come { HasCome (number_by way.old) (seen_by way.old) (seen_by way.new) }
    {
        if way.whole.is_none() {
            let shared = &self.table.shared;
            win(rt, shared, &self.waiting, &mut way.seat);
            way.whole = Some(take_out(shared, &mut way.seat));
            way.made = 0;
        }
    }

    // Makes one access to the memory that the processor has.
    #[inline(always)]
    fn access_taken(&self, way: &mut Way, request: &Request) -> Reply
        requires way { IsWayOf self.now request.now.processor way.old }
        requires held { is_some way.old.whole ≡ true }
        requires request { CanMake (set_up_of self.now) request.now }
        ensures way { IsWayOf self.now request.now.processor way.new }
        ensures reply { MatchReply result
            (λ before success. IsNext (set_up_of self.now) IsNone request.now before success (seen_by way.old) (seen_by way.new))
            (IsOver (set_up_of self.now) IsNone request.now (seen_by way.old) (seen_by way.new)) }
    {
        way.made = way.made.saturating_add(1);
        match &mut way.whole {
            Some(state) => state.access(request),
            None => unreachable!(),
        }
    }

    /// Gives the memory back, where the processor has it.
    pub fn give_back(&self, way: &mut Way)
        requires { IsWayOf self.now (number_by way.old) way.old }
        ensures way { IsWayOf self.now (number_by way.old) way.new }
        ensures number { number_by way.new ≡ number_by way.old }
        ensures home { way.new.whole ≡ None }
        ensures seen { seen_by way.new ≡ seen_by way.old }
    {
        if let Some(state) = way.whole.take() {
            enter(&self.table.shared, &self.waiting, &mut way.seat, state);
        }
    }

    /// Gives the memory back, where another processor waits for it.
    #[inline(always)]
    pub fn share(&self, way: &mut Way)
        requires { IsWayOf self.now (number_by way.old) way.old }
        ensures way { IsWayOf self.now (number_by way.old) way.new }
        ensures number { number_by way.new ≡ number_by way.old }
        ensures seen { seen_by way.new ≡ seen_by way.old }
    {
        if self.waiting.is_any() {
            self.give_back(way);
        }
    }

    /// Makes one access, or answers `Full` where it counts against the limit and that is reached. It takes no memory from the
    /// allocator. Where the processor doesn't have the memory it takes it, for which it may wait, and entries of other processors that were made since
    /// come before its own; it keeps the memory until another waits.
    #[inline(always)]
    pub fn access<R: Wait>(&self, rt: &R, way: &mut Way, request: &Request) -> Reply
        requires way { IsWayOf self.now request.now.processor way.old }
        requires request { CanMake (set_up_of self.now) request.now }
        ensures way { IsWayOf self.now request.now.processor way.new }
        ensures reply { MatchReply result
            (λ before success. IsNext (set_up_of self.now) Any request.now before success (seen_by way.old) (seen_by way.new))
            (IsOver (set_up_of self.now) Any request.now (seen_by way.old) (seen_by way.new)) }
    {
        self.take(rt, way);
        let reply = self.access_taken(way, request);
        if way.made >= LEASE {
            self.share(way);
        }
        reply
    }

    /// The pass of a way, behind which the memory is back.
    pub fn pass_of(&self, mut way: Way) -> Pass
        requires { IsWayOf self.now (number_by way) way }
        ensures pass { IsPassOf self.now (number_by way) result }
        ensures seen { seen_of result ≡ seen_by way }
    {
        self.give_back(&mut way);
        let Way { seat, .. } = way;
        Pass { seat }
    }

    /// Ends a pass. The keeper keeps its number, what it has seen and its own entries.
    pub fn join(&self, keeper: &mut Pass, other: Pass)
        requires keeper { IsKeeperOf self.now keeper.old }
        requires other { IsPassOf self.now (number_of other) other }
        ensures keeper { IsKeeperOf self.now keeper.new }
        ensures joined { HasJoined (view_of other) (view_of keeper.old) (view_of keeper.new) }
        ensures own { own_of other ≡ own (number_of other) (seen_of other) }
    {
        let Pass { seat } = other;
        self.table.shared.join_seat::<End>(&mut keeper.seat, seat);
    }

    /// The memory, once each pass is joined.
    pub fn close(self, keeper: Pass) -> MemState
        requires keeper { IsKeeperOf self keeper }
        requires joined { length (given_of keeper) ≡ length (ended_of keeper) }
        ensures { IsClosed (start_of self) (view_of keeper) result }
    {
        let SharedMemory { table, waiting: _ } = self;
        let Pass { seat } = keeper;
        let mut closed = table.close_with(seat);
        let whole = closed.take(0);
        closed.free();
        whole.unwrap()
    }
}
