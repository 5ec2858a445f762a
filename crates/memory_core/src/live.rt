// The memory of one processor whose input is given, and whose output is sent, while it runs.
ghost use Rattle.std.specs.Prelude.{◌≡◌, ◌<◌, ◌≤◌, ◌==◌, true, reverse, ◌↔◌, IfOk};
ghost use Rattle.image_file.specs.Whole.{IsWhole};
ghost use Rattle.memory_core.specs.Limits.{counts, greatest, CountsPuts, IsAtLimit, IsWithin};
ghost use Rattle.memory_core.specs.Order.{Meets};
ghost use Rattle.memory_core.specs.Contents.{bytes_put, byte_left, Appends};
ghost use Rattle.memory_core.specs.Live.{begun, wants_input, given, unsent, all_sent, GoesOn};
ghost use Rattle.memory_core.specs.Requests.{CanMake, MatchReply};

use crate::entry::{Limit, Reply, Request};
use crate::held::Held;
use image_file::Image;
use std::alloc::Global;
use std::marker::Model;
use vax_form::WantOfMemory;

/// The memory of an image's pages for one processor. It keeps a byte of input at most, and so many bytes of output as its buffer has,
/// and proofs alone keep its history. Contracts see what they see of `MemState`, and how many bytes of the output were sent.
#[derive(Drop)]
pub struct LiveState {
    held: Held,
    buffer: u32,
}

impl Model for LiveState {
    ghost use Rattle.memory_core.specs.Live.{LiveContents};

    ghost Value = { LiveContents };

    ghost use Rattle.memory_core.specs.LiveFields.{live_of, IsLive};

    ghost view = { live_of };

    ghost invariant = { IsLive };
}

impl LiveState {
    /// A memory that holds the image's pages, with no entries and no input. It takes no memory behind this.
    pub fn new(
        alloc: Global,
        image: &Image,
        buffer: u32,
        miss: u16,
    ) -> Result<LiveState, WantOfMemory>
        requires { IsWhole image.now }
        ensures { IfOk result (λ m. m ≡ begun image.now buffer miss) }
    {
        let input = Vec::with_capacity(alloc, 1)?;
        let held = Held::new(alloc, image, input, 1, Limit::Puts(u64::from(buffer)), miss)?;
        Ok(LiveState { held, buffer })
    }

    /// Makes one access, or answers `Full` where a PUT finds the buffer full.
    pub fn access(&mut self, request: &Request) -> Reply
        requires processor { request.now.processor < self.old.contents.processors }
        requires request { CanMake self.old.contents.set_up request.now }
        ensures full { (result ≡ Reply.Full) ↔ ((counts self.old.contents.set_up.limit request.now.kind ≡ true) × IsAtLimit self.old.contents.set_up.limit self.old.contents.history) }
        ensures reply { MatchReply result (Appends self.old.contents self.new.contents request.now) (self.new.contents ≡ self.old.contents) }
        ensures rest { self.new ≡ record self.old { contents = self.new.contents } }
        ensures order { Meets self.new.contents.set_up (reverse self.new.contents.history) }
        ensures room { IsWithin self.new.contents.set_up.limit self.new.contents.history }
    {
        self.held.access(request)
    }

    /// Whether a GET would find no byte, and none was answered so yet.
    pub fn wants_input(&self) -> bool
        ensures { result ≡ wants_input self.now.contents }
    {
        self.held.wants_input()
    }

    /// Gives the byte that the next GET finds.
    pub fn give(&mut self, byte: u8)
        requires { wants_input self.old.contents ≡ true }
        ensures given { self.new ≡ record self.old { contents = given byte self.old.contents } }
        ensures goes_on { GoesOn (reverse self.old.contents.history) self.old.contents.set_up self.new.contents.set_up }
    {
        self.held.give(byte);
    }

    /// The bytes that were put and not sent, in order.
    pub fn output(&self) -> &[u8]
        ensures unsent { result.now ≡ unsent self.now }
        ensures sent { self.now.sent ≤ bytes_put self.now.contents.history }
    {
        self.held.output()
    }

    /// Whether the buffer has no room for a PUT.
    pub fn is_full(&self) -> bool
        ensures full { result ≡ (bytes_put self.now.contents.history == greatest self.now.contents.set_up.limit) }
        ensures puts { CountsPuts self.now.contents.set_up.limit }
    {
        self.held.is_full()
    }

    /// Says that all output was sent, which empties the buffer.
    pub fn send(&mut self)
        ensures sent { self.new ≡ all_sent self.old }
        ensures goes_on { GoesOn (reverse self.old.contents.history) self.old.contents.set_up self.new.contents.set_up }
    {
        self.held.send(self.buffer);
    }

    /// The byte at an address now, where the image has its page.
    pub fn byte(&self, address: u32) -> Option<u8>
        ensures { result ≡ byte_left self.now.contents.set_up self.now.contents.history address }
    {
        self.held.byte(address)
    }
}
