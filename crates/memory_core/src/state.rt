// The memory of an image, its input and output, and the history of all accesses.
ghost use Rattle.std.specs.Prelude.{◌≡◌, ◌<◌, ℕ, Some, true, is_some, reverse, ◌↔◌, ◌%◌, IfOk, IfSome, IsSome};
ghost use Rattle.image_file.specs.Whole.{IsWhole};
ghost use Rattle.memory_core.specs.Limits.{counts, IsAtLimit, IsWithin, KeepsEntries};
ghost use Rattle.memory_core.specs.Order.{Meets};
ghost use Rattle.memory_core.specs.Contents.{fresh, output_of, byte_left, Appends};
ghost use Rattle.memory_core.specs.Places.{is_page, page_place};
ghost use Rattle.memory_core.specs.Requests.{CanMake, MatchReply};

use crate::entry::{Entry, Limit, Reply, Request};
use crate::held::Held;
use image_file::Image;
use std::alloc::Global;
use std::marker::Model;
use vax_form::WantOfMemory;

/// The memory of an image's pages, its input and output. Contracts see its set-up, the number of its processors and the history of all
/// accesses. Its entries are kept where the limit counts them; else the history takes no memory.
#[derive(Drop)]
pub struct MemState {
    held: Held,
}

impl Model for MemState {
    ghost use Rattle.std.specs.Prelude.{◌≡◌};
    ghost use Rattle.memory_core.specs.Contents.{Contents};

    ghost Value = { Contents };

    ghost view = { λ m. m.held.contents };

    ghost invariant = { λ m. m.held.sent ≡ 0 };
}

impl MemState {
    /// A memory that holds the image's pages, with no entries. It has room for all output, and for all entries where the limit
    /// counts them, so that no access takes memory. Each `miss`-th store conditional of a processor fails, and none for that
    /// reason where `miss` is 0.
    pub fn new(
        alloc: Global,
        image: &Image,
        input: Vec<u8>,
        processors: u8,
        limit: Limit,
        miss: u16,
    ) -> Result<MemState, WantOfMemory>
        requires { IsWhole image.now }
        ensures { IfOk result (λ m. m ≡ fresh image.now input.items processors limit miss) }
    {
        let held = Held::new(alloc, image, input, processors, limit, miss)?;
        Ok(MemState { held })
    }

    /// Makes one access, or answers `Full` where it counts against the limit and that is reached. It takes no memory.
    #[inline(always)]
    pub fn access(&mut self, request: &Request) -> Reply
        requires processor { request.now.processor < self.old.processors }
        requires request { CanMake self.old.set_up request.now }
        ensures full { (result ≡ Reply.Full) ↔ ((counts self.old.set_up.limit request.now.kind ≡ true) × IsAtLimit self.old.set_up.limit self.old.history) }
        ensures reply { MatchReply result (Appends self.old self.new request.now) (self.new ≡ self.old) }
        ensures order { Meets self.new.set_up (reverse self.new.history) }
        ensures room { IsWithin self.new.set_up.limit self.new.history }
    {
        self.held.access(request)
    }

    /// The entries in order, oldest first; None where the limit doesn't count them, and proofs alone keep them.
    pub fn history(&self) -> Option<&[Entry]>
        ensures kept { IsSome result ↔ KeepsEntries self.now.set_up.limit }
        ensures value { IfSome result (λ entries. entries.now ≡ self.now.history) }
        ensures order { Meets self.now.set_up (reverse self.now.history) }
        ensures limit { IsWithin self.now.set_up.limit self.now.history }
    {
        self.held.history()
    }

    /// The bytes that were put, in order.
    pub fn output(&self) -> &[u8]
        ensures { result.now ≡ output_of self.now.history }
    {
        self.held.output()
    }

    /// The byte at an address now, where the image has its page.
    pub fn byte(&self, address: u32) -> Option<u8>
        ensures { result ≡ byte_left self.now.set_up self.now.history address }
    {
        self.held.byte(address)
    }

    /// The number of a page's first quadword among the memory's quadwords, a multiple of 64; None where the image doesn't
    /// have the page. Each page has a place of its own.
    pub fn page_place(&self, page: u32) -> Option<u32>
        ensures place { result ≡ page_place self.now.set_up.image.pages.ranges page }
        ensures pages { is_some result ≡ is_page self.now.set_up.image.pages.ranges page }
        ensures multiple { IfSome result (λ place. place % 64 ≡ 0) }
        ensures own { IfSome result (λ place. (other : ℕ) → page_place self.now.set_up.image.pages.ranges other ≡ Some place → other ≡ page) }
    {
        self.held.page_place(page)
    }
}
