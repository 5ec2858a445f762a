// What a memory holds, whether its input is there from the start or is given while it runs.
ghost use Rattle.std.specs.Prelude.{◌≡◌, ◌<◌, ◌≤◌, ◌-◌, ◌^◌, ◌==◌, ◌&&◌, ◌++◌, ◌∷◌, [], ◌↔◌, ◌%◌, ℕ, Some, true, false, is_some, drop, reverse, vec_capacity, vec_len, IfOk, IfSome, IsSome};
ghost use Rattle.image_file.specs.Whole.{IsWhole};
ghost use Rattle.vax_form.specs.Pages.{is_allowed};
ghost use Rattle.memory_core.specs.Kinds.{is_memory};
ghost use Rattle.memory_core.specs.Limits.{counts, counted, greatest, CountsPuts, IsAtLimit, IsWithin, KeepsEntries};
ghost use Rattle.memory_core.specs.Order.{found, succeeds, input_at, gets, Fits, Meets};
ghost use Rattle.memory_core.specs.Contents.{fresh, entry_for, output_of, bytes_put, quad_left, byte_left, Appends};
ghost use Rattle.memory_core.specs.Live.{wants_input, given, emptied};
ghost use Rattle.memory_core.specs.Fields.{kept_of, next_taken};
ghost use Rattle.memory_core.specs.Places.{is_page, page_place};
ghost use Rattle.memory_core.specs.Requests.{CanMake, MatchReply};

use crate::change::left;
use crate::entry::{Entry, Kind, Limit, Reply, Request};
use crate::index::PageIndex;
use crate::page::{opening_quads, store};
use crate::reservation::{Reservation, note};
use crate::told::{Told, ToldBytes};
use image_file::Image;
use std::alloc::Global;
use std::marker::Model;
use std::snapshot::Snapshot;
use vax_form::WantOfMemory;

/// An image's pages, the input from the first byte that was not let go on, and the output from the first byte that was not sent on.
/// Entries are kept where the limit counts them; else the history takes no memory.
#[derive(Drop)]
pub(crate) struct Held {
    image: Snapshot<Image>,
    behind: ToldBytes,
    input: Vec<u8>,
    limit: Limit,
    miss: u16,
    index: PageIndex,
    quads: Vec<u64>,
    reservations: Vec<Reservation>,
    taken: usize,
    sent: u64,
    output: Vec<u8>,
    kept: Vec<Entry>,
    history: Told,
}

impl Model for Held {
    ghost use Rattle.memory_core.specs.Held.{Holding};

    ghost Value = { Holding };

    ghost use Rattle.memory_core.specs.Sound.{holding_of, IsSound};

    ghost view = { holding_of };

    ghost invariant = { IsSound };
}

// How many of so many bytes of input were asked for, once one more is; one more than there are stands for any more.
fn next_taken(taken: usize, count: usize) -> usize
    requires { count < 2 ^ 64 - 1 }
    ensures { result ≡ next_taken count taken }
{
    if taken <= count { taken + 1 } else { taken }
}

// Appends an entry to those that are kept, where the limit counts entries.
#[inline(always)]
fn keep(kept: &mut Vec<Entry>, limit: Limit, entry: &Entry)
    requires { KeepsEntries limit → vec_len kept.old < vec_capacity kept.old }
    ensures entries { kept.new.items ≡ kept.old.items ++ kept_of limit (entry.now ∷ []) }
    ensures room { vec_capacity kept.new ≡ vec_capacity kept.old }
{
    if let Limit::Entries(_) = limit {
        kept.push_reserved(*entry);
    }
}

impl Held {
    pub(crate) fn new(
        alloc: Global,
        image: &Image,
        input: Vec<u8>,
        processors: u8,
        limit: Limit,
        miss: u16,
    ) -> Result<Held, WantOfMemory>
        requires { IsWhole image.now }
        ensures contents { IfOk result (λ m. m.contents ≡ fresh image.now input.items processors limit miss) }
        ensures sent { IfOk result (λ m. m.sent ≡ 0) }
        ensures input_room { IfOk result (λ m. m.input_room ≡ vec_capacity input) }
        ensures output_room { IfOk result (λ m. m.output_room ≡ greatest limit) }
    {
        let index = PageIndex::new(alloc, &image.pages)?;
        let quads = opening_quads(alloc, image)?;
        let reservations = vec![in alloc; Reservation::NONE; processors as usize]?;
        let output = Vec::with_capacity(alloc, limit.greatest() as usize)?;
        let kept = Vec::with_capacity(alloc, limit.most_kept() as usize)?;
        Ok(Held {
            image: Snapshot::of(image),
            behind: ToldBytes::nothing(),
            input,
            limit,
            miss,
            index,
            quads,
            reservations,
            taken: 0,
            sent: 0,
            output,
            kept,
            history: Told::nothing(),
        })
    }

    /// Makes one access, or answers `Full` where it counts against the limit and that is reached. It takes no memory.
    #[inline(always)]
    pub(crate) fn access(&mut self, request: &Request) -> Reply
        requires processor { request.now.processor < self.old.contents.processors }
        requires request { CanMake self.old.contents.set_up request.now }
        ensures full { (result ≡ Reply.Full) ↔ ((counts self.old.contents.set_up.limit request.now.kind ≡ true) × IsAtLimit self.old.contents.set_up.limit self.old.contents.history) }
        ensures reply { MatchReply result (Appends self.old.contents self.new.contents request.now) (self.new.contents ≡ self.old.contents) }
        ensures rest { self.new ≡ record self.old { contents = self.new.contents } }
        ensures order { Meets self.new.contents.set_up (reverse self.new.contents.history) }
        ensures room { IsWithin self.new.contents.set_up.limit self.new.contents.history }
    {
        if self.has_no_room(request.kind) {
            return Reply::Full;
        }
        let entry = self.next_entry(request);
        self.enter(&entry);
        Reply::Made {
            before: entry.before,
            success: entry.success,
        }
    }

    /// The entries in order, oldest first; None where the limit doesn't count them, and proofs alone keep them.
    pub(crate) fn history(&self) -> Option<&[Entry]>
        ensures kept { IsSome result ↔ KeepsEntries self.now.contents.set_up.limit }
        ensures value { IfSome result (λ entries. entries.now ≡ self.now.contents.history) }
        ensures order { Meets self.now.contents.set_up (reverse self.now.contents.history) }
        ensures limit { IsWithin self.now.contents.set_up.limit self.now.contents.history }
    {
        match self.limit {
            Limit::Entries(_) => Some(self.kept.as_slice()),
            Limit::Puts(_) => None,
        }
    }

    /// The bytes that were put and not sent on, in order.
    pub(crate) fn output(&self) -> &[u8]
        ensures unsent { result.now ≡ drop self.now.sent (output_of self.now.contents.history) }
        ensures sent { self.now.sent ≤ bytes_put self.now.contents.history }
    {
        self.output.as_slice()
    }

    /// The byte at an address now, where the image has its page.
    pub(crate) fn byte(&self, address: u32) -> Option<u8>
        ensures { result ≡ byte_left self.now.contents.set_up self.now.contents.history address }
    {
        let quad = self.quad(address)?;
        Some(quad.to_le_bytes()[address as usize % 8])
    }

    /// The number of a page's first quadword among the memory's quadwords, a multiple of 64; None where the image doesn't
    /// have the page. Each page has a place of its own.
    pub(crate) fn page_place(&self, page: u32) -> Option<u32>
        ensures place { result ≡ page_place self.now.contents.set_up.image.pages.ranges page }
        ensures pages { is_some result ≡ is_page self.now.contents.set_up.image.pages.ranges page }
        ensures multiple { IfSome result (λ place. place % 64 ≡ 0) }
        ensures own { IfSome result (λ place. (other : ℕ) → page_place self.now.contents.set_up.image.pages.ranges other ≡ Some place → other ≡ page) }
    {
        self.index.page_place(page)
    }

    // Whether an access of the kind is one more than the limit allows.
    #[inline(always)]
    fn has_no_room(&self, kind: Kind) -> bool
        ensures full { result ≡ counts self.now.contents.set_up.limit kind && (counted self.now.contents.set_up.limit self.now.contents.history == greatest self.now.contents.set_up.limit) }
        ensures order { Meets self.now.contents.set_up (reverse self.now.contents.history) }
        ensures within { IsWithin self.now.contents.set_up.limit self.now.contents.history }
    {
        match self.limit {
            Limit::Entries(most) => self.kept.len() == most as usize,
            Limit::Puts(most) => kind.is_put() && self.bytes_put() == most,
        }
    }

    /// Whether as many bytes were put as may be.
    pub(crate) fn is_full(&self) -> bool
        ensures { result ≡ (bytes_put self.now.contents.history == greatest self.now.contents.set_up.limit) }
    {
        self.bytes_put() == self.limit.greatest()
    }

    // How many bytes were put.
    fn bytes_put(&self) -> u64
        ensures { result ≡ bytes_put self.now.contents.history }
    {
        self.sent + self.output.len() as u64
    }

    // The quadword that has the byte at an address, now.
    #[inline(always)]
    fn quad(&self, address: u32) -> Option<u64>
        ensures { result ≡ quad_left self.now.contents.set_up self.now.contents.history address }
    {
        let place = self.index.quad_place(address)?;
        Some(self.quads[place])
    }

    /// Whether all input was read, and a GET never found the end.
    pub(crate) fn wants_input(&self) -> bool
        ensures { result ≡ wants_input self.now.contents }
    {
        self.taken == self.input.len()
    }

    /// Lets the input that was read go, and takes one byte more.
    pub(crate) fn give(&mut self, byte: u8)
        requires read { wants_input self.old.contents ≡ true }
        requires room { 1 ≤ self.old.input_room }
        ensures { self.new ≡ record self.old { contents = given byte self.old.contents } }
    {
        self.behind = ToldBytes::and(&self.behind, self.input.as_slice());
        self.input.clear();
        self.input.push_reserved(byte);
        self.taken = 0;
    }

    /// Sends all output on, so that `buffer` bytes more may be put.
    pub(crate) fn send(&mut self, buffer: u32)
        requires puts { CountsPuts self.old.contents.set_up.limit }
        requires room { buffer ≤ self.old.output_room }
        ensures sent { self.new ≡ record self.old { contents = emptied buffer self.old.contents; sent = bytes_put self.old.contents.history } }
        ensures more { self.old.sent ≤ bytes_put self.old.contents.history }
    {
        self.sent = self.bytes_put();
        self.output.clear();
        self.limit = Limit::Puts(self.sent.saturating_add(u64::from(buffer)));
    }

    // The next input byte, or minus 1 as a longword.
    fn next_input(&self) -> u64
        ensures { result ≡ input_at self.now.contents.set_up.input (gets (reverse self.now.contents.history)) }
    {
        match self.input.get(self.taken) {
            Some(byte) => u64::from(*byte),
            None => 0xffff_ffff,
        }
    }

    // What the access finds.
    #[inline(always)]
    fn found(&self, request: &Request) -> u64
        requires { CanMake self.now.contents.set_up request.now }
        ensures { result ≡ found self.now.contents.set_up (reverse self.now.contents.history) request.now.kind request.now.quad }
    {
        match request.kind {
            Kind::Put => 0,
            Kind::Get => self.next_input(),
            _ => self.quad(request.quad).unwrap(),
        }
    }

    // Whether the access succeeds.
    #[inline(always)]
    fn succeeds(&self, request: &Request) -> bool
        requires { request.now.processor < self.now.contents.processors }
        ensures { result ≡ succeeds self.now.contents.set_up (reverse self.now.contents.history) request.now.processor request.now.kind request.now.quad }
    {
        if request.kind.is_conditional() {
            let own = self.reservations[request.processor as usize];
            return own.may_store(request.quad / 16, self.miss);
        }
        true
    }

    // The entry that the order of accesses gives for the request.
    #[inline(always)]
    fn next_entry(&self, request: &Request) -> Entry
        requires processor { request.now.processor < self.now.contents.processors }
        requires request { CanMake self.now.contents.set_up request.now }
        ensures { result ≡ entry_for self.now.contents.set_up self.now.contents.history request.now }
    {
        let before = self.found(request);
        let success = self.succeeds(request);
        Entry {
            retired: request.retired,
            before,
            after: left(request.kind, success, request.change, before),
            quad: if request.kind.is_memory() {
                request.quad
            } else {
                0
            },
            processor: request.processor,
            kind: request.kind,
            success,
        }
    }

    // Appends an entry, and does what it says.
    #[inline(always)]
    fn enter(&mut self, entry: &Entry)
        requires processor { entry.now.processor < self.old.contents.processors }
        requires fits { Fits self.old.contents.set_up (reverse self.old.contents.history) entry.now }
        requires aligned { is_memory entry.now.kind ≡ true → entry.now.quad % 8 ≡ 0 }
        requires page { is_memory entry.now.kind ≡ true → is_allowed self.old.contents.set_up.image.pages entry.now.quad false ≡ true }
        requires room { counts self.old.contents.set_up.limit entry.now.kind ≡ true → counted self.old.contents.set_up.limit self.old.contents.history < greatest self.old.contents.set_up.limit }
        ensures { self.new ≡ record self.old { contents = record self.old.contents { history = self.old.contents.history ++ entry.now ∷ [] } } }
    {
        keep(&mut self.kept, self.limit, entry);
        match entry.kind {
            Kind::Put => self.output.push_reserved(entry.after.to_le_bytes()[0]),
            Kind::Get => self.taken = next_taken(self.taken, self.input.len()),
            _ => store(&self.index, &mut self.quads, entry.quad, entry.after),
        }
        note(&mut self.reservations, entry, self.miss);
        self.history = Told::and(&self.history, entry);
    }
}
