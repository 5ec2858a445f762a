// What a processor needs of a memory.
ghost use Rattle.std.specs.Prelude.{◌≡◌, ◌↔◌};
ghost use Rattle.memory_core.specs.Requests.{CanMake, MatchReply};
ghost use Rattle.memory_core.specs.Seen.{IsNext, IsOver};

use crate::entry::{Reply, Request, SetUp};
use crate::live::LiveState;
use crate::state::MemState;

/// A memory, or one processor's way to it. What it has seen are the first entries of the memory's history.
pub trait Memory {
    ghost use Rattle.std.specs.Prelude.{◌≡◌, ℕ, List};
    ghost use Rattle.memory_core.specs.declared.entry.SetUp.{SetUp};
    ghost use Rattle.memory_core.specs.declared.entry.Entry.{Entry};

    ghost set_up: { Self → SetUp };
    // The processors that it serves.
    ghost serves: { Self → ℕ → Type 0 };
    // The second is a way of the first's processors to the first's memory.
    ghost same: { Self → Self → Type 0 };
    // The entries of others that may come between two of its accesses.
    ghost between: { Self → List Entry → Type 0 };

    ghost seen: { Self → List Entry };

    /// Makes one access. Other processors may have made theirs before it.
    fn access(&mut self, request: &Request) -> Reply
        requires processor { serves self.old request.now.processor }
        requires request { CanMake (set_up self.old) request.now }
        ensures set_up { set_up self.new ≡ set_up self.old }
        ensures place { same self.old self.new }
        ensures serves { (p : ℕ) → serves self.old p ↔ serves self.new p }
        ensures reply { MatchReply result
            (λ before success. IsNext (set_up self.old) (between self.old) request.now before success (seen self.old) (seen self.new))
            (IsOver (set_up self.old) (between self.old) request.now (seen self.old) (seen self.new)) };
}

// A memory of one owner, where no entries of others come between.
impl Memory for MemState {
    ghost use Rattle.std.specs.Prelude.{◌≡◌, ◌<◌, ℕ, List, []};
    ghost use Rattle.memory_core.specs.declared.entry.Entry.{Entry};

    ghost set_up = { λ m. m.set_up };

    ghost serves = { λ m p. p < m.processors };

    ghost same = { λ m n. (n.set_up ≡ m.set_up) × (n.processors ≡ m.processors) };

    ghost between = { λ _ entries. entries ≡ [] };

    ghost seen = { λ m. m.history };

    #[inline(always)]
    fn access(&mut self, request: &Request) -> Reply {
        self.access(request)
    }
}

// So is a memory whose input is given while it runs: the set-up stays in each access.
impl Memory for LiveState {
    ghost use Rattle.std.specs.Prelude.{◌≡◌, ◌<◌, ℕ, List, []};
    ghost use Rattle.memory_core.specs.declared.entry.Entry.{Entry};

    ghost set_up = { λ m. m.contents.set_up };

    ghost serves = { λ m p. p < m.contents.processors };

    ghost same = { λ m n. (n.contents.set_up ≡ m.contents.set_up) × (n.contents.processors ≡ m.contents.processors) × (n.buffer ≡ m.buffer) × (n.sent ≡ m.sent) };

    ghost between = { λ _ entries. entries ≡ [] };

    ghost seen = { λ m. m.contents.history };

    fn access(&mut self, request: &Request) -> Reply {
        self.access(request)
    }
}
