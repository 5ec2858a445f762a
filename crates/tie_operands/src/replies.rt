// A few replies, kept.
ghost use Rattle.std.specs.Prelude.{◌≡◌, ◌<◌, ◌≤◌, ◌++◌, ◌∷◌, [], length};

/// At most `MOST` replies, in order.
#[derive(Clone, Copy, Debug, PartialEq, Eq)]
pub struct Replies<const MOST: usize> {
    values: [u64; MOST],
    count: usize,
    ghost in_range: { count ≤ MOST },
}

impl<const MOST: usize> Replies<MOST> {
    ghost use Rattle.tie_operands.specs.Replies.{list_of, replies_of};

    /// No replies.
    pub fn none() -> Replies<MOST>
        ensures { replies_of result ≡ [] }
    {
        Replies {
            values: [0; MOST],
            count: 0,
        }
    }

    /// Keeps some replies.
    pub fn of(replies: &[u64]) -> Replies<MOST>
        requires { length replies.now ≤ MOST }
        ensures { replies_of result ≡ replies.now }
    {
        let count = replies.len();
        let mut values = [0; MOST];
        values[..count].copy_from_slice(replies);
        Replies { values, count }
    }

    /// These, and the next one where there is one.
    pub fn with(&self, next: Option<u64>) -> Replies<MOST>
        requires { length (replies_of self.now) < MOST }
        ensures { replies_of result ≡ replies_of self.now ++ list_of next }
    {
        let mut all = *self;
        if let Some(reply) = next {
            all.values[all.count] = reply;
            all.count += 1;
        }
        all
    }

    /// Keeps one more at the end, where there is room.
    #[inline(always)]
    pub fn push(&mut self, reply: u64)
        ensures { length (replies_of self.old) < MOST → replies_of self.new ≡ replies_of self.old ++ reply ∷ [] }
    {
        if self.count < MOST {
            self.values[self.count] = reply;
            self.count += 1;
        }
    }

    /// Keeps none any more.
    #[inline(always)]
    pub fn clear(&mut self)
        ensures { replies_of self.new ≡ [] }
    {
        self.count = 0;
    }

    /// All of them, the first one first.
    pub fn as_slice(&self) -> &[u64]
        ensures { result.now ≡ replies_of self.now }
    {
        &self.values[..self.count]
    }
}
