// Bytes that come in.
ghost use Rattle.std.specs.Prelude.{◌≡◌, ◌<◌, ◌≤◌, length, take};
ghost use Rattle.std.specs.Io.KnownBytes.{Consumes, IsAtEnd, Keeps};
ghost use Rattle.vt_outside.specs.Causes.{Rose};
ghost use Rattle.vt_outside.specs.Source.{IfGot, SourceMeaning};

/// What a read of a source answers.
#[derive(Clone, Copy, Debug, PartialEq, Eq)]
pub enum Got {
    /// So many bytes, one at least.
    Bytes(usize),
    /// Nothing is left.
    End,
    Failed,
}

/// Bytes that come in, with a count of faults, which stands at `u64::MAX`.
pub trait Source {
    ghost meaning: { Self → SourceMeaning };

    /// Moves the next bytes to the front of `into`.
    fn read(&mut self, into: &mut [u8]) -> Got
        requires { 0 < length into.old }
        ensures count_in_range { IfGot result (λ count. (1 ≤ count) × (count ≤ length into.new)) }
        ensures first_bytes_left { IfGot result (λ count. Consumes (meaning self.old).left (meaning self.new).left (take count into.new)) }
        ensures end { result ≡ Got.End → Keeps (meaning self.old).left (meaning self.new).left × IsAtEnd (meaning self.new).left }
        ensures failed_takes_nothing { result ≡ Got.Failed → Keeps (meaning self.old).left (meaning self.new).left }

        ensures failed_has_cause { result ≡ Got.Failed → Rose (meaning self.old).faults (meaning self.new).faults }
        ensures count_never_falls { (meaning self.old).faults ≤ (meaning self.new).faults };
}
