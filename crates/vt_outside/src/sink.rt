// Bytes that go out.
ghost use Rattle.std.specs.Prelude.{◌≡◌, ◌<◌, ◌≤◌, length, take};
ghost use Rattle.std.specs.Io.KnownBytes.{Appends, Keeps};
ghost use Rattle.vt_outside.specs.Causes.{Rose};
ghost use Rattle.vt_outside.specs.Sink.{IfTook, SinkMeaning};

/// What a write to a sink answers.
#[derive(Clone, Copy, Debug, PartialEq, Eq)]
pub enum Put {
    /// It took so many of the first bytes, one at least.
    Took(usize),
    /// It took nothing.
    Failed,
}

/// Bytes that go out, with a count of faults, which stands at `u64::MAX`.
pub trait Sink {
    ghost meaning: { Self → SinkMeaning };

    /// Takes the first bytes, as many as it has room for.
    fn write(&mut self, bytes: &[u8]) -> Put
        requires { 0 < length bytes.now }
        ensures count_in_range { IfTook result (λ count. (1 ≤ count) × (count ≤ length bytes.now)) }
        ensures first_bytes_appended { IfTook result (λ count. Appends (meaning self.old).taken (meaning self.new).taken (take count bytes.now)) }
        ensures failed_takes_nothing { result ≡ Put.Failed → Keeps (meaning self.old).taken (meaning self.new).taken }

        ensures failed_has_cause { result ≡ Put.Failed → Rose (meaning self.old).faults (meaning self.new).faults }
        ensures count_never_falls { (meaning self.old).faults ≤ (meaning self.new).faults };
}
