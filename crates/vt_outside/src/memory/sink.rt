// A vector, as a sink.
ghost use Rattle.std.specs.Prelude.{◌≡◌, ◌<◌, ◌≤◌, length, take};
ghost use Rattle.std.specs.Io.KnownBytes.{Appends, Keeps};
ghost use Rattle.vt_outside.specs.Causes.{Rose};
ghost use Rattle.vt_outside.specs.Memory.{sink_after, sink_answer};
ghost use Rattle.vt_outside.specs.Sink.{IfTook};

use crate::memory::calls::{Calls, count_up};
use crate::sink::{Put, Sink};
use std::marker::Model;

/// A sink in memory that never grows: it takes what the spare room of its vector holds.
#[derive(Debug, Drop)]
pub struct MemorySink {
    taken: Vec<u8>,
    room: usize,
    most: Option<usize>,
    calls: Calls,
    faults: u64,
}

impl Model for MemorySink {
    ghost use Rattle.std.specs.Prelude.{◌+◌, ◌≤◌, vec_len, vec_capacity};
    ghost use Rattle.std.specs.Option.{ForSome};
    ghost use Rattle.vt_outside.specs.Memory.{MemorySinkValue};

    ghost Value = { MemorySinkValue };

    ghost view = { λ s. record { taken = s.taken.items; room = s.room; most = s.most; calls = s.calls; faults = s.faults } };

    ghost invariant = { λ s. (vec_len s.taken + s.room ≤ vec_capacity s.taken) × ForSome s.most (λ most. 1 ≤ most) };
}

impl MemorySink {
    ghost use Rattle.vt_outside.specs.Memory.{fresh_sink, slow_sink};

    /// It has taken `contents`, and has their vector's spare room. `fails` has the numbers of the calls that
    /// are to fail, from 0 and below `u64::MAX`.
    pub fn new(contents: Vec<u8>, fails: Vec<u64>) -> Self
        ensures { result ≡ fresh_sink contents fails.items }
    {
        let room = contents.capacity() - contents.len();
        MemorySink {
            taken: contents,
            room,
            most: None,
            calls: Calls::new(fails),
            faults: 0,
        }
    }

    /// The same, where a call takes at most `most` bytes.
    pub fn slow(contents: Vec<u8>, fails: Vec<u64>, most: usize) -> Self
        requires { 1 ≤ most }
        ensures { result ≡ slow_sink contents fails.items most }
    {
        MemorySink {
            most: Some(most),
            ..MemorySink::new(contents, fails)
        }
    }

    /// All that it has taken.
    pub fn bytes(&self) -> &[u8]
        ensures { result.now ≡ self.now.taken }
    {
        &self.taken
    }
}

impl Sink for MemorySink {
    ghost use Rattle.std.specs.Prelude.{Some};

    ghost meaning = { λ s. record { taken = Some s.taken; faults = s.faults } };

    fn write(&mut self, bytes: &[u8]) -> Put
        requires { 0 < length bytes.now }
        ensures count_in_range { IfTook result (λ count. (1 ≤ count) × (count ≤ length bytes.now)) }
        ensures first_bytes_appended { IfTook result (λ count. Appends (Some self.old.taken) (Some self.new.taken) (take count bytes.now)) }
        ensures failed_takes_nothing { result ≡ Put.Failed → Keeps (Some self.old.taken) (Some self.new.taken) }

        ensures failed_has_cause { result ≡ Put.Failed → Rose self.old.faults self.new.faults }
        ensures count_never_falls { self.old.faults ≤ self.new.faults }

        ensures exact { result ≡ sink_answer self.old (length bytes.now) }
        ensures after { self.new ≡ sink_after result self.old bytes.now }
    {
        if self.calls.fails_now() || self.room == 0 {
            count_up(&mut self.faults);
            return Put::Failed;
        }
        let most = self.most.unwrap_or(bytes.len());
        let count = bytes.len().min(most).min(self.room);
        self.taken.extend_from_slice(&bytes[..count]).unwrap();
        self.room -= count;
        Put::Took(count)
    }
}
