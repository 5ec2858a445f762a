// Bytes in memory, as a source.
ghost use Rattle.std.specs.Prelude.{◌≡◌, ◌<◌, ◌≤◌, length, take};
ghost use Rattle.std.specs.Io.KnownBytes.{Consumes, IsAtEnd, Keeps};
ghost use Rattle.vt_outside.specs.Causes.{Rose};
ghost use Rattle.vt_outside.specs.Memory.{fresh_source, source_after, source_answer};
ghost use Rattle.vt_outside.specs.Source.{IfGot};

use crate::memory::calls::{Calls, count_up};
use crate::source::{Got, Source};
use std::marker::Model;

/// A source in memory.
#[derive(Debug, Drop)]
pub struct MemorySource {
    bytes: Vec<u8>,
    at: usize,
    most: usize,
    calls: Calls,
    faults: u64,
}

impl Model for MemorySource {
    ghost use Rattle.std.specs.Prelude.{◌≤◌, length, drop};
    ghost use Rattle.vt_outside.specs.Memory.{MemorySourceValue};

    ghost Value = { MemorySourceValue };

    ghost view = { λ s. record { left = drop s.at s.bytes.items; most = s.most; calls = s.calls; faults = s.faults } };

    ghost invariant = { λ s. (s.at ≤ length s.bytes.items) × (1 ≤ s.most) };
}

impl MemorySource {
    /// It gives `contents`, at most `most` bytes a call. `fails` has the numbers of the calls that are to
    /// fail, from 0 and below `u64::MAX`.
    pub fn new(contents: Vec<u8>, fails: Vec<u64>, most: usize) -> Self
        requires { 1 ≤ most }
        ensures { result ≡ fresh_source contents.items fails.items most }
    {
        MemorySource {
            bytes: contents,
            at: 0,
            most,
            calls: Calls::new(fails),
            faults: 0,
        }
    }
}

impl Source for MemorySource {
    ghost use Rattle.std.specs.Prelude.{Some};

    ghost meaning = { λ s. record { left = Some s.left; faults = s.faults } };

    #[tactic(auto, using(crate::proofs::Served::served))]
    fn read(&mut self, into: &mut [u8]) -> Got
        requires { 0 < length into.old }
        ensures count_in_range { IfGot result (λ count. (1 ≤ count) × (count ≤ length into.new)) }
        ensures first_bytes_left { IfGot result (λ count. Consumes (Some self.old.left) (Some self.new.left) (take count into.new)) }
        ensures end { result ≡ Got.End → Keeps (Some self.old.left) (Some self.new.left) × IsAtEnd (Some self.new.left) }
        ensures failed_takes_nothing { result ≡ Got.Failed → Keeps (Some self.old.left) (Some self.new.left) }

        ensures failed_has_cause { result ≡ Got.Failed → Rose self.old.faults self.new.faults }
        ensures count_never_falls { self.old.faults ≤ self.new.faults }

        ensures exact { result ≡ source_answer self.old (length into.old) }
        ensures after { self.new ≡ source_after result self.old }
    {
        if self.calls.fails_now() {
            count_up(&mut self.faults);
            return Got::Failed;
        }
        let left = self.bytes.len() - self.at;
        if left == 0 {
            return Got::End;
        }
        let count = self.most.min(into.len()).min(left);
        copy_front(&self.bytes[self.at..], into, count);
        self.at += count;
        Got::Bytes(count)
    }
}

// Copies the first bytes of one slice to the front of another.
fn copy_front(from: &[u8], into: &mut [u8], count: usize)
    requires there { count ≤ length from.now }
    requires room { count ≤ length into.old }
    ensures { take count into.new ≡ take count from.now }
{
    into[..count].copy_from_slice(&from[..count]);
}
