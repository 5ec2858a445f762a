// Files under names.
ghost use Rattle.std.specs.Prelude.{◌≡◌, ◌≤◌, ℕ, length, None, Some, IfSome};
ghost use Rattle.vt_outside.specs.Causes.{Rose};
ghost use Rattle.vt_outside.specs.Desk.{BothTold, DeskMeaning, IfRead, IsLonger, Puts, PutsPart};

use std::alloc::Global;

/// What a read of a file answers.
#[derive(Debug, Drop)]
pub enum DeskRead {
    /// The whole contents.
    Bytes(Vec<u8>),
    /// No file has the name.
    Absent,
    /// The contents are longer than the limit.
    TooLong,
    Failed,
    WantOfMemory,
}

/// What a write of a file answers.
#[derive(Clone, Copy, Debug, PartialEq, Eq)]
pub enum DeskWrite {
    Done,
    Failed,
}

/// Files under names. Reads and writes have a count of faults each, which stands at `u64::MAX`.
pub trait Desk {
    ghost meaning: { Self → DeskMeaning };

    /// The whole contents of a file of at most `limit` bytes.
    fn read(&mut self, alloc: Global, name: &str, limit: usize) -> DeskRead
        ensures within_limit { IfRead result (λ bytes. length bytes ≤ limit) }
        ensures contents { IfRead result (λ bytes. IfSome (meaning self.old).files (λ files. files name.now ≡ Some bytes)) }
        ensures absent { result ≡ DeskRead.Absent → IfSome (meaning self.old).files (λ files. files name.now ≡ None) }
        ensures too_long { result ≡ DeskRead.TooLong → IfSome (meaning self.old).files (λ files. IsLonger (files name.now) limit) }
        ensures files_stay { (meaning self.new).files ≡ (meaning self.old).files }

        ensures failed_has_cause { result ≡ DeskRead.Failed → Rose (meaning self.old).read_faults (meaning self.new).read_faults }
        ensures count_never_falls { (meaning self.old).read_faults ≤ (meaning self.new).read_faults }
        ensures other_count_stays { (meaning self.new).write_faults ≡ (meaning self.old).write_faults };

    /// Puts the bytes in the place of what the file had, or makes the file.
    fn write(&mut self, name: &str, bytes: &[u8]) -> DeskWrite
        ensures done { result ≡ DeskWrite.Done → BothTold (meaning self.old).files (meaning self.new).files
            (λ old new. Puts old new name.now bytes.now) }
        ensures failed { result ≡ DeskWrite.Failed → BothTold (meaning self.old).files (meaning self.new).files
            (λ old new. PutsPart old new name.now bytes.now) }

        ensures failed_has_cause { result ≡ DeskWrite.Failed → Rose (meaning self.old).write_faults (meaning self.new).write_faults }
        ensures count_never_falls { (meaning self.old).write_faults ≤ (meaning self.new).write_faults }
        ensures other_count_stays { (meaning self.new).read_faults ≡ (meaning self.old).read_faults };
}
