// Files in memory.
ghost use Rattle.std.specs.Prelude.{◌≡◌, ◌↔◌, ◌≤◌, IsTrue, map, length, None, Some, OnErr, OnOk, IfSome, IsNone};
ghost use Rattle.vt_outside.specs.Causes.{Rose};
ghost use Rattle.vt_outside.specs.Desk.{BothTold, IfRead, IsLonger, Puts, PutsPart};
ghost use Rattle.vt_outside.specs.Memory.{contents_of, file_of, fresh_desk, is_failing, read_after, write_after, IsPlaceOf};

use crate::desk::{Desk, DeskRead, DeskWrite};
use crate::memory::calls::{Calls, count_up};
use std::alloc::{AllocError, Global};
use std::marker::Model;

/// A desk in memory. Reads and writes are numbered together. A growth that is refused fails its write, as a
/// full disk would.
#[derive(Debug, Drop)]
pub struct MemoryDesk {
    files: Vec<(String, Vec<u8>)>,
    calls: Calls,
    read_faults: u64,
    write_faults: u64,
}

impl Model for MemoryDesk {
    ghost use Rattle.std.specs.Prelude.{map};
    ghost use Rattle.vt_outside.specs.Memory.{MemoryDeskValue, file_of};

    ghost Value = { MemoryDeskValue };

    ghost view = { λ d. record { files = map file_of d.files.items; calls = d.calls; read_faults = d.read_faults; write_faults = d.write_faults } };
}

impl MemoryDesk {
    /// It has a file for each pair of a name and its contents, for different names. `fails` has the numbers
    /// of the calls that are to fail, from 0 and below `u64::MAX`.
    pub fn new(contents: Vec<(String, Vec<u8>)>, fails: Vec<u64>) -> Self
        ensures { result ≡ fresh_desk (map file_of contents.items) fails.items }
    {
        MemoryDesk {
            files: contents,
            calls: Calls::new(fails),
            read_faults: 0,
            write_faults: 0,
        }
    }
}

// Where the first file of that name stands.
#[tactic(auto, using(crate::proofs::Lookups::found_next))]
fn place_of(files: &[(String, Vec<u8>)], name: &str) -> Option<usize>
    ensures found { IfSome result (λ i. IsPlaceOf i files.now name.now) }
    ensures absent { IsNone result → contents_of (map file_of files.now) name.now ≡ None }
{
    for (i, file) in files.iter().enumerate() {
        if file.0.as_str() == name {
            return Some(i);
        }
    }
    None
}

impl Desk for MemoryDesk {
    ghost use Rattle.std.specs.Prelude.{Some};
    ghost use Rattle.vt_outside.specs.Memory.{contents_of};

    ghost meaning = { λ d. record { files = Some (contents_of d.files); read_faults = d.read_faults; write_faults = d.write_faults } };

    #[tactic(auto, using(crate::proofs::Lookups::found_here))]
    fn read(&mut self, alloc: Global, name: &str, limit: usize) -> DeskRead
        ensures within_limit { IfRead result (λ bytes. length bytes ≤ limit) }
        ensures contents { IfRead result (λ bytes. contents_of self.old.files name.now ≡ Some bytes) }
        ensures absent { result ≡ DeskRead.Absent → contents_of self.old.files name.now ≡ None }
        ensures too_long { result ≡ DeskRead.TooLong → IsLonger (contents_of self.old.files name.now) limit }
        ensures files_stay { self.new.files ≡ self.old.files }

        ensures failed_has_cause { result ≡ DeskRead.Failed → Rose self.old.read_faults self.new.read_faults }
        ensures count_never_falls { self.old.read_faults ≤ self.new.read_faults }
        ensures other_count_stays { self.new.write_faults ≡ self.old.write_faults }

        ensures exact { (result ≡ DeskRead.Failed) ↔ IsTrue (is_failing self.old.calls) }
        ensures after { self.new ≡ read_after result self.old }
    {
        if self.calls.fails_now() {
            count_up(&mut self.read_faults);
            return DeskRead::Failed;
        }
        let Some(i) = place_of(&self.files, name) else {
            return DeskRead::Absent;
        };
        let contents = &self.files[i].1;
        if contents.len() > limit {
            return DeskRead::TooLong;
        }
        match contents.to_vec(alloc) {
            Ok(bytes) => DeskRead::Bytes(bytes),
            Err(_) => DeskRead::WantOfMemory,
        }
    }

    fn write(&mut self, name: &str, bytes: &[u8]) -> DeskWrite
        ensures done { result ≡ DeskWrite.Done → Puts (contents_of self.old.files) (contents_of self.new.files) name.now bytes.now }
        ensures failed { result ≡ DeskWrite.Failed → PutsPart (contents_of self.old.files) (contents_of self.new.files) name.now bytes.now }

        ensures failed_has_cause { result ≡ DeskWrite.Failed → Rose self.old.write_faults self.new.write_faults }
        ensures count_never_falls { self.old.write_faults ≤ self.new.write_faults }
        ensures other_count_stays { self.new.read_faults ≡ self.old.read_faults }

        ensures failing_call_fails { IsTrue (is_failing self.old.calls) → result ≡ DeskWrite.Failed }
        ensures after { self.new ≡ write_after result self.new.files self.old }
    {
        if self.calls.fails_now() || put(&mut self.files, name, bytes).is_err() {
            count_up(&mut self.write_faults);
            return DeskWrite::Failed;
        }
        DeskWrite::Done
    }
}

// Puts the bytes under the name.
fn put(files: &mut Vec<(String, Vec<u8>)>, name: &str, bytes: &[u8]) -> Result<(), AllocError>
    ensures ok { OnOk result (Puts (contents_of (map file_of files.old.items)) (contents_of (map file_of files.new.items)) name.now bytes.now) }
    ensures err { OnErr result (files.new.items ≡ files.old.items) }
{
    let alloc = *files.allocator();
    let fresh = bytes.to_vec(alloc)?;
    if let Some(i) = place_of(files, name) {
        files[i].1 = fresh;
    } else {
        files.push((String::from_str(alloc, name)?, fresh))?;
    }
    Ok(())
}
