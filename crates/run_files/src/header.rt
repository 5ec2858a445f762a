//! The header of an order file.
ghost use Rattle.std.specs.Prelude.{◌≡◌, ◌<◌, ◌^◌, length, IfOk, OnOk};
ghost use Rattle.run_files.specs.Reading.{file_length, input_at, picks_at, numbers_allowed, header_of};

use crate::limits::*;
use crate::refusal::OrderRefusal;
use image_file::word_at;

/// The version, and how many threads, picks and bytes of input there are.
#[derive(Clone, Copy, Debug, PartialEq, Eq)]
pub struct Header {
    pub version: u32,
    pub threads: u32,
    pub picks: u32,
    pub input: u32,
}

impl Header {
    /// Where the input stands.
    pub fn input_at(&self) -> usize
        ensures value { result ≡ input_at self.now }
        ensures bound { result < 2 ^ 36 }
    {
        HEADER + THREAD_BYTES * self.threads as usize
    }

    /// Where the picks stand.
    pub fn picks_at(&self) -> usize
        ensures value { result ≡ picks_at self.now }
        ensures bound { result < 2 ^ 37 }
    {
        self.input_at() + self.input as usize
    }

    /// How many bytes the file should have.
    pub fn file_length(&self) -> usize
        ensures { result ≡ file_length self.now }
    {
        self.picks_at() + PICK_BYTES * self.picks as usize
    }
}

#[tactic(auto, unfolding(crate::specs::Reading::numbers_allowed))]
fn check_numbers(header: &Header, threads: u8) -> Result<(), OrderRefusal>
    ensures value { result ≡ numbers_allowed threads header.now }
    ensures same { OnOk result (header.now.threads ≡ threads) }
{
    if header.version != VERSION {
        let found = header.version;
        return Err(OrderRefusal::BadVersion { found });
    }
    if header.threads != u32::from(threads) {
        let found = header.threads;
        return Err(OrderRefusal::WrongThreads { found });
    }
    if header.picks as usize > MOST_PICKS {
        let count = header.picks;
        return Err(OrderRefusal::TooManyPicks { count });
    }
    if header.input as usize > MOST_INPUT {
        let length = header.input;
        return Err(OrderRefusal::LongInput { length });
    }
    Ok(())
}

/// The header's numbers, of a file of so many threads that has just the length that they tell.
#[tactic(auto, unfolding(crate::specs::Reading::header_of))]
pub fn header_of(bytes: &[u8], threads: u8) -> Result<Header, OrderRefusal>
    ensures value { result ≡ header_of threads bytes.now }
    ensures same { IfOk result (λ header. header.threads ≡ threads) }
    ensures whole { IfOk result (λ header. file_length header ≡ length bytes.now) }
{
    let at = bytes.len() as u64;
    if bytes.len() < HEADER {
        return Err(OrderRefusal::Truncated { at });
    }
    if word_at(bytes, 0) != MAGIC {
        return Err(OrderRefusal::BadMagic);
    }
    let header = Header {
        version: word_at(bytes, 4),
        threads: word_at(bytes, 8),
        picks: word_at(bytes, 12),
        input: word_at(bytes, 16),
    };
    check_numbers(&header, threads)?;
    let wanted = header.file_length();
    if bytes.len() < wanted {
        return Err(OrderRefusal::Truncated { at });
    }
    if bytes.len() > wanted {
        let at = wanted as u64;
        return Err(OrderRefusal::Trailing { at });
    }
    Ok(header)
}
