// Entries that a file lists.
ghost use Rattle.std.specs.Prelude.{◌≡◌, ◌≤◌, ◌∷◌, ℕ, List, IfErr, Ok, OnOk, length, position, unwrap_or};
ghost use Rattle.vximage_cli.specs.Entries.{ListGives, address_in, entries_listed, is_blank, IsFault, last_line, listed_from};

use std::alloc::{AllocError, AllocFailed, Global};
use vximage_words::hexadecimal;

/// What ends a line.
pub const LINE_FEED: u8 = b'\n';

/// Why a file lists no entries.
#[derive(Clone, Copy)]
pub enum ListFault {
    /// The first line, from 1, that begins with no address.
    NoAddress { line: u64 },
    WantOfMemory,
}

impl<T: Drop> From<AllocFailed<T>> for ListFault {
    ghost use Rattle.vximage_cli.specs.declared.entries.ListFault.TheVariants.{WantOfMemory};

    ghost from_gives = { λ _ fault. fault ≡ WantOfMemory };

    fn from(_: AllocFailed<T>) -> ListFault {
        ListFault::WantOfMemory
    }
}

impl From<AllocError> for ListFault {
    ghost use Rattle.vximage_cli.specs.declared.entries.ListFault.TheVariants.{WantOfMemory};

    ghost from_gives = { λ _ fault. fault ≡ WantOfMemory };

    fn from(_: AllocError) -> ListFault {
        ListFault::WantOfMemory
    }
}

/// Whether a byte ends a field.
pub fn is_blank(byte: u8) -> bool
    ensures { result ≡ is_blank byte }
{
    byte == b' ' || byte == b'\t' || byte == b'\r'
}

/// Where the first word of a line ends.
pub fn word_end(line: &[u8]) -> usize
    ensures value { result ≡ unwrap_or (position is_blank line.now) (length line.now) }
    ensures within { result ≤ length line.now }
{
    line.iter()
        .position(|byte| is_blank(*byte))
        .unwrap_or(line.len())
}

/// The address at the begin of a line.
pub fn address_in(line: &[u8]) -> Option<u32>
    ensures { result ≡ address_in line.now }
{
    hexadecimal(&line[..word_end(line)])
}

// Puts the address of a line behind those of the lines before.
fn push_address(entries: &mut Vec<u32>, line: &[u8]) -> Result<(), ListFault>
    ensures ok { OnOk result ((rest : List (List ℕ)) → listed_from entries.old.items (line.now ∷ rest) ≡ listed_from entries.new.items rest) }
    ensures err { IfErr result (λ fault. (rest : List (List ℕ)) → IsFault fault (listed_from entries.old.items (line.now ∷ rest))) }
{
    match address_in(line) {
        Some(address) => {
            entries.push(address)?;
            Ok(())
        }
        None => Err(ListFault::NoAddress {
            line: entries.len() as u64 + 1,
        }),
    }
}

// Puts the address of what is behind the last line end, where something is.
fn push_last(entries: &mut Vec<u32>, line: &[u8]) -> Result<(), ListFault>
    ensures ok { OnOk result (listed_from entries.old.items (last_line line.now) ≡ Ok entries.new.items) }
    ensures err { IfErr result (λ fault. IsFault fault (listed_from entries.old.items (last_line line.now))) }
{
    if line.is_empty() {
        Ok(())
    } else {
        push_address(entries, line)
    }
}

/// The addresses with which the lines of a file begin.
#[tactic(auto, unfolding(crate::specs::Entries::entries_listed))]
pub fn entries_listed(alloc: Global, bytes: &[u8]) -> Result<Vec<u32>, ListFault>
    ensures { ListGives result (entries_listed bytes.now) }
{
    let mut entries = Vec::new(alloc);
    let mut begun = 0;
    for (place, byte) in bytes.iter().enumerate() {
        if *byte == LINE_FEED {
            push_address(&mut entries, &bytes[begun..place])?;
            begun = place + 1;
        }
    }
    push_last(&mut entries, &bytes[begun..])?;
    Ok(entries)
}
