// Names that a file lists.
ghost use Rattle.std.specs.Prelude.{◌≡◌, ◌≤◌, ◌∷◌, List, ℕ, IfErr, IfOk, Ok, OnOk, length, map};
ghost use Rattle.dis_text.specs.Made.{name_value};
ghost use Rattle.vximage_cli.specs.Entries.{last_line};
ghost use Rattle.vximage_cli.specs.Names.{IsBadLine, behind_field, blanks_end, field, name_from, name_in, named_from, names_listed};

use crate::entries::{LINE_FEED, ListFault, address_in, is_blank, word_end};
use dis_text::Name;
use std::alloc::Global;

// Where the blanks at the begin end.
fn blanks_end(rest: &[u8]) -> usize
    ensures value { result ≡ blanks_end rest.now }
    ensures within { result ≤ length rest.now }
{
    rest.iter()
        .position(|byte| !is_blank(*byte))
        .unwrap_or(rest.len())
}

// From the second field on.
fn behind_field(line: &[u8]) -> &[u8]
    ensures { result.now ≡ behind_field line.now }
{
    let rest = &line[word_end(line)..];
    &rest[blanks_end(rest)..]
}

// The first field.
fn field(line: &[u8]) -> &[u8]
    ensures { result.now ≡ field line.now }
{
    &line[..word_end(line)]
}

fn name_from<'a>(second: &'a [u8], third: &'a [u8]) -> &'a [u8]
    ensures { result.now ≡ name_from second.now third.now }
{
    if word_end(second) == 1 && !third.is_empty() {
        field(third)
    } else {
        field(second)
    }
}

fn name_in(line: &[u8]) -> &[u8]
    ensures { result.now ≡ name_in line.now }
{
    let second = behind_field(line);
    name_from(second, behind_field(second))
}

// Puts the name of a line behind those of the lines before.
fn push_name(alloc: Global, names: &mut Vec<Name>, line: &[u8]) -> Result<(), ListFault>
    ensures ok { OnOk result ((rest : List (List ℕ)) → named_from (map name_value names.old.items) (line.now ∷ rest) ≡ named_from (map name_value names.new.items) rest) }
    ensures err { IfErr result (λ fault. (rest : List (List ℕ)) → IsBadLine fault (named_from (map name_value names.old.items) (line.now ∷ rest))) }
{
    match address_in(line) {
        Some(address) => {
            let text = Vec::from_slice(alloc, name_in(line))?;
            names.push(Name { address, text })?;
            Ok(())
        }
        None => Err(ListFault::NoAddress {
            line: names.len() as u64 + 1,
        }),
    }
}

// Puts the name of what is behind the last line end, where something is.
fn push_last(alloc: Global, names: &mut Vec<Name>, line: &[u8]) -> Result<(), ListFault>
    ensures ok { OnOk result (named_from (map name_value names.old.items) (last_line line.now) ≡ Ok (map name_value names.new.items)) }
    ensures err { IfErr result (λ fault. IsBadLine fault (named_from (map name_value names.old.items) (last_line line.now))) }
{
    if line.is_empty() {
        Ok(())
    } else {
        push_name(alloc, names, line)
    }
}

/// The names of the lines of a file.
#[tactic(auto, unfolding(crate::specs::Names::names_listed))]
pub fn names_listed(alloc: Global, bytes: &[u8]) -> Result<Vec<Name>, ListFault>
    ensures ok { IfOk result (λ names. names_listed bytes.now ≡ Ok (map name_value names.items)) }
    ensures err { IfErr result (λ fault. IsBadLine fault (names_listed bytes.now)) }
{
    let mut names = Vec::new(alloc);
    let mut begun = 0;
    for (place, byte) in bytes.iter().enumerate() {
        if *byte == LINE_FEED {
            push_name(alloc, &mut names, &bytes[begun..place])?;
            begun = place + 1;
        }
    }
    push_last(alloc, &mut names, &bytes[begun..])?;
    Ok(names)
}
