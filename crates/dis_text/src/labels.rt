// What is said before the line of an address.
ghost use Rattle.std.specs.Prelude.{◌≡◌, ◌++◌, ℕ, IfOk, OnOk, codes, decimal, map};
ghost use Rattle.std.specs.List.{flat_map};
ghost use Rattle.image_file.specs.declared.image.Start.{Start as StartValue};
ghost use Rattle.dis_text.specs.Before.{items_in, text_before};
ghost use Rattle.dis_text.specs.Made.{name_value};
ghost use Rattle.dis_text.specs.Labels.{label_at, labels, name_label, numbered_labels};

use image_file::Start;
use report_text::Line;
use std::alloc::{AllocError, Global};
use std::collections::BTreeMap;

/// The text before the line of each address that has one.
pub type Before = BTreeMap<u64, Vec<u8>>;

/// A name, and the address that has it.
#[derive(Debug, Drop)]
pub struct Name {
    pub address: u32,
    pub text: Vec<u8>,
}

// A label's line behind those that an address has.
fn with_label(alloc: Global, lines: Option<Vec<u8>>, text: &[u8]) -> Result<Vec<u8>, AllocError>
    ensures { IfOk result (λ all. all.items ≡ items_in lines ++ (codes "; " ++ text.now ++ codes "\n")) }
{
    let mut all = match lines {
        Some(lines) => lines,
        None => Vec::new(alloc),
    };
    all.extend_from_slice(b"; ")?;
    all.extend_from_slice(text)?;
    all.push(b'\n')?;
    Ok(all)
}

fn add_label(
    alloc: Global,
    before: &mut Before,
    address: u32,
    text: &[u8],
) -> Result<(), AllocError>
    ensures { OnOk result ((a : ℕ) → text_before before.new a ≡ text_before before.old a ++ label_at a address text.now) }
{
    let address = u64::from(address);
    let lines = before.remove(&address);
    let all = with_label(alloc, lines, text)?;
    before.insert(address, all)?;
    Ok(())
}

fn numbered(alloc: Global, kind: &[u8], number: u64) -> Result<Vec<u8>, AllocError>
    ensures { IfOk result (λ text. text.items ≡ kind.now ++ codes " " ++ decimal number) }
{
    let mut line = Line::new();
    line.push_spaced(number);
    let mut text = Vec::from_slice(alloc, kind)?;
    text.extend_from_slice(line.as_slice())?;
    Ok(text)
}

fn add_numbered(
    alloc: Global,
    before: &mut Before,
    kind: &[u8],
    addresses: &[u32],
) -> Result<(), AllocError>
    ensures { OnOk result ((a : ℕ) → text_before before.new a ≡ text_before before.old a ++ numbered_labels kind.now addresses.now a) }
{
    for (number, address) in addresses.iter().enumerate() {
        let text = numbered(alloc, kind, number as u64)?;
        add_label(alloc, before, *address, &text)?;
    }
    Ok(())
}

fn add_names(alloc: Global, before: &mut Before, names: &[Name]) -> Result<(), AllocError>
    ensures { OnOk result ((a : ℕ) → text_before before.new a ≡ text_before before.old a ++ flat_map (name_label a) (map name_value names.now)) }
{
    for name in names {
        add_label(alloc, before, name.address, &name.text)?;
    }
    Ok(())
}

fn starts_of(alloc: Global, threads: &[Start]) -> Result<Vec<u32>, AllocError>
    ensures { IfOk result (λ starts. starts.items ≡ map (λ (t : StartValue). t.pc) threads.now) }
{
    threads.iter().map(|thread| thread.pc).collect(alloc)
}

/// What is said before the line of each address.
pub fn labels(
    alloc: Global,
    threads: &[Start],
    entries: &[u32],
    hints: &[u32],
    names: &[Name],
) -> Result<Before, AllocError>
    ensures { IfOk result (λ before. (a : ℕ) → text_before before a ≡ labels (map (λ (t : StartValue). t.pc) threads.now) entries.now hints.now (map name_value names.now) a) }
{
    let starts = starts_of(alloc, threads)?;
    let mut before = BTreeMap::new(alloc);
    add_numbered(alloc, &mut before, b"thread", &starts)?;
    add_numbered(alloc, &mut before, b"entry", entries)?;
    add_numbered(alloc, &mut before, b"hint", hints)?;
    add_names(alloc, &mut before, names)?;
    Ok(before)
}
