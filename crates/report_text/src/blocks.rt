//! The listing of a translation.
ghost use Rattle.std.specs.Prelude.{◌≡◌, ◌+◌, ◌*◌, ◌≤◌, ◌↔◌, ◌∷◌, ◌++◌, IfOk, IsTrue, OnOk, drop, length, nat_le, take};
ghost use Rattle.std.specs.Int.{to_be_bytes, w32};
ghost use Rattle.std.specs.List.{flat_map, list_all};
ghost use Rattle.std.specs.String.{string_bytes};
ghost use Rattle.report_text.specs.Digits.{eight_digits};
ghost use Rattle.report_text.specs.Listing.{AreWithin, block_text, block_words, end_before, listing_text, spaced_digits};

use address_map::AddressMap;
use std::alloc::{AllocError, Global};
use vax_form::WantOfMemory;

/// The digits of a longword.
const DIGITS: usize = 8;

/// Whether each block begins at one of the words, or behind the last, as `listing` asks.
pub fn are_within(words: &[u32], map: &AddressMap) -> bool
    ensures { IsTrue result ↔ AreWithin words.now map.now }
{
    all_within(words.len(), map.pairs())
}

fn all_within(count: usize, pairs: &[(u32, u32)]) -> bool
    ensures { result ≡ list_all (λ pair. nat_le pair.1 count) pairs.now }
{
    pairs.iter().all(|pair| pair.1 as usize <= count)
}

/// A line for each mapped address in rising order: the VAX address, the number of the Alpha word at which its block begins,
/// and the block's words, each in eight hexadecimal digits. Each block has to begin at one of the words, or behind the last.
pub fn listing(alloc: Global, words: &[u32], map: &AddressMap) -> Result<Vec<u8>, WantOfMemory>
    requires { AreWithin words.now map.now }
    ensures { IfOk result (λ text. text.items ≡ listing_text words.now map.now) }
{
    let pairs = map.pairs();
    let mut text = Vec::new(alloc);
    for (place, (address, first)) in pairs.iter().enumerate() {
        let block = block_words(words, *first, &pairs[place + 1..]);
        push_block(alloc, &mut text, *address, *first, block)?;
    }
    Ok(text)
}

// The words from a block's first one on, by the pairs behind its own.
fn block_words<'a>(words: &'a [u32], first: u32, next: &[(u32, u32)]) -> &'a [u32]
    requires rises { first ≤ end_before next.now (length words.now) }
    requires within { end_before next.now (length words.now) ≤ length words.now }
    ensures { result.now ≡ block_words words.now first next.now }
{
    let end = end_before(next, words.len());
    &words[first as usize..end]
}

// Where a block ends, by the pairs behind its own.
fn end_before(next: &[(u32, u32)], count: usize) -> usize
    ensures { result ≡ end_before next.now count }
{
    match next.first() {
        Some(pair) => pair.1 as usize,
        None => count,
    }
}

fn push_block(
    alloc: Global,
    text: &mut Vec<u8>,
    address: u32,
    first: u32,
    words: &[u32],
) -> Result<(), AllocError>
    ensures { OnOk result (text.new.items ≡ text.old.items ++ block_text address first words.now) }
{
    let digits = digits_of(alloc, address, first, words)?;
    push_digits(text, digits.as_bytes(), 1 + words.len())?;
    text.push(b'\n')?;
    Ok(())
}

// The first number, and so many behind it.
fn push_digits(text: &mut Vec<u8>, digits: &[u8], count: usize) -> Result<(), AllocError>
    requires { DIGITS + DIGITS * count ≤ length digits.now }
    ensures { OnOk result (text.new.items ≡ (text.old.items ++ take DIGITS digits.now) ++ spaced_digits count (drop DIGITS digits.now)) }
{
    text.extend_from_slice(&digits[..DIGITS])?;
    push_numbers(text, &digits[DIGITS..], count)
}

// The digits of so many numbers, with a blank before each.
fn push_numbers(text: &mut Vec<u8>, digits: &[u8], count: usize) -> Result<(), AllocError>
    requires { DIGITS * count ≤ length digits.now }
    ensures { OnOk result (text.new.items ≡ text.old.items ++ spaced_digits count digits.now) }
{
    for number in 0..count {
        text.push(b' ')?;
        text.extend_from_slice(&digits[DIGITS * number..DIGITS * (number + 1)])?;
    }
    Ok(())
}

// All digits of a line.
fn digits_of(alloc: Global, address: u32, first: u32, words: &[u32]) -> Result<String, AllocError>
    ensures { IfOk result (λ text. string_bytes text ≡ flat_map eight_digits (address ∷ first ∷ words.now)) }
{
    let mut bytes = Vec::new(alloc);
    push_bytes(&mut bytes, &[address, first])?;
    push_bytes(&mut bytes, words)?;
    hex::encode_upper(alloc, bytes)
}

// The bytes of each number, the highest first.
fn push_bytes(bytes: &mut Vec<u8>, numbers: &[u32]) -> Result<(), AllocError>
    ensures { OnOk result (bytes.new.items ≡ bytes.old.items ++ flat_map (to_be_bytes w32) numbers.now) }
{
    for number in numbers {
        bytes.extend_from_slice(&number.to_be_bytes())?;
    }
    Ok(())
}
