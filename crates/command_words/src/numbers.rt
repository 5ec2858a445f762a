// Numbers and ranges in the words of a command line.
ghost use Rattle.std.specs.Prelude.{◌≡◌, ◌<◌, ◌≤◌, ◌^◌, IfOk, map, option_map};
ghost use Rattle.command_words.specs.Numbers as spec;

use std::alloc::{AllocError, Global};

/// Threads are numbered below this.
const THREADS: u32 = 32;

const THREAD_DIGITS: usize = 2;

const ADDRESS_DIGITS: usize = 8;

/// How many ranges there are at most.
const MOST_RANGES: usize = 64;

/// The addresses, the first and the last included, that a thread interprets. The thread is below 32, and the first address
/// is not above the last.
#[derive(Clone, Copy, Debug, PartialEq, Eq)]
pub struct Range {
    pub thread: u8,
    pub first: u32,
    pub last: u32,
}

// The number that a text writes.
pub fn number_in(text: &str) -> Option<u64>
    ensures { result ≡ spec.number_in text.now }
{
    text.parse::<u64>().ok()
}

fn split_at<'a>(text: &'a str, mark: char) -> Option<(&'a str, &'a str)>
    requires { mark < 128 }
    ensures { option_map (λ p. (p.0.now, p.1.now)) result ≡ spec.split_at mark text.entry.now }
{
    text.split_once(mark)
}

// The number that a few digits write.
fn short_number(text: &str, radix: u32, most: usize) -> Option<u32>
    requires least { 2 ≤ radix }
    requires greatest { radix ≤ 36 }
    requires small { radix ^ most ≤ 2 ^ 32 }
    ensures { result ≡ spec.short_number radix most text.now }
{
    if text.len() > most || text.starts_with('+') {
        return None;
    }
    u32::from_str_radix(text, radix).ok()
}

// The range that `T:A-B` writes.
fn range_in(text: &str) -> Option<Range>
    ensures { result ≡ spec.range_in text.now }
{
    let (thread, addresses) = split_at(text, ':')?;
    let (first, last) = split_at(addresses, '-')?;
    let thread = short_number(thread, 10, THREAD_DIGITS)?;
    let first = short_number(first, 16, ADDRESS_DIGITS)?;
    let last = short_number(last, 16, ADDRESS_DIGITS)?;
    if thread >= THREADS || first > last {
        return None;
    }
    Some(Range {
        thread: thread as u8,
        first,
        last,
    })
}

// The ranges that all the texts write.
fn ranges_in(alloc: Global, texts: &[&str]) -> Result<Option<Vec<Range>>, AllocError>
    ensures { IfOk result (λ o. option_map (λ v. v.items) o
        ≡ spec.ranges_in (map (λ s. s.now) texts.now)) }
{
    let mut ranges = Vec::new(alloc);
    for text in texts {
        match range_in(text) {
            Some(range) => ranges.push(range)?,
            None => return Ok(None),
        }
    }
    Ok(Some(ranges))
}

// The same, where there are not too many.
pub fn few_ranges(alloc: Global, texts: &[&str]) -> Result<Option<Vec<Range>>, AllocError>
    ensures { IfOk result (λ o. option_map (λ v. v.items) o
        ≡ spec.few_ranges (map (λ s. s.now) texts.now)) }
{
    if texts.len() > MOST_RANGES {
        return Ok(None);
    }
    ranges_in(alloc, texts)
}
