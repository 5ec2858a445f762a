//! An order from the bytes of a file.
ghost use Rattle.std.specs.Prelude.{◌≡◌, length, IfOk, Ok};
ghost use Rattle.run_files.specs.Values.{OrderValue};
ghost use Rattle.run_files.specs.Fits.{Fits};
ghost use Rattle.run_files.specs.Spelling.{order_bytes};
ghost use Rattle.run_files.specs.Reading.{Gives, file_length, parts_allowed, order_in, order_of};

use crate::fields::behind;
use crate::file::OrderFile;
use crate::header::{Header, header_of};
use crate::limits::*;
use crate::parts::{check_counts, check_flags, check_picks, counts_of, picks_of, spent_of};
use crate::refusal::OrderRefusal;
use std::alloc::{AllocError, Global};

/// Whether all flags, counts and picks are ones of so many threads.
#[tactic(auto, unfolding(crate::specs::Reading::parts_allowed))]
fn check_parts(bytes: &[u8], header: &Header, threads: u8) -> Result<(), OrderRefusal>
    requires same { header.now.threads ≡ threads }
    requires whole { file_length header.now ≡ length bytes.now }
    ensures { result ≡ parts_allowed header.now bytes.now }
{
    let ends = behind(bytes, HEADER);
    check_flags(ends, threads)?;
    check_counts(ends, threads)?;
    check_picks(behind(bytes, header.picks_at()), threads, header.picks)
}

fn parts_of(
    alloc: Global,
    bytes: &[u8],
    header: &Header,
    threads: u8,
) -> Result<OrderFile, AllocError>
    requires same { header.now.threads ≡ threads }
    requires whole { file_length header.now ≡ length bytes.now }
    ensures { IfOk result (λ file. file ≡ order_in header.now bytes.now) }
{
    let ends = behind(bytes, HEADER);
    let input = &behind(bytes, header.input_at())[..header.input as usize];
    let picks = behind(bytes, header.picks_at());
    Ok(OrderFile {
        input: Vec::from_slice(alloc, input)?,
        counts: counts_of(alloc, ends, threads)?,
        spent: spent_of(alloc, ends, threads)?,
        picks: picks_of(alloc, picks, header.picks)?,
    })
}

#[tactic(auto, unfolding(crate::specs::Reading::order_of))]
fn order_of(alloc: Global, bytes: &[u8], threads: u8) -> Result<OrderFile, OrderRefusal>
    ensures { Gives (λ f. f) result (order_of threads bytes.now) }
{
    let header = header_of(bytes, threads)?;
    check_parts(bytes, &header, threads)?;
    Ok(parts_of(alloc, bytes, &header, threads)?)
}

/// The order of so many threads that the bytes mean, or the first reason for which they mean none.
pub fn read_order(alloc: Global, bytes: &[u8], threads: u8) -> Result<OrderFile, OrderRefusal>
    // What is read fits, and is spelled so.
    ensures found { IfOk result (λ file. Fits threads file × (bytes.now ≡ order_bytes file)) }
    // What fits and is spelled so is read, unless memory runs out.
    ensures only { (file : OrderValue) → Fits threads file → bytes.now ≡ order_bytes file → Gives (λ f. f) result (Ok file) }
    // Which refusal it is.
    ensures exact { Gives (λ f. f) result (order_of threads bytes.now) }
{
    order_of(alloc, bytes, threads)
}
