//! The counts, flags and picks of a file, from the bytes where they stand.
ghost use Rattle.std.specs.Prelude.{◌≡◌, ◌≤◌, ◌+◌, ◌*◌, length, drop, position, map, IfOk};
ghost use Rattle.image_file.specs.Reading.{table_in};
ghost use Rattle.image_file.specs.Steps.{refuse_at};
ghost use Rattle.run_files.specs.Reading.{quad, flag_in, pick_in, is_bad_flag, is_large_count, is_of_no_thread, is_set};

use crate::fields::quad_at;
use crate::limits::*;
use crate::refusal::OrderRefusal;
use std::alloc::{AllocError, Global};
use vax_form::Pick;

fn count_at(ends: &[u8], thread: u8) -> u64
    requires { THREAD_BYTES * thread + THREAD_BYTES ≤ length ends.now }
    ensures { result ≡ quad (drop (THREAD_BYTES * thread) ends.now) }
{
    quad_at(ends, THREAD_BYTES * usize::from(thread))
}

fn flag_at(ends: &[u8], thread: u8) -> u8
    requires { THREAD_BYTES * thread + THREAD_BYTES ≤ length ends.now }
    ensures { result ≡ flag_in (drop (THREAD_BYTES * thread) ends.now) }
{
    ends[THREAD_BYTES * usize::from(thread) + 8]
}

fn pick_at(picks: &[u8], place: u32) -> Pick
    requires { PICK_BYTES * place + PICK_BYTES ≤ length picks.now }
    ensures { result ≡ pick_in (drop (PICK_BYTES * place) picks.now) }
{
    let at = PICK_BYTES * place as usize;
    Pick {
        thread: picks[at],
        retired: quad_at(picks, at + 1),
    }
}

/// Refuses the first flag that is neither 0 nor 1.
pub fn check_flags(ends: &[u8], threads: u8) -> Result<(), OrderRefusal>
    requires { THREAD_BYTES * threads ≤ length ends.now }
    ensures { result ≡ refuse_at (position is_bad_flag (table_in THREAD_BYTES flag_in threads ends.now)) (λ thread. OrderRefusal.BadFlag thread) }
{
    for thread in 0..threads {
        if flag_at(ends, thread) > 1 {
            return Err(OrderRefusal::BadFlag { thread });
        }
    }
    Ok(())
}

/// Refuses the first count that is too large.
pub fn check_counts(ends: &[u8], threads: u8) -> Result<(), OrderRefusal>
    requires { THREAD_BYTES * threads ≤ length ends.now }
    ensures { result ≡ refuse_at (position is_large_count (table_in THREAD_BYTES quad threads ends.now)) (λ thread. OrderRefusal.LargeCount thread) }
{
    for thread in 0..threads {
        if count_at(ends, thread) > MOST_COUNT {
            return Err(OrderRefusal::LargeCount { thread });
        }
    }
    Ok(())
}

/// Refuses the first pick of a thread that is none of so many.
pub fn check_picks(picks: &[u8], threads: u8, count: u32) -> Result<(), OrderRefusal>
    requires { PICK_BYTES * count ≤ length picks.now }
    ensures { result ≡ refuse_at (position (is_of_no_thread threads) (table_in PICK_BYTES pick_in count picks.now)) (λ place. OrderRefusal.BadThread place) }
{
    for place in 0..count {
        if pick_at(picks, place).thread >= threads {
            return Err(OrderRefusal::BadThread { place });
        }
    }
    Ok(())
}

/// The counts of so many threads.
pub fn counts_of(alloc: Global, ends: &[u8], threads: u8) -> Result<Vec<u64>, AllocError>
    requires { THREAD_BYTES * threads ≤ length ends.now }
    ensures { IfOk result (λ v. v.items ≡ table_in THREAD_BYTES quad threads ends.now) }
{
    let mut counts = Vec::with_capacity(alloc, usize::from(threads))?;
    for thread in 0..threads {
        counts.push(count_at(ends, thread))?;
    }
    Ok(counts)
}

/// The flags of so many threads.
pub fn spent_of(alloc: Global, ends: &[u8], threads: u8) -> Result<Vec<bool>, AllocError>
    requires { THREAD_BYTES * threads ≤ length ends.now }
    ensures { IfOk result (λ v. v.items ≡ map is_set (table_in THREAD_BYTES flag_in threads ends.now)) }
{
    let mut spent = Vec::with_capacity(alloc, usize::from(threads))?;
    for thread in 0..threads {
        spent.push(flag_at(ends, thread) == 1)?;
    }
    Ok(spent)
}

/// So many picks. Its room is taken at once.
pub fn picks_of(alloc: Global, bytes: &[u8], count: u32) -> Result<Vec<Pick>, AllocError>
    requires { PICK_BYTES * count ≤ length bytes.now }
    ensures { IfOk result (λ v. v.items ≡ table_in PICK_BYTES pick_in count bytes.now) }
{
    let mut picks = Vec::with_capacity(alloc, count as usize)?;
    for place in 0..count {
        picks.push(pick_at(bytes, place))?;
    }
    Ok(picks)
}
