// The stored order of a world replayed, beside the threads that are driven by it; and so each order that differs from it by a count, a
// flag or a pick.
ghost use Rattle.std.specs.Prelude.{◌≤◌, length};
ghost use Rattle.image_file.specs.Whole.{IsWhole};
ghost use Rattle.run_files.specs.Fits.{Fits};

use anyhow::{Context, Result, bail, ensure};
use image_file::Image;
use memory_core::Entry;
use run_files::{
    MOST_INPUT, MOST_PICKS, MOST_THREADS, OrderFile, append_order, order_room, read_order,
};
use std::alloc::{AllocError, Global};
use stored_runs::{ReplayRefusal, Replayed, replayed};
use system_model::End;
use vax_form::VaxState;
use vax_run::{DrivenRun, ThreadRun, driven};
use vest_core::{Processor, World};

/// The bytes of an order file's header.
const HEADER: usize = 20;

/// The bytes of a thread's count and flag, and those of a pick: a number of eight bytes, and one byte behind or before it.
const PART: usize = 9;

/// How many instructions each processor has retired, and whether it has no end of its own.
fn ends_of(alloc: Global, processors: &[Processor]) -> Result<Vec<(u64, bool)>, AllocError> {
    let mut ends = Vec::new(alloc);
    for processor in processors {
        let is_spent = !matches!(processor.end(), Some(End::Exit(_) | End::Raised(_)));
        ends.push((processor.retired(), is_spent))?;
    }
    Ok(ends)
}

/// The bytes of a history's order.
fn bytes_of(
    alloc: Global,
    history: &[Entry],
    input: &[u8],
    ends: &[(u64, bool)],
) -> Result<Vec<u8>> {
    if ends.len() > MOST_THREADS || input.len() > MOST_INPUT || history.len() > MOST_PICKS {
        bail!("more than an order file has");
    }
    let room = order_room(ends.len(), input.len(), history.len());
    let mut bytes = Vec::with_capacity(alloc, room)?;
    append_order(history, input, ends, &mut bytes);
    Ok(bytes)
}

/// The end of a thread that is stored with that flag, if it has one.
fn end_of(is_spent: bool, thread: &ThreadRun) -> Option<End> {
    match (is_spent, thread.exited) {
        (true, true) => None,
        (true, false) => Some(End::Spent),
        (false, true) => Some(End::Exit(thread.state.register(0))),
        (false, false) => thread.raised.map(End::Raised),
    }
}

/// Whether what a replay tells of its threads is what became of the driven ones.
fn are_ends(
    ends: &[(End, VaxState, u64)],
    threads: &[ThreadRun],
    spent: &[bool],
    counts: &[u64],
) -> bool {
    if ends.len() != threads.len()
        || spent.len() != threads.len()
        || counts.len() != threads.len()
    {
        return false;
    }
    for (place, thread) in threads.iter().enumerate() {
        let (end, state, count) = ends[place];
        let is_so = end_of(spent[place], thread) == Some(end);
        if !is_so || state != thread.state || count != counts[place] {
            return false;
        }
    }
    true
}

/// The first thread that has no end.
fn first_wrong(threads: &[ThreadRun], spent: &[bool]) -> Option<usize> {
    threads
        .iter()
        .zip(spent)
        .position(|(thread, is_spent)| end_of(*is_spent, thread).is_none())
}

/// Whether a replay gives what the driven threads do.
fn gives(run: &DrivenRun, given: &Result<Replayed, ReplayRefusal>, order: &OrderFile) -> bool {
    match given {
        Err(ReplayRefusal::WrongEnd { thread }) => {
            first_wrong(&run.threads, &order.spent) == Some(usize::from(*thread))
        }
        Ok(replayed) => {
            replayed.output.as_slice() == run.output.as_slice()
                && are_ends(&replayed.ends, &run.threads, &order.spent, &order.counts)
        }
        Err(_) => false,
    }
}

/// Whether a replay is refused where the threads are not driven by the order, and else gives what they do.
fn is_as_driven(
    run: &Option<DrivenRun>,
    given: &Result<Replayed, ReplayRefusal>,
    order: &OrderFile,
) -> bool {
    match run {
        Some(run) => gives(run, given, order),
        None => matches!(given, Err(ReplayRefusal::NotDriven)),
    }
}

/// Refuses an order whose replay is not what the threads do that are driven by it.
fn check_order(alloc: Global, image: &Image, order: &OrderFile) -> Result<()>
    requires whole { IsWhole image.now }
    requires fits { Fits (length image.now.threads) order.now }
{
    let Ok(run) = driven(alloc, image, &order.input, &order.picks, &order.counts) else {
        bail!("want of memory");
    };
    let given = replayed(alloc, image, order);
    ensure!(is_as_driven(&run, &given, order), "not as replayed");
    Ok(())
}

/// The same of what bytes spell, if they spell an order.
fn check_bytes(alloc: Global, image: &Image, bytes: &[u8]) -> Result<()>
    requires { IsWhole image.now }
{
    let Ok(threads) = u8::try_from(image.threads.len()) else {
        bail!("more threads than an order file has");
    };
    match read_order(alloc, bytes, threads) {
        Ok(order) => check_order(alloc, image, &order),
        Err(_) => Ok(()),
    }
}

/// Whether the lowest bit of that byte of an order file, whose picks begin there, is that of a count, a flag, a thread or a number of
/// instructions.
fn is_lowest(place: usize, picks: usize) -> bool {
    if place < HEADER {
        return false;
    }
    if place < picks {
        matches!((place - HEADER) % PART, 0 | 8)
    } else {
        (place - picks) % PART < 2
    }
}

/// The same of each order that differs from it in one such bit.
fn check_others(alloc: Global, image: &Image, bytes: &mut [u8], picks: usize) -> Result<()>
    requires { IsWhole image.now }
{
    for place in 0..bytes.len() {
        if is_lowest(place, picks) {
            bytes[place] ^= 1;
            check_bytes(alloc, image, bytes)?;
            bytes[place] ^= 1;
        }
    }
    Ok(())
}

/// Refuses a world whose order, or an order that differs from it in one such bit, is not replayed as the threads are driven by it.
pub fn check_replayed(alloc: Global, image: &Image, input: &[u8], world: &World) -> Result<()>
    requires { IsWhole image.now }
{
    let ends = ends_of(alloc, world.processors())?;
    let history = world.memory().history().context("a history")?;
    let mut bytes = bytes_of(alloc, history, input, &ends)?;
    let picks = HEADER + PART * ends.len() + input.len();
    check_bytes(alloc, image, &bytes)?;
    check_others(alloc, image, &mut bytes, picks)
}
