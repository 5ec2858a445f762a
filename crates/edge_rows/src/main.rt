//! Asks the crates at the edge what the files of data/ ask, and calls files and streams: how command lines are read, what memories
//! hold behind histories of accesses, what is said of a run, how the largest images and maps of addresses are read, and what reads and
//! writes answer. It says for each family how many answers are those that stand there.
//!
//! A row of a file is a question and behind a colon its answer; `said`, `listings`, `made`, `lines`, `images` and `maps` answer the
//! questions of the file of their name in text, which is compared, and `memory` those of data/histories.txt, whose accesses `accesses`
//! reads; `spelled` reads bytes of a question. In a text of `texts` `|` is the end of a line. `desks`, `sources`, `sinks` and `streams` call files and streams, in memory and of the
//! system, each through its trait: at the calls that are to fail, at ends and limits, and where the system refuses; `replaced` writes
//! over files of the system.
#![tactic(auto)]

mod accesses;
mod desks;
mod images;
mod lines;
mod listings;
mod made;
mod maps;
mod memory;
mod replaced;
mod said;
mod sinks;
mod sources;
mod spelled;
mod streams;
mod texts;

use anyhow::Result;
use row_tally::{Tally, ask_rows};
use std::fs::Files;

/// Asks the questions of the files.
fn ask_all(rt: &(impl Files + Print + AllocGlobal)) -> Result<Tally> {
    let mut all = Tally::NONE;
    all.add(ask_rows(rt, "said.txt", said::answer)?);
    all.add(ask_rows(rt, "listings.txt", listings::answer)?);
    all.add(ask_rows(rt, "made.txt", made::answer)?);
    all.add(ask_rows(rt, "lines.txt", lines::answer)?);
    all.add(ask_rows(rt, "histories.txt", memory::answer)?);
    all.add(ask_rows(rt, "images.txt", images::answer)?);
    all.add(ask_rows(rt, "maps.txt", maps::answer)?);
    Ok(all)
}

/// Calls files and streams, but for the standard ones.
fn call_all(rt: &(impl Files + Print + AllocGlobal)) -> Result<Tally> {
    let mut all = Tally::NONE;
    all.add(desks::memory_desk(rt)?);
    all.add(desks::file_desk(rt)?);
    all.add(replaced::replaced_files(rt)?);
    all.add(sources::memory_source(rt)?);
    all.add(sinks::memory_sinks(rt)?);
    all.add(streams::files(rt)?);
    all.add(streams::buffer(rt)?);
    Ok(all)
}

fn main(rt: HostRuntime) -> Result<()> {
    let mut all = ask_all(&rt)?;
    all.add(call_all(&rt)?);
    all.add(streams::standard_streams(&rt)?);
    all.print(&rt, "all")?;
    all.verdict()
}
