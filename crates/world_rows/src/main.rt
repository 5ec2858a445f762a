//! Runs worlds of small images as the rows of data/ say, turn by turn, with their translation and interpreted, compares what is
//! left with what stands there, and each world with the threads driven by the order of its history; says by which rules codes are
//! told along translated runs; and checks histories of two threads entry by entry against the threads driven by their orders.
//!
//! `images` makes the image of a row, `programs` translates it, `worlds` picks its processors, `driven` compares a world with
//! the driven threads, `replayed` these with a replay of its order and of orders like it, `report`, `texts` and `left` say in text what
//! is left. `turns` and `interleavings` go through the files, and `translations` says what a translation has; `nothing` is a
//! translation of nothing. `machine` makes accesses, `histories` compares their history with the driven threads, and `increments` has
//! the histories: one of what its threads do, and two of other accesses, which may not match.
#![tactic(auto)]

mod driven;
mod histories;
mod images;
mod increments;
mod interleavings;
mod left;
mod machine;
mod nothing;
mod programs;
mod replayed;
mod report;
mod texts;
mod translations;
mod turns;
mod worlds;

use anyhow::Result;
use row_tally::{Tally, ask_rows};

fn main(rt: HostRuntime) -> Result<()> {
    let mut all = Tally::NONE;
    all.add(ask_rows(&rt, "turns.txt", turns::answer)?);
    all.add(ask_rows(&rt, "ranges.txt", turns::answer_translated)?);
    all.add(ask_rows(&rt, "interleavings.txt", interleavings::answer)?);
    all.add(ask_rows(&rt, "rules.txt", translations::rules)?);
    all.add(increments::increments(&rt)?);
    all.print(&rt, "all")?;
    all.verdict()
}
