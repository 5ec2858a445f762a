// Every interleaving of the turns of two threads.
ghost use Rattle.block_law.specs.Translations.{Meets};
ghost use Rattle.image_file.specs.Whole.{IsWhole};
ghost use Rattle.image_meaning.specs.Meant.{image_meaning};
ghost use Rattle.image_meaning.specs.Permits.{any_permit};
ghost use Rattle.world_rows.specs.Ready.{CanRun, IsReady};

use crate::driven::check_driven;
use crate::images::image_of;
use crate::nothing::nothing_translated;
use crate::programs::{Limits, Program, made_ready};
use crate::report::Report;
use crate::texts::put_bytes;
use crate::worlds::{pick, world_of};
use anyhow::Result;
use image_file::Image;
use row_tally::{Given, RowFault, four_fields, longword, pair};
use std::alloc::{AllocError, Global};
use system_model::{End, Translation};
use vest_core::{Processor, World};

/// The longest lists of picks.
const MOST_PICKS: u32 = 12;

/// Enough for the threads of the rows.
const LIMITS: Limits = Limits {
    budget: 100,
    entries: 100,
};

/// Picks thread 1 where a bit is set and thread 0 where it is not, from the lowest bit on.
fn pick_each(world: &mut World, program: Program<'_>, picks: u32, turns: u32) -> Result<()>
    requires { IsReady program world.old }
{
    for turn in 0..turns.min(MOST_PICKS) {
        let thread = u8::from(picks >> turn & 1 == 1);
        pick(world, program, thread)?;
    }
    Ok(())
}

/// The world behind a list of picks.
fn ran(alloc: Global, program: Program<'_>, picks: u32, turns: u32) -> Result<World>
    requires whole { IsWhole program.image.now }
    requires meets { CanRun program }
{
    let mut world = world_of(alloc, program, &[], LIMITS)?;
    pick_each(&mut world, program, picks, turns)?;
    Ok(world)
}

/// The bytes that a row asks for.
#[derive(Clone, Copy)]
struct Shown {
    first: u32,
    count: u32,
}

/// The exits of threads. Tells whether each has exited.
fn put_exits(report: &mut Report, processors: &[Processor]) -> bool {
    for processor in processors {
        match processor.end() {
            Some(End::Exit(value)) => {
                report.put(" exit ");
                report.longword(value);
            }
            _ => return false,
        }
    }
    true
}

/// What is left in the bytes that the row asks for, and the exit of each thread. None: one has not exited.
fn left_text(alloc: Global, world: &World, shown: Shown) -> Result<Option<String>, AllocError> {
    let mut report = Report::new(alloc);
    put_bytes(&mut report, world.memory(), shown.first, shown.count);
    if put_exits(&mut report, world.processors()) {
        Ok(Some(report.end()?))
    } else {
        Ok(None)
    }
}

/// What is left, and behind how many lists of picks.
#[derive(Drop)]
struct Outcome {
    text: String,
    lists: u32,
}

/// Counts one more list that leaves this.
fn count(outcomes: &mut Vec<Outcome>, text: String) -> Result<(), AllocError> {
    for outcome in outcomes.iter_mut() {
        if outcome.text.as_str() == text.as_str() {
            outcome.lists = outcome.lists.saturating_add(1);
            return Ok(());
        }
    }
    outcomes.push(Outcome { text, lists: 1 })?;
    Ok(())
}

/// What is left of a world, which is compared with the driven threads.
fn left_of(alloc: Global, world: &World, image: &Image, shown: Shown) -> Result<Option<String>>
    requires { IsWhole image.now }
{
    check_driven(alloc, image, &[], world)?;
    Ok(left_text(alloc, world, shown)?)
}

/// What is left behind a list of picks.
fn left_behind(
    alloc: Global,
    program: Program<'_>,
    picks: u32,
    turns: u32,
    shown: Shown,
) -> Result<Option<String>>
    requires whole { IsWhole program.image.now }
    requires meets { CanRun program }
{
    let world = ran(alloc, program, picks, turns)?;
    left_of(alloc, &world, program.image, shown)
}

/// Counts what is left behind every list of so many picks that ends both threads.
fn count_all(
    alloc: Global,
    outcomes: &mut Vec<Outcome>,
    program: Program<'_>,
    length: u32,
    shown: Shown,
) -> Result<()>
    requires whole { IsWhole program.image.now }
    requires meets { CanRun program }
{
    for picks in 0..1u32 << length.min(MOST_PICKS) {
        if let Some(text) = left_behind(alloc, program, picks, length, shown)? {
            count(outcomes, text)?;
        }
    }
    Ok(())
}

fn outcomes_of(alloc: Global, program: Program<'_>, length: u32, shown: Shown) -> Result<String>
    requires whole { IsWhole program.image.now }
    requires meets { CanRun program }
{
    let mut outcomes = Vec::new(alloc);
    count_all(alloc, &mut outcomes, program, length, shown)?;
    Ok(outcomes_text(alloc, &outcomes)?)
}

fn outcomes_text(alloc: Global, outcomes: &[Outcome]) -> Result<String, AllocError> {
    let mut report = Report::new(alloc);
    for (place, outcome) in outcomes.iter().enumerate() {
        if place > 0 {
            report.put("; ");
        }
        report.count(u64::from(outcome.lists));
        report.put(" ");
        report.put(outcome.text.as_str());
    }
    report.end()
}

/// The lists of picks of a row, by their length, and the bytes that it asks for.
#[derive(Clone, Copy)]
struct Asked {
    length: u32,
    shown: Shown,
}

/// What is left of an image with a translation.
fn answer_in(
    alloc: Global,
    image: &Image,
    translation: &Translation,
    asked: Asked,
) -> Result<String>
    requires whole { IsWhole image.now }
    requires meets { Meets (image_meaning image.now.pages) (any_permit image.now.pages) translation.now }
{
    let prepared = made_ready(alloc, image, translation)?;
    let program = Program {
        image,
        translation,
        prepared: &prepared,
        ranges: &[],
        miss: 0,
    };
    outcomes_of(alloc, program, asked.length, asked.shown)
}

/// What is left of an image of which nothing is translated.
fn answer_of(alloc: Global, image: &Image, asked: Asked) -> Result<String>
    requires { IsWhole image.now }
{
    let translation = nothing_translated(alloc, image)?;
    answer_in(alloc, image, &translation, asked)
}

/// The bytes that a field asks for.
fn shown_of(field: &str) -> Result<Shown, RowFault> {
    let (first, count) = pair(field)?;
    Ok(Shown { first, count })
}

fn asked_of(length: &str, shown: &str) -> Result<Asked, RowFault> {
    Ok(Asked {
        length: longword(length)?,
        shown: shown_of(shown)?,
    })
}

/// How often what is left behind the lists of picks of a row, in the order in which they come: STARTS CODE LENGTH SHOWN.
pub fn answer(alloc: Global, _given: &Given<'_>, question: &str) -> Result<String> {
    let (starts, code, length, shown) = four_fields(question)?;
    let asked = asked_of(length, shown)?;
    let image = image_of(alloc, starts, code, "-")?;
    answer_of(alloc, &image, asked)
}
