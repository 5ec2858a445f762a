// One world a row: processors are picked as the row says.
ghost use Rattle.block_law.specs.Translations.{Meets};
ghost use Rattle.image_file.specs.Whole.{IsWhole};
ghost use Rattle.image_meaning.specs.Meant.{image_meaning};
ghost use Rattle.image_meaning.specs.Permits.{any_permit};
ghost use Rattle.world_rows.specs.Ready.{CanRun, IsReady};

use crate::driven::check_driven;
use crate::images::image_of;
use crate::left::left_text;
use crate::nothing::nothing_translated;
use crate::programs::{Limits, Program, made_ready, translated};
use crate::worlds::{advance_often, pick_often, world_of};
use anyhow::{Context, Result, anyhow, ensure};
use image_file::Image;
use row_tally::{Given, RowFault, bytes_or_none, five_fields, longword, number, pairs, pieces};
use std::alloc::Global;
use system_model::{Range, Translation};
use translate::Target;
use vest_core::World;

/// Whether turns are made one at a time, or many at once.
#[derive(Clone, Copy)]
enum Pace {
    One,
    Many,
}

/// Gives a thread so many turns.
fn turn_often(
    world: &mut World,
    program: Program<'_>,
    thread: u8,
    turns: u32,
    pace: Pace,
) -> Result<()>
    requires { IsReady program world.old }
    ensures { IsReady program.entry world.new }
{
    match pace {
        Pace::One => pick_often(world, program, thread, turns),
        Pace::Many => advance_often(world, program, thread, turns),
    }
}

/// Picks threads, each so many times.
fn run(world: &mut World, program: Program<'_>, picks: &[(u32, u32)], pace: Pace) -> Result<()>
    requires { IsReady program world.old }
    ensures { IsReady program.entry world.new }
{
    for (thread, turns) in picks {
        match u8::try_from(*thread) {
            Ok(thread) => turn_often(world, program, thread, *turns, pace)?,
            Err(_) => return Err(anyhow!("no such thread")),
        }
    }
    Ok(())
}

/// The input of a row, the limits, the threads that are picked, and the bytes that are shown.
#[derive(Drop)]
struct Case {
    input: Vec<u8>,
    limits: Limits,
    picks: Vec<(u32, u32)>,
    shown: Vec<(u32, u32)>,
}

fn limits_of(budget: &str, entries: &str) -> Result<Limits, RowFault> {
    Ok(Limits {
        budget: number(budget)?,
        entries: longword(entries)?,
    })
}

impl Case {
    /// Without input, picks and bytes.
    fn empty(alloc: Global) -> Case {
        Case {
            input: Vec::new(alloc),
            limits: Limits {
                budget: 0,
                entries: 0,
            },
            picks: Vec::new(alloc),
            shown: Vec::new(alloc),
        }
    }

    /// Takes what the fields INPUT BUDGET LIMIT PICKS SHOWN say.
    fn read(&mut self, alloc: Global, fields: &str) -> Result<(), RowFault> {
        let (input, budget, entries, picks, shown) = five_fields(fields)?;
        self.limits = limits_of(budget, entries)?;
        self.input = bytes_or_none(alloc, input)?;
        self.picks = pairs(alloc, picks)?;
        self.shown = pairs(alloc, shown)?;
        Ok(())
    }
}

/// What is left of a world where the threads of its case were picked, which has to be what the driven threads leave.
fn left_of(
    alloc: Global,
    world: &mut World,
    program: Program<'_>,
    case: &Case,
    pace: Pace,
) -> Result<String>
    requires whole { IsWhole program.image.now }
    requires ready { IsReady program world.old }
{
    run(world, program, &case.picks, pace)?;
    check_driven(alloc, program.image, &case.input, world)?;
    left_text(alloc, world, &case.shown)
}

fn left_at(alloc: Global, program: Program<'_>, case: &Case, pace: Pace) -> Result<String>
    requires whole { IsWhole program.image.now }
    requires meets { CanRun program }
{
    let mut world = world_of(alloc, program, &case.input, case.limits)?;
    left_of(alloc, &mut world, program, case, pace)
}

/// What is left of it where turns are made one at a time, which has to be what is left where many are made at once.
fn left_at_each(alloc: Global, program: Program<'_>, case: &Case) -> Result<String>
    requires whole { IsWhole program.image.now }
    requires meets { CanRun program }
{
    let left = left_at(alloc, program, case, Pace::One)?;
    let other = left_at(alloc, program, case, Pace::Many)?;
    ensure!(
        other.as_str() == left.as_str(),
        "something else where many turns are made at once"
    );
    Ok(left)
}

/// Whether an image is run with nothing translated, one turn at a time, or with its translation, at each pace.
#[derive(Clone, Copy)]
enum Way {
    Interpreted,
    Translated,
}

fn left_by(alloc: Global, program: Program<'_>, case: &Case, way: Way) -> Result<String>
    requires whole { IsWhole program.image.now }
    requires meets { CanRun program }
{
    match way {
        Way::Interpreted => left_at(alloc, program, case, Pace::One),
        Way::Translated => left_at_each(alloc, program, case),
    }
}

/// The fields of an image, STARTS CODE STORED, and what is behind them.
#[derive(Clone, Copy)]
struct Row<'a> {
    starts: &'a str,
    code: &'a str,
    stored: &'a str,
    case: &'a str,
}

fn row_of(question: &str) -> Option<Row<'_>> {
    let (starts, rest) = question.split_once(' ')?;
    let (code, rest) = rest.split_once(' ')?;
    let (stored, case) = rest.split_once(' ')?;
    Some(Row {
        starts,
        code,
        stored,
        case,
    })
}

/// An image, its case, the addresses that are interpreted, and the way in which it is run.
#[derive(Clone, Copy)]
struct Asked<'a> {
    image: &'a Image,
    case: &'a Case,
    ranges: &'a [Range],
    way: Way,
}

/// What is left of the world of an image with a translation.
fn left_in(alloc: Global, asked: Asked<'_>, translation: &Translation) -> Result<String>
    requires whole { IsWhole asked.image.now }
    requires meets { Meets (image_meaning asked.image.now.pages) (any_permit asked.image.now.pages) translation.now }
{
    let prepared = made_ready(alloc, asked.image, translation)?;
    let program = Program {
        image: asked.image,
        translation,
        prepared: &prepared,
        ranges: asked.ranges,
        miss: 0,
    };
    left_by(alloc, program, asked.case, asked.way)
}

/// The same with its translation for a target.
fn left_for(alloc: Global, asked: Asked<'_>, target: Target) -> Result<String>
    requires { IsWhole asked.image.now }
{
    let translation = translated(alloc, asked.image, target)?;
    left_in(alloc, asked, &translation)
}

fn left_as_asked(alloc: Global, asked: Asked<'_>) -> Result<String>
    requires { IsWhole asked.image.now }
{
    match asked.way {
        Way::Interpreted => {
            let nothing = nothing_translated(alloc, asked.image)?;
            left_in(alloc, asked, &nothing)
        }
        // code for the byte-word extension has other steps: what it leaves has to be what the driven threads leave
        Way::Translated => {
            left_for(alloc, asked, Target::ByteWord)?;
            left_for(alloc, asked, Target::Original)
        }
    }
}

/// The same of the case of a row.
fn left_of_row(
    alloc: Global,
    image: &Image,
    fields: &str,
    ranges: &[Range],
    way: Way,
) -> Result<String>
    requires { IsWhole image.now }
{
    let mut case = Case::empty(alloc);
    case.read(alloc, fields)?;
    let asked = Asked {
        image,
        case: &case,
        ranges,
        way,
    };
    left_as_asked(alloc, asked)
}

/// What is left of the world of a row: STARTS CODE STORED INPUT BUDGET LIMIT PICKS SHOWN.
fn answer_in(alloc: Global, question: &str, ranges: &[Range], way: Way) -> Result<String> {
    let row = row_of(question).context("an image")?;
    let image = image_of(alloc, row.starts, row.code, row.stored)?;
    left_of_row(alloc, &image, row.case, ranges, way)
}

/// The same with nothing translated.
pub fn answer(alloc: Global, _given: &Given<'_>, question: &str) -> Result<String> {
    answer_in(alloc, question, &[], Way::Interpreted)
}

/// A thread and its addresses, written as THREAD:FIRST-LAST.
fn parts_of(text: &str) -> Option<(&str, &str, &str)> {
    let (thread, addresses) = text.split_once(':')?;
    let (first, last) = addresses.split_once('-')?;
    Some((thread, first, last))
}

fn thread_of(digits: &str) -> Result<u8, RowFault> {
    match u8::try_from(longword(digits)?) {
        Ok(thread) => Ok(thread),
        Err(_) => Err(RowFault::NoNumber),
    }
}

fn range_of(text: &str) -> Result<Range, RowFault> {
    let Some((thread, first, last)) = parts_of(text) else {
        return Err(RowFault::OtherCount);
    };
    Ok(Range {
        thread: thread_of(thread)?,
        first: longword(first)?,
        last: longword(last)?,
    })
}

fn push_ranges(ranges: &mut Vec<Range>, pieces: &[&str]) -> Result<(), RowFault> {
    for piece in pieces {
        let range = range_of(piece)?;
        ranges.push(range)?;
    }
    Ok(())
}

/// Ranges with commas between, none for `-`.
fn ranges_of(alloc: Global, text: &str) -> Result<Vec<Range>, RowFault> {
    let pieces = pieces(alloc, text)?;
    let mut ranges = Vec::new(alloc);
    push_ranges(&mut ranges, &pieces)?;
    Ok(ranges)
}

/// The same with its translation, where the ranges before the row are interpreted, whether turns are made one at a time or many at
/// once.
pub fn answer_translated(alloc: Global, _given: &Given<'_>, question: &str) -> Result<String> {
    let (ranges, question) = question.split_once(' ').context("ranges")?;
    let ranges = ranges_of(alloc, ranges)?;
    answer_in(alloc, question, &ranges, Way::Translated)
}
