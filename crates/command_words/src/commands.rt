// The commands, and a reader for each.
ghost use Rattle.std.specs.Prelude.{◌≡◌, ◌≤◌, IfOk, IfSome, List, codes, false, nat_le, option_map};
ghost use Rattle.std.specs.Str.{bytes_eq};
ghost use Rattle.clap.specs.Words.{found_of, rows_of};
ghost use Rattle.command_words.specs.App.{HoldsParts, names_id};
ghost use Rattle.command_words.specs.Answers.{AnswersTo, Reads};
ghost use Rattle.command_words.specs.Parts.{Part, first_of, values_in};
ghost use Rattle.command_words.specs.Numbers.{within, few_ranges, number_in as spec_number_in};
ghost use Rattle.command_words.specs.Commands as spec;

use crate::WordsFault;
use crate::numbers::{Range, few_ranges, number_in};
use crate::values::{only_name, two_names, value_of};
use clap::ArgMatches;
use std::alloc::{AllocError, Global};

/// The number of steps of a processor where no option says it.
const BUDGET: u64 = 100_000_000;

const MOST_BUDGET: u64 = 1_000_000_000_000;

/// The limit of what a run counts where no option says it.
const EVENTS: u64 = 4_194_304;

const MOST_EVENTS: u64 = 4_194_304;

/// The miss number where no option says it.
const MISS: u64 = 0;

const MOST_MISS: u64 = 1_000;

/// The fewest steps from one line that tells how far a thread has come to the next.
const LEAST_PROGRESS: u64 = 1_000_000;

const MOST_PROGRESS: u64 = 1_000_000_000_000;

/// The greatest number of a generated image.
const MOST_GENERATED: u64 = 32_000;

/// What a run keeps of its references.
#[derive(Clone, Copy, Debug, PartialEq, Eq)]
pub enum Keeping {
    /// Their history.
    History,
    /// `--unkept`.
    Nothing,
}

/// What limits a run.
#[derive(Clone, Copy, Debug, PartialEq, Eq)]
pub struct Limits {
    /// How many steps a processor makes at most: up to 10^12.
    pub budget: u64,
    pub keeping: Keeping,
    /// How many entries the history has at most, or how many bytes are put where none is kept: up to 4,194,304.
    pub events: u32,
    /// The number by which store conditionals miss: 0 for never, else 2 to 1,000.
    pub miss: u16,
}

/// The limits of a run where no option gives others.
pub const DEFAULT_LIMITS: Limits = Limits {
    budget: BUDGET,
    keeping: Keeping::History,
    events: EVENTS as u32,
    miss: MISS as u16,
};

/// The processors for which code is made.
#[derive(Clone, Copy, Debug, PartialEq, Eq)]
pub enum Target {
    /// `original`: the first Alpha processors.
    Original,
    /// `byteword`: those with the byte-word extension.
    ByteWord,
}

/// What the options of `run` say.
#[derive(Debug, Drop)]
pub struct RunOptions<'a> {
    pub limits: Limits,
    /// At most 64.
    pub ranges: Vec<Range>,
    pub target: Target,
    /// The name of the file for the order of its references, which are then kept. It is a word of the line, and may be empty.
    pub order: Option<&'a str>,
}

/// What the options of `run --live` say.
#[derive(Debug, Drop)]
pub struct LiveOptions {
    /// How many steps the processor makes at most: up to 10^12.
    pub budget: u64,
    /// The number by which store conditionals miss: 0 for never, else 2 to 1,000.
    pub miss: u16,
    /// At most 64.
    pub ranges: Vec<Range>,
    pub target: Target,
    /// After how many steps more a line tells how far the thread has come: 10^6 to 10^12, or none is told.
    pub progress: Option<u64>,
}

/// What a command line asks for. The names are words of the line.
#[derive(Debug, Drop)]
pub enum Command<'a> {
    /// `run NAME`, with `--budget`, `--events`, `--miss`, `--unkept`, `--target`, `--order` and `--interpret` behind it: runs an image.
    Run {
        name: &'a str,
        options: RunOptions<'a>,
    },
    /// `run NAME --live`, with `--budget`, `--miss`, `--progress`, `--target` and `--interpret` behind it: runs an image that is talked
    /// with.
    Live {
        name: &'a str,
        options: LiveOptions,
    },
    /// `translate IMAGE OUT`, with `--target` and `--hints` behind it: writes the translated file.
    Translate {
        image: &'a str,
        out: &'a str,
        target: Target,
        /// The name of a hint file. It is a word of the line, and may be empty.
        hints: Option<&'a str>,
    },
    /// `list NAME`: writes the listing.
    List {
        name: &'a str,
    },
    /// `generate N`: runs the image that is generated for a number from 1 to 32,000.
    Generate {
        number: u32,
    },
    /// `replay NAME FILE`, with `--hints` behind it: drives an image's threads by the order of a file.
    Replay {
        name: &'a str,
        file: &'a str,
        /// The name of the file for hints. It is a word of the line, and may be empty.
        hints: Option<&'a str>,
    },
}

// The number of an option.
fn number_of(matches: &ArgMatches<'_>, label: &str, default: u64) -> Option<u64>
    requires { bytes_eq names_id label.now ≡ false }
    ensures { (parts : List Part) → HoldsParts parts (rows_of (found_of matches.now))
        → result ≡ spec.number_of label.now default parts }
{
    match value_of(matches, label) {
        Some(text) => number_in(text),
        None => Some(default),
    }
}

fn number_within(matches: &ArgMatches<'_>, label: &str, default: u64, most: u64) -> Option<u64>
    requires { bytes_eq names_id label.now ≡ false }
    ensures value { (parts : List Part) → HoldsParts parts (rows_of (found_of matches.now))
        → result ≡ within (λ n. nat_le n most) (spec.number_of label.now default parts) }
    ensures bound { IfSome result (λ n. n ≤ most) }
{
    let number = number_of(matches, label, default)?;
    if number <= most { Some(number) } else { None }
}

fn miss_of(matches: &ArgMatches<'_>) -> Option<u16>
    ensures { (parts : List Part) → HoldsParts parts (rows_of (found_of matches.now))
        → result ≡ spec.miss_of parts }
{
    let miss = number_of(matches, "miss", MISS)?;
    if miss == 0 || (miss >= 2 && miss <= MOST_MISS) {
        Some(miss as u16)
    } else {
        None
    }
}

// Whether an option stands among the words.
fn has_option(matches: &ArgMatches<'_>, label: &str) -> bool
    requires { bytes_eq names_id label.now ≡ false }
    ensures { (parts : List Part) → HoldsParts parts (rows_of (found_of matches.now))
        → result ≡ spec.has_option label.now parts }
{
    value_of(matches, label).is_some()
}

fn keeping_of(matches: &ArgMatches<'_>) -> Keeping
    ensures { (parts : List Part) → HoldsParts parts (rows_of (found_of matches.now))
        → result ≡ spec.keeping_of parts }
{
    if has_option(matches, "unkept") {
        Keeping::Nothing
    } else {
        Keeping::History
    }
}

fn budget_of(matches: &ArgMatches<'_>) -> Option<u64>
    ensures { (parts : List Part) → HoldsParts parts (rows_of (found_of matches.now))
        → result ≡ spec.budget_of parts }
{
    number_within(matches, "budget", BUDGET, MOST_BUDGET)
}

fn progress_in(text: &str) -> Option<u64>
    ensures { result ≡ within spec.is_progress (spec_number_in text.now) }
{
    let steps = number_in(text)?;
    if steps >= LEAST_PROGRESS && steps <= MOST_PROGRESS {
        Some(steps)
    } else {
        None
    }
}

fn progress_of(matches: &ArgMatches<'_>) -> Option<Option<u64>>
    ensures { (parts : List Part) → HoldsParts parts (rows_of (found_of matches.now))
        → result ≡ spec.progress_of parts }
{
    match value_of(matches, "progress") {
        Some(text) => {
            let steps = progress_in(text)?;
            Some(Some(steps))
        }
        None => Some(None),
    }
}

fn limits_of(matches: &ArgMatches<'_>) -> Option<Limits>
    ensures { (parts : List Part) → HoldsParts parts (rows_of (found_of matches.now))
        → result ≡ spec.limits_of parts }
{
    let budget = budget_of(matches)?;
    let events = number_within(matches, "events", EVENTS, MOST_EVENTS)?;
    let miss = miss_of(matches)?;
    Some(Limits {
        budget,
        keeping: keeping_of(matches),
        events: events as u32,
        miss,
    })
}

fn target_in(text: &str) -> Option<Target>
    ensures { result ≡ spec.target_in text.now }
{
    match text {
        "original" => Some(Target::Original),
        "byteword" => Some(Target::ByteWord),
        _ => None,
    }
}

fn target_of(matches: &ArgMatches<'_>) -> Option<Target>
    ensures { (parts : List Part) → HoldsParts parts (rows_of (found_of matches.now))
        → result ≡ spec.target_of parts }
{
    match value_of(matches, "target") {
        Some(text) => target_in(text),
        None => Some(Target::Original),
    }
}

fn ranges_of(alloc: Global, matches: &ArgMatches<'_>) -> Result<Option<Vec<Range>>, AllocError>
    ensures { (parts : List Part) → HoldsParts parts (rows_of (found_of matches.now))
        → IfOk result (λ o. option_map (λ v. v.items) o
        ≡ few_ranges (values_in (codes "interpret") parts)) }
{
    match matches.get_strs("interpret") {
        Some(texts) => few_ranges(alloc, texts),
        None => Ok(Some(Vec::new(alloc))),
    }
}

// The file by `--order`, or none: only a history that is kept is stored.
fn order_by<'a>(matches: &ArgMatches<'a>, keeping: Keeping) -> Option<Option<&'a str>>
    ensures { (parts : List Part) → HoldsParts parts (rows_of (found_of matches.now))
        → option_map (λ name. option_map (λ s. s.now) name) result ≡ spec.order_by keeping (first_of (values_in (codes "order") parts)) }
{
    let name = value_of(matches, "order");
    match keeping {
        Keeping::Nothing if name.is_some() => None,
        _ => Some(name),
    }
}

fn read_kept<'a>(alloc: Global, matches: &ArgMatches<'a>) -> Result<Command<'a>, WordsFault>
    ensures { (parts : List Part) → HoldsParts parts (rows_of (found_of matches.now))
        → AnswersTo (spec.kept_of parts) result }
{
    let name = only_name(matches).ok_or(WordsFault::Usage)?;
    let limits = limits_of(matches).ok_or(WordsFault::Usage)?;
    let target = target_of(matches).ok_or(WordsFault::Usage)?;
    let order = order_by(matches, limits.keeping).ok_or(WordsFault::Usage)?;
    if has_option(matches, "progress") {
        return Err(WordsFault::Usage);
    }
    match ranges_of(alloc, matches) {
        Ok(Some(ranges)) => Ok(Command::Run {
            name,
            options: RunOptions {
                limits,
                ranges,
                target,
                order,
            },
        }),
        Ok(None) => Err(WordsFault::Usage),
        Err(_) => Err(WordsFault::WantOfMemory),
    }
}

// Whether no option stands that doesn't go with `--live`.
fn has_none_beside_live(matches: &ArgMatches<'_>) -> bool
    ensures { (parts : List Part) → HoldsParts parts (rows_of (found_of matches.now))
        → result ≡ spec.has_none_beside_live parts }
{
    !(has_option(matches, "unkept")
        || has_option(matches, "events")
        || has_option(matches, "order"))
}

fn read_live<'a>(alloc: Global, matches: &ArgMatches<'a>) -> Result<Command<'a>, WordsFault>
    ensures { (parts : List Part) → HoldsParts parts (rows_of (found_of matches.now))
        → AnswersTo (spec.live_of parts) result }
{
    let name = only_name(matches).ok_or(WordsFault::Usage)?;
    let budget = budget_of(matches).ok_or(WordsFault::Usage)?;
    let miss = miss_of(matches).ok_or(WordsFault::Usage)?;
    let target = target_of(matches).ok_or(WordsFault::Usage)?;
    let progress = progress_of(matches).ok_or(WordsFault::Usage)?;
    if !has_none_beside_live(matches) {
        return Err(WordsFault::Usage);
    }
    match ranges_of(alloc, matches) {
        Ok(Some(ranges)) => Ok(Command::Live {
            name,
            options: LiveOptions {
                budget,
                miss,
                ranges,
                target,
                progress,
            },
        }),
        Ok(None) => Err(WordsFault::Usage),
        Err(_) => Err(WordsFault::WantOfMemory),
    }
}

pub fn read_run<'a>(alloc: Global, matches: &ArgMatches<'a>) -> Result<Command<'a>, WordsFault>
    ensures { (parts : List Part) → HoldsParts parts (rows_of (found_of matches.now))
        → AnswersTo (spec.run_of parts) result }
{
    if has_option(matches, "live") {
        read_live(alloc, matches)
    } else {
        read_kept(alloc, matches)
    }
}

pub fn read_translate<'a>(matches: &ArgMatches<'a>) -> Option<Command<'a>>
    ensures { (parts : List Part) → HoldsParts parts (rows_of (found_of matches.now))
        → Reads (spec.translate_of parts) result }
{
    let (image, out) = two_names(matches)?;
    let target = target_of(matches)?;
    let hints = value_of(matches, "hints");
    Some(Command::Translate {
        image,
        out,
        target,
        hints,
    })
}

pub fn read_list<'a>(matches: &ArgMatches<'a>) -> Option<Command<'a>>
    ensures { (parts : List Part) → HoldsParts parts (rows_of (found_of matches.now))
        → Reads (spec.list_of parts) result }
{
    let name = only_name(matches)?;
    Some(Command::List { name })
}

pub fn read_generate<'a>(matches: &ArgMatches<'a>) -> Option<Command<'a>>
    ensures { (parts : List Part) → HoldsParts parts (rows_of (found_of matches.now))
        → Reads (spec.generate_of parts) result }
{
    let number = number_in(only_name(matches)?)?;
    if number < 1 || number > MOST_GENERATED {
        return None;
    }
    Some(Command::Generate {
        number: number as u32,
    })
}

pub fn read_replay<'a>(matches: &ArgMatches<'a>) -> Option<Command<'a>>
    ensures { (parts : List Part) → HoldsParts parts (rows_of (found_of matches.now))
        → Reads (spec.replay_of parts) result }
{
    let (name, file) = two_names(matches)?;
    let hints = value_of(matches, "hints");
    Some(Command::Replay { name, file, hints })
}
