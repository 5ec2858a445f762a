// Questions about command lines, in which `''` is the empty word, and `N*WORD` is N times the word.
use anyhow::Result;
use command_words::{
    Command, Keeping, Limits, LiveOptions, Range, RunOptions, Target, WordsFault, read_words,
};
use row_tally::Given;
use std::alloc::{AllocError, Global};
use std::fmt::Write;

/// The words that a piece of a row spells, behind those before it.
fn push_words(alloc: Global, words: &mut Vec<String>, piece: &str) -> Result<()> {
    if piece == "''" {
        words.push(String::new(alloc))?;
        return Ok(());
    }
    let (count, word) = piece.split_once('*').unwrap_or(("1", piece));
    for _ in 0..count.parse::<u32>()? {
        words.push(String::from_str(alloc, word)?)?;
    }
    Ok(())
}

fn words_of(alloc: Global, line: &str) -> Result<Vec<String>> {
    let mut words = Vec::new(alloc);
    for piece in line.split_whitespace() {
        push_words(alloc, &mut words, piece)?;
    }
    Ok(words)
}

/// What stands behind a command for a target.
fn target_text(target: Target) -> &'static str {
    match target {
        Target::Original => "",
        Target::ByteWord => " for byteword",
    }
}

/// What stands behind the limits of a run for what it keeps.
fn keeping_text(keeping: Keeping) -> &'static str {
    match keeping {
        Keeping::History => "",
        Keeping::Nothing => " unkept",
    }
}

/// A name, also the empty one.
fn name_text(name: &str) -> &str {
    if name.is_empty() { "''" } else { name }
}

/// The addresses that threads interpret.
fn push_ranges(text: &mut String, ranges: &[Range]) -> Result<(), AllocError> {
    for range in ranges {
        write!(text, " {}:{:X}-{:X}", range.thread, range.first, range.last)?;
    }
    Ok(())
}

fn put_run(text: &mut String, name: &str, options: &RunOptions<'_>) -> Result<(), AllocError> {
    let Limits {
        budget,
        keeping,
        events,
        miss,
    } = options.limits;
    let (name, kept) = (name_text(name), keeping_text(keeping));
    write!(
        text,
        "run {name} budget {budget} events {events} miss {miss}{kept}"
    )?;
    push_ranges(text, &options.ranges)?;
    text.push_str(target_text(options.target))?;
    push_named(text, " order ", &options.order)
}

fn put_live(text: &mut String, name: &str, options: &LiveOptions) -> Result<(), AllocError> {
    let (name, budget, miss) = (name_text(name), options.budget, options.miss);
    write!(text, "live {name} budget {budget} miss {miss}")?;
    push_ranges(text, &options.ranges)?;
    text.push_str(target_text(options.target))?;
    match options.progress {
        Some(steps) => write!(text, " progress {steps}"),
        None => Ok(()),
    }
}

/// The name of a file, behind a text, where one is named.
fn push_named(text: &mut String, before: &str, name: &Option<&str>) -> Result<(), AllocError> {
    match name {
        Some(name) => write!(text, "{before}{}", name_text(name)),
        None => Ok(()),
    }
}

fn put_translate(
    text: &mut String,
    image: &str,
    out: &str,
    target: Target,
    hints: &Option<&str>,
) -> Result<(), AllocError> {
    write!(text, "translate {image} to {out}{}", target_text(target))?;
    push_named(text, " hints ", hints)
}

fn put_replay(
    text: &mut String,
    name: &str,
    file: &str,
    hints: &Option<&str>,
) -> Result<(), AllocError> {
    write!(text, "replay {} by {}", name_text(name), name_text(file))?;
    push_named(text, " hints ", hints)
}

fn put_command(text: &mut String, command: &Command<'_>) -> Result<(), AllocError> {
    match command {
        Command::Run { name, options } => put_run(text, name, options),
        Command::Live { name, options } => put_live(text, name, options),
        Command::Translate {
            image,
            out,
            target,
            hints,
        } => put_translate(text, image, out, *target, hints),
        Command::List { name } => write!(text, "list {name}"),
        Command::Generate { number } => write!(text, "generate {number}"),
        Command::Replay { name, file, hints } => put_replay(text, name, file, hints),
    }
}

/// What the words spell, as text.
fn put_spelled(alloc: Global, text: &mut String, words: &[String]) -> Result<(), AllocError> {
    match read_words(alloc, words) {
        Ok(command) => put_command(text, &command),
        Err(WordsFault::Usage) => text.push_str("none"),
        Err(WordsFault::WantOfMemory) => Err(AllocError),
    }
}

/// Answers a command line by what it spells.
pub fn answer(alloc: Global, _given: &Given<'_>, question: &str) -> Result<String> {
    let words = words_of(alloc, question)?;
    let mut text = String::new(alloc);
    put_spelled(alloc, &mut text, &words)?;
    Ok(text)
}
