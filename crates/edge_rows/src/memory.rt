// Questions about a memory of the sample's image, behind the history that stands beside.
ghost use Rattle.std.specs.Prelude.{◌≡◌, IfOk, true};
ghost use Rattle.image_file.specs.Whole.{IsWhole};
ghost use Rattle.memory_core.specs.Changes.{Allows};
ghost use Rattle.memory_core.specs.Kinds.{writes};

use crate::accesses::{request_of, write_reply};
use crate::texts::parted;
use anyhow::{Context, Result, bail, ensure};
use image_file::{Image, read_image};
use memory_core::{Entry, Kind, Limit, MemState, Reply, Request};
use row_tally::{Given, bytes, longword};
use std::alloc::{AllocError, Global};

const PROCESSORS: u8 = 3;

const INPUT: u8 = 0x61;

/// The bytes of a page.
const PAGE: u32 = 512;

/// Whether an access needs a page that may be written.
fn writes(kind: Kind) -> bool
    ensures { result ≡ writes kind true }
{
    match kind {
        Kind::Store | Kind::StoreConditional | Kind::TieWrite | Kind::TieLocked => true,
        _ => false,
    }
}

/// Makes one access.
fn ask(image: &Image, memory: &mut MemState, request: &Request) -> Result<Reply>
    requires image { memory.old.set_up.image ≡ image.now }
    requires processors { memory.old.processors ≡ 3 }
    requires change { Allows request.now.kind request.now.change }
    ensures image { memory.new.set_up.image ≡ image.now }
    ensures processors { memory.new.processors ≡ 3 }
{
    let writes = writes(request.kind);
    ensure!(request.processor < PROCESSORS, "too great a processor");
    ensure!(request.quad % 8 == 0, "no quadword");
    ensure!(image.pages.allowed(request.quad, writes), "no page");
    Ok(memory.access(request))
}

/// Makes the accesses, and tells their replies.
fn push_replies(
    image: &Image,
    memory: &mut MemState,
    replies: &mut String,
    accesses: &str,
) -> Result<()>
    requires image { memory.old.set_up.image ≡ image.now }
    requires processors { memory.old.processors ≡ 3 }
{
    for access in accesses.split_whitespace() {
        let reply = ask(image, memory, &request_of(access)?)?;
        write_reply(replies, reply)?;
    }
    Ok(())
}

/// A memory for three processors.
fn memory_of(alloc: Global, image: &Image, limit: Limit, miss: u16) -> Result<MemState>
    requires { IsWhole image.now }
    ensures image { IfOk result (λ memory. memory.set_up.image ≡ image.now) }
    ensures processors { IfOk result (λ memory. memory.processors ≡ 3) }
{
    let input = vec![in alloc; INPUT]?;
    match MemState::new(alloc, image, input, PROCESSORS, limit, miss) {
        Ok(memory) => Ok(memory),
        Err(_) => bail!("want of memory"),
    }
}

/// The image that the bytes of a sample mean.
fn image_of(alloc: Global, sample: &str) -> Result<Image>
    ensures { IfOk result IsWhole }
{
    match read_image(alloc, &bytes(alloc, sample)?) {
        Ok(image) => Ok(image),
        Err(_) => bail!("no image"),
    }
}

fn page_text(alloc: Global, memory: &MemState, address: u32) -> Result<String, AllocError> {
    match (memory.page_place(address / PAGE), memory.byte(address)) {
        (Some(place), Some(byte)) => format!(in alloc; "{place:X} {byte:X}"),
        _ => String::from_str(alloc, "- -"),
    }
}

fn text_of(alloc: Global, entry: &Entry) -> Result<String, AllocError> {
    let (processor, kind, quad) = (entry.processor, entry.kind, entry.quad);
    let (before, after) = (entry.before, entry.after);
    let (retired, success) = (entry.retired, entry.success);
    format!(in alloc; "{processor:X} {kind:?} {quad:X} {before:X} {after:X} {retired:X} {success}")
}

fn entry_text(alloc: Global, memory: &MemState, place: u32) -> Result<String> {
    let history = memory.history().context("a history")?;
    let entry = history.get(place as usize).context("an entry")?;
    Ok(text_of(alloc, entry)?)
}

fn entries_text(alloc: Global, memory: &MemState) -> Result<String, AllocError> {
    match memory.history() {
        Some(history) => format!(in alloc; "{:X}", history.len()),
        None => String::from_str(alloc, "-"),
    }
}

/// Answers a question with a number.
fn answer_at(alloc: Global, memory: &MemState, question: &str, number: u32) -> Result<String> {
    match question {
        "page" => Ok(page_text(alloc, memory, number)?),
        "entry" => entry_text(alloc, memory, number),
        _ => bail!("no question"),
    }
}

/// What a memory holds.
fn answer_of(alloc: Global, memory: &MemState, question: &str) -> Result<String> {
    if let Some((question, number)) = question.split_once(' ') {
        return answer_at(alloc, memory, question, longword(number)?);
    }
    match question {
        "output" => Ok(hex::encode_upper(alloc, memory.output())?),
        "entries" => Ok(entries_text(alloc, memory)?),
        _ => bail!("no question"),
    }
}

/// A number of entries, or behind `puts/` of bytes that are put.
fn limit_of(text: &str) -> Result<Limit> {
    match text.strip_prefix("puts/") {
        Some(most) => Ok(Limit::Puts(u64::from(longword(most)?))),
        None => Ok(Limit::Entries(longword(text)?)),
    }
}

/// What stands beside a row: the miss number, the limit, and the accesses.
fn history_of(beside: &str) -> Result<(u16, Limit, &str)> {
    let (miss, rest) = parted(beside, ' ')?;
    let (limit, accesses) = rest.split_once(' ').unwrap_or((rest, ""));
    Ok((u16::try_from(longword(miss)?)?, limit_of(limit)?, accesses))
}

/// What a memory of an image answers behind a history.
fn answer_behind(alloc: Global, image: &Image, beside: &str, question: &str) -> Result<String>
    requires { IsWhole image.now }
{
    let (miss, limit, accesses) = history_of(beside)?;
    let mut memory = memory_of(alloc, image, limit, miss)?;
    let mut replies = String::new(alloc);
    push_replies(image, &mut memory, &mut replies, accesses)?;
    if question == "replies" {
        return Ok(replies);
    }
    answer_of(alloc, &memory, question)
}

/// Answers `replies`, `output`, `entries`, `entry PLACE` and `page ADDRESS`.
pub fn answer(alloc: Global, given: &Given<'_>, question: &str) -> Result<String> {
    let image = image_of(alloc, given.sample)?;
    answer_behind(alloc, &image, given.beside, question)
}
