// Reads accesses, and writes their replies.
ghost use Rattle.std.specs.Prelude.{IfOk};
ghost use Rattle.memory_core.specs.Changes.{Allows};

use crate::texts::parted;
use anyhow::{Result, bail};
use memory_core::{Change, Kind, Reply, Request};
use row_tally::{longword, number};
use std::alloc::AllocError;

/// How many instructions of its thread each access says to have ended before.
const RETIRED: u64 = 5;

fn byte(text: &str) -> Result<u8> {
    Ok(u8::try_from(longword(text)?)?)
}

/// The numbers of FIRST/SECOND, the first below 256.
fn byte_and_number(text: &str) -> Result<(u8, u64)> {
    let (first, second) = parted(text, '/')?;
    Ok((byte(first)?, number(second)?))
}

/// The kind and the change of an operation with one number.
fn kind_and_change_by(name: &str, argument: u64) -> Result<(Kind, Change)>
    ensures { IfOk result (λ pair. Allows pair.0 pair.1) }
{
    let small = (argument % 256) as u8;
    let all = Change::Bytes {
        mask: 0xff,
        value: argument,
    };
    match name {
        "load" => Ok((Kind::Load, Change::Nothing)),
        "locked" => Ok((Kind::LoadLocked, Change::Nothing)),
        "conditional" => Ok((Kind::StoreConditional, all)),
        "tie-read" => Ok((Kind::TieRead, Change::Nothing)),
        "set" => Ok((Kind::TieLocked, Change::SetBit(small % 64))),
        "clear" => Ok((Kind::TieLocked, Change::ClearBit(small % 64))),
        "put" => Ok((Kind::Put, Change::Byte(small))),
        "get" => Ok((Kind::Get, Change::Nothing)),
        _ => bail!("no operation"),
    }
}

/// The kind and the change of an operation with two numbers, the first of which is a mask or the place of a word.
fn kind_and_change_with(name: &str, first: u8, value: u64) -> Result<(Kind, Change)>
    ensures { IfOk result (λ pair. Allows pair.0 pair.1) }
{
    let bytes = Change::Bytes { mask: first, value };
    let word = Change::AddWord {
        at: 2 * (first % 4),
        value: (value % 0x1_0000) as u16,
    };
    match name {
        "store" => Ok((Kind::Store, bytes)),
        "tie-write" => Ok((Kind::TieWrite, bytes)),
        "add" => Ok((Kind::TieLocked, word)),
        _ => bail!("no operation"),
    }
}

/// The kind and the change of an operation.
fn kind_and_change(text: &str) -> Result<(Kind, Change)>
    ensures { IfOk result (λ pair. Allows pair.0 pair.1) }
{
    let (name, argument) = text.split_once('=').unwrap_or((text, "0"));
    if !argument.contains("/") {
        return kind_and_change_by(name, number(argument)?);
    }
    let (first, value) = byte_and_number(argument)?;
    kind_and_change_with(name, first, value)
}

/// Reads PROCESSOR:OPERATION:QUADWORD.
pub fn request_of(text: &str) -> Result<Request>
    ensures { IfOk result (λ request. Allows request.kind request.change) }
{
    let (processor, rest) = parted(text, ':')?;
    let (operation, quad) = parted(rest, ':')?;
    let (kind, change) = kind_and_change(operation)?;
    Ok(Request {
        processor: byte(processor)?,
        retired: RETIRED,
        kind,
        quad: longword(quad)?,
        change,
    })
}

/// What an access found, and how it ended, behind the replies before it.
pub fn write_reply(text: &mut String, reply: Reply) -> Result<(), AllocError> {
    if !text.is_empty() {
        text.push(' ')?;
    }
    match reply {
        Reply::Made { before, success } => {
            let end = if success { "made" } else { "failed" };
            write!(text, "{before:X}:{end}")
        }
        Reply::Full => text.push_str("full"),
    }
}
