// The tables of threads, sections and entries.
ghost use Rattle.std.specs.Prelude.{◌≡◌, ◌≤◌, ◌+◌, ◌*◌, length, drop, IfOk};
ghost use Rattle.image_file.specs.Limits.{start_width};
ghost use Rattle.image_file.specs.Reading.{word, first_in, start_in, row_in, table_in, tables_end, threads_in, rows_in, entries_in};

use crate::fields::word_at;
use crate::header::Counts;
use crate::image::Start;
use crate::limits::*;
use crate::rows::Row;
use std::alloc::{AllocError, Global};

/// What the tables of a file hold.
#[derive(Debug, Drop)]
pub struct Tables {
    pub threads: Vec<Start>,
    pub rows: Vec<Row>,
    pub entries: Vec<u32>,
}

fn registers_at(bytes: &[u8], at: usize) -> [u32; FIRST_REGISTERS]
    requires { at + REGISTER_BYTES * FIRST_REGISTERS ≤ length bytes.now }
    ensures { result ≡ table_in REGISTER_BYTES word FIRST_REGISTERS (drop at bytes.now) }
{
    let mut registers = [0; FIRST_REGISTERS];
    for number in 0..FIRST_REGISTERS {
        registers[number] = word_at(bytes, at + REGISTER_BYTES * number);
    }
    registers
}

fn first_at(version: u16, bytes: &[u8], at: usize) -> [u32; FIRST_REGISTERS]
    requires { at + start_width version ≤ FIRST_AT + length bytes.now }
    ensures { result ≡ first_in version (drop at bytes.now) }
{
    if version == VERSION_1 {
        [0; FIRST_REGISTERS]
    } else {
        registers_at(bytes, at)
    }
}

fn start_at(version: u16, bytes: &[u8], at: usize) -> Start
    requires { at + start_width version ≤ length bytes.now }
    ensures { result ≡ start_in version (drop at bytes.now) }
{
    Start {
        pc: word_at(bytes, at),
        sp: word_at(bytes, at + 4),
        first: first_at(version, bytes, at + FIRST_AT),
    }
}

fn row_at(bytes: &[u8], at: usize) -> Row
    requires { at + ROW_BYTES ≤ length bytes.now }
    ensures { result ≡ row_in (drop at bytes.now) }
{
    Row {
        start: word_at(bytes, at),
        size: word_at(bytes, at + 4),
        stored: word_at(bytes, at + 8),
        flags: word_at(bytes, at + 12),
    }
}

/// The table of threads, which stands in front.
fn threads_of(
    alloc: Global,
    version: u16,
    count: u16,
    bytes: &[u8],
) -> Result<Vec<Start>, AllocError>
    requires { start_width version * count ≤ length bytes.now }
    ensures { IfOk result (λ v. v.items ≡ table_in (start_width version) (start_in version) count bytes.now) }
{
    let width = start_width(version);
    let mut threads = Vec::new(alloc);
    for place in 0..count {
        threads.push(start_at(version, bytes, width * place as usize))?;
    }
    Ok(threads)
}

/// The section table, which stands in front.
fn rows_of(alloc: Global, count: u16, bytes: &[u8]) -> Result<Vec<Row>, AllocError>
    requires { ROW_BYTES * count ≤ length bytes.now }
    ensures { IfOk result (λ v. v.items ≡ table_in ROW_BYTES row_in count bytes.now) }
{
    let mut rows = Vec::new(alloc);
    for place in 0..count {
        rows.push(row_at(bytes, ROW_BYTES * place as usize))?;
    }
    Ok(rows)
}

/// The entries, which stand in front.
fn entries_of(alloc: Global, count: u16, bytes: &[u8]) -> Result<Vec<u32>, AllocError>
    requires { ENTRY_BYTES * count ≤ length bytes.now }
    ensures { IfOk result (λ v. v.items ≡ table_in ENTRY_BYTES word count bytes.now) }
{
    let mut entries = Vec::new(alloc);
    for place in 0..count {
        entries.push(word_at(bytes, ENTRY_BYTES * place as usize))?;
    }
    Ok(entries)
}

/// The three tables behind the header.
pub fn tables_of(alloc: Global, counts: &Counts, bytes: &[u8]) -> Result<Tables, AllocError>
    requires { tables_end counts.now ≤ length bytes.now }
    ensures threads { IfOk result (λ tables. tables.threads.items ≡ threads_in counts.now bytes.now) }
    ensures rows { IfOk result (λ tables. tables.rows.items ≡ rows_in counts.now bytes.now) }
    ensures entries { IfOk result (λ tables. tables.entries.items ≡ entries_in counts.now bytes.now) }
{
    let rows_at = counts.rows_at();
    let entries_at = rows_at + ROW_BYTES * counts.sections as usize;
    Ok(Tables {
        threads: threads_of(alloc, counts.version, counts.threads, &bytes[HEADER..])?,
        rows: rows_of(alloc, counts.sections, &bytes[rows_at..])?,
        entries: entries_of(alloc, counts.entries, &bytes[entries_at..])?,
    })
}
