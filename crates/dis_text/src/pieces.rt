// The pieces of a section as text.
ghost use Rattle.std.specs.Prelude.{◌≡◌, ◌<◌, ◌≤◌, ◌^◌, ◌++◌, [], All, IfOk, OnOk, Some, filter, if◌then◌else◌, map, unwrap_or};
ghost use Rattle.std.specs.List.{flat_map, range_with_len};
ghost use Rattle.vax_form.specs.Grammar.{Spells, extended, wrapped};
ghost use Rattle.vax_form.specs.GrammarLaws.{AreBytes};
ghost use Rattle.vax_form.specs.declared.instr.Size.TheVariants.{Word};
ghost use Rattle.flow_discovery.specs.Flow.{table_target};
ghost use Rattle.flow_discovery.specs.Reach.{instruction_at};
ghost use Rattle.dis_text.specs.Before.{text_before};
ghost use Rattle.dis_text.specs.Bytes.{byte_at, bytes_at};
ghost use Rattle.dis_text.specs.Lines.{inside_text, instruction_line, interpreted_text, zeros_line};
ghost use Rattle.dis_text.specs.Listing.{begins_in, end_of, is_told, piece_line, piece_text};
ghost use Rattle.dis_text.specs.Made.{covered_value, listed};
ghost use Rattle.dis_text.specs.Pieces.{byte_lines, bytes, gap, instruction, pieces, table_word, unread, word, zero_line};
ghost use Rattle.dis_text.specs.Words.{block_text};

use crate::code::{Code, put_block_text};
use crate::covered::{Covered, address_of, count_of};
use crate::extent::{begins_in, end_of};
use crate::labels::Before;
use crate::put::{put_characters, put_front, put_hexadecimal, put_longword};
use image_file::Section;
use std::alloc::{AllocError, Global};
use vax_form::{Instr, Pages};
use vax_long::code_word;
use vax_text::instruction_text;

/// Addresses have 32 bits.
const ADDRESSES: u64 = 0x1_0000_0000;

/// The most bytes of a line.
const LINE_BYTES: u64 = 8;

/// Of which addresses lines go out, the first and the last included.
#[derive(Clone, Copy, Debug)]
pub struct Range {
    pub first: u32,
    pub last: u32,
}

/// What is listed.
#[derive(Clone, Copy)]
pub struct Listing<'a> {
    pub alloc: Global,
    pub pages: &'a Pages,
    pub before: &'a Before,
    pub code: Code<'a>,
    pub range: Range,
}

// Of an address of 32 bits.
fn wrapped(address: u64) -> u32
    ensures { result ≡ wrapped address }
{
    (address % ADDRESSES) as u32
}

fn byte_at(pages: &Pages, address: u64) -> u8
    ensures { result ≡ byte_at pages.now address }
{
    pages.code_byte(wrapped(address)).unwrap_or(0)
}

/// So many bytes from an address on.
fn bytes_at(alloc: Global, pages: &Pages, at: u64, count: u64) -> Result<Vec<u8>, AllocError>
    requires low { at < 2 ^ 40 }
    requires few { count < 2 ^ 40 }
    ensures { IfOk result (λ v. v.items ≡ bytes_at pages.now at count) }
{
    let mut bytes = Vec::new(alloc);
    for k in 0..count {
        bytes.push(byte_at(pages, at + k))?;
    }
    Ok(bytes)
}

impl Listing<'_> {
    // Whether the line of an address goes out.
    pub fn tells(&self, address: u64) -> bool
        ensures { result ≡ is_told (listed self.now) address }
    {
        u64::from(self.range.first) <= address && address <= u64::from(self.range.last)
    }
}

fn put_before(out: &mut Vec<u8>, before: &Before, address: u64) -> Result<(), AllocError>
    ensures { OnOk result (out.new.items ≡ out.old.items ++ text_before before.now address) }
{
    match before.get(&address) {
        Some(text) => out.extend_from_slice(text),
        None => Ok(()),
    }
}

// ---- an instruction

/// The code of a page table has bytes alone.
fn table_has_bytes(pages: &Pages)
    ensures { AreBytes pages.now.code }
{
    code_has_bytes(pages.code.as_slice());
}

fn code_has_bytes(code: &[u8])
    ensures { AreBytes code.now }
{}

fn put_interpreted(out: &mut Vec<u8>, has_block: bool) -> Result<(), AllocError>
    ensures { OnOk result (out.new.items ≡ out.old.items ++ interpreted_text has_block) }
{
    if has_block {
        Ok(())
    } else {
        out.extend_from_slice(b" ; interpreted")
    }
}

fn put_inside(out: &mut Vec<u8>, inside: Option<u32>) -> Result<(), AllocError>
    ensures { OnOk result (out.new.items ≡ out.old.items ++ inside_text inside) }
{
    if let Some(address) = inside {
        out.extend_from_slice(b" ; inside ")?;
        put_longword(out, u64::from(address))?;
    }
    Ok(())
}

fn put_instruction_line(
    out: &mut Vec<u8>,
    bytes: &[u8],
    instr: &Instr,
    inside: Option<u32>,
    has_block: bool,
) -> Result<(), AllocError>
    requires { Spells instr.now.at bytes.now instr.now }
    ensures { OnOk result (out.new.items ≡ out.old.items ++ instruction_line bytes.now instr.now inside has_block) }
{
    put_front(out, u64::from(instr.at), bytes)?;
    out.extend_from_slice(instruction_text(instr, bytes).as_slice())?;
    put_interpreted(out, has_block)?;
    put_inside(out, inside)?;
    out.push(b'\n')?;
    Ok(())
}

// The words of an instruction's block, where they are asked for.
fn put_code(out: &mut Vec<u8>, code: &Code<'_>, first: Option<u32>) -> Result<(), AllocError>
    ensures { OnOk result (out.new.items ≡ out.old.items ++ (if code.now.is_told then block_text code.now.words.now code.now.map.now first else [])) }
{
    if code.is_told {
        put_block_text(out, code, first)?;
    }
    Ok(())
}

fn put_instruction_piece(
    out: &mut Vec<u8>,
    listing: &Listing<'_>,
    instr: &Instr,
    inside: Option<u32>,
) -> Result<(), AllocError>
    requires { instruction_at listing.now.pages.now instr.now.at ≡ Some instr.now }
    ensures { OnOk result (out.new.items ≡ out.old.items ++ piece_line (listed listing.now) (instruction instr.now inside)) }
{
    table_has_bytes(listing.pages);
    let first = listing.code.map.look_up(instr.at);
    let at = address_of(instr);
    let count = u64::from(count_of(instr));
    let bytes = bytes_at(listing.alloc, listing.pages, at, count)?;
    put_instruction_line(out, &bytes, instr, inside, first.is_some())?;
    put_code(out, &listing.code, first)?;
    Ok(())
}

fn put_instruction(
    out: &mut Vec<u8>,
    listing: &Listing<'_>,
    instr: &Instr,
    inside: Option<u32>,
) -> Result<(), AllocError>
    requires { instruction_at listing.now.pages.now instr.now.at ≡ Some instr.now }
    ensures { OnOk result (out.new.items ≡ out.old.items ++ piece_text (listed listing.now) (instruction instr.now inside)) }
{
    let at = u64::from(instr.at);
    if listing.tells(at) {
        put_before(out, listing.before, at)?;
        put_instruction_piece(out, listing, instr, inside)?;
    }
    Ok(())
}

// ---- the table of a CASE

// A word, sign-extended.
fn extended(word: u16) -> u64
    ensures { result ≡ extended Word word }
{
    let word = u64::from(word);
    if word < 0x8000 {
        word
    } else {
        word + 0xFFFF_0000
    }
}

// The target of a table's word, 0 where the code ends before it.
fn target_of(pages: &Pages, table: u64, number: u64) -> u32
    requires low { table < 2 ^ 40 }
    requires few { number < 2 ^ 40 }
    ensures { result ≡ unwrap_or (table_target pages.now table number) 0 }
{
    match code_word(pages, wrapped(table + 2 * number)) {
        Some(displacement) => wrapped(table + extended(displacement)),
        None => 0,
    }
}

fn put_word_line(
    out: &mut Vec<u8>,
    listing: &Listing<'_>,
    at: u64,
    target: u32,
) -> Result<(), AllocError>
    requires { at < 2 ^ 40 }
    ensures { OnOk result (out.new.items ≡ out.old.items ++ piece_line (listed listing.now) (word at target)) }
{
    let bytes = bytes_at(listing.alloc, listing.pages, at, 2)?;
    put_front(out, at, &bytes)?;
    out.extend_from_slice(b".WORD ")?;
    put_hexadecimal(out, u64::from(target))?;
    out.push(b'\n')?;
    Ok(())
}

fn put_word(
    out: &mut Vec<u8>,
    listing: &Listing<'_>,
    table: u64,
    number: u64,
) -> Result<(), AllocError>
    requires low { table < 2 ^ 36 }
    requires few { number < 2 ^ 36 }
    ensures { OnOk result (out.new.items ≡ out.old.items ++ piece_text (listed listing.now) (table_word listing.now.pages.now table number)) }
{
    let at = table + 2 * number;
    if listing.tells(at) {
        put_before(out, listing.before, at)?;
        put_word_line(out, listing, at, target_of(listing.pages, table, number))?;
    }
    Ok(())
}

fn put_table(
    out: &mut Vec<u8>,
    listing: &Listing<'_>,
    table: u64,
    count: u64,
) -> Result<(), AllocError>
    requires low { table < 2 ^ 36 }
    requires few { count < 2 ^ 36 }
    ensures { OnOk result (out.new.items ≡ out.old.items ++ flat_map (piece_text (listed listing.now)) (map (table_word listing.now.pages.now table) (range_with_len 0 count))) }
{
    for number in 0..count {
        put_word(out, listing, table, number)?;
    }
    Ok(())
}

// ---- bytes that are no code

fn put_bytes_line(
    out: &mut Vec<u8>,
    listing: &Listing<'_>,
    at: u64,
    count: u64,
) -> Result<(), AllocError>
    requires low { at < 2 ^ 40 }
    requires few { count ≤ 8 }
    ensures { OnOk result (out.new.items ≡ out.old.items ++ piece_line (listed listing.now) (bytes at count)) }
{
    let bytes = bytes_at(listing.alloc, listing.pages, at, count)?;
    put_front(out, at, &bytes)?;
    out.extend_from_slice(b"; ")?;
    put_characters(out, &bytes)?;
    out.push(b'\n')?;
    Ok(())
}

fn put_bytes(
    out: &mut Vec<u8>,
    listing: &Listing<'_>,
    at: u64,
    count: u64,
) -> Result<(), AllocError>
    requires low { at < 2 ^ 40 }
    requires few { count ≤ 8 }
    ensures { OnOk result (out.new.items ≡ out.old.items ++ piece_text (listed listing.now) (bytes at count)) }
{
    if listing.tells(at) {
        put_before(out, listing.before, at)?;
        put_bytes_line(out, listing, at, count)?;
    }
    Ok(())
}

fn put_lines(out: &mut Vec<u8>, listing: &Listing<'_>, at: u64, end: u64) -> Result<(), AllocError>
    requires low { at < 2 ^ 36 }
    requires near { end < 2 ^ 36 }
    ensures { OnOk result (out.new.items ≡ out.old.items ++ flat_map (piece_text (listed listing.now)) (byte_lines at end)) }
{
    let count = (end.saturating_sub(at) + (LINE_BYTES - 1)) / LINE_BYTES;
    for line in 0..count {
        let from = at + LINE_BYTES * line;
        put_bytes(out, listing, from, LINE_BYTES.min(end.saturating_sub(from)))?;
    }
    Ok(())
}

fn put_zeros_line(out: &mut Vec<u8>, at: u64, count: u64) -> Result<(), AllocError>
    requires low { at < 2 ^ 40 }
    requires few { count < 2 ^ 40 }
    ensures { OnOk result (out.new.items ≡ out.old.items ++ zeros_line at count) }
{
    out.extend_from_slice(b"; ")?;
    put_longword(out, at)?;
    out.extend_from_slice(b" to ")?;
    put_longword(out, (at + count).saturating_sub(1))?;
    out.extend_from_slice(b" 0\n")
}

fn put_zeros(out: &mut Vec<u8>, listing: &Listing<'_>, at: u64, end: u64) -> Result<(), AllocError>
    requires low { at < 2 ^ 40 }
    requires near { end < 2 ^ 40 }
    ensures { OnOk result (out.new.items ≡ out.old.items ++ flat_map (piece_text (listed listing.now)) (zero_line at end)) }
{
    if at < end && listing.tells(at) {
        put_before(out, listing.before, at)?;
        put_zeros_line(out, at, end - at)?;
    }
    Ok(())
}

fn put_unread(
    out: &mut Vec<u8>,
    listing: &Listing<'_>,
    stored: u64,
    at: u64,
    end: u64,
) -> Result<(), AllocError>
    requires low { at < 2 ^ 36 }
    requires near { end < 2 ^ 36 }
    requires held { stored < 2 ^ 36 }
    ensures { OnOk result (out.new.items ≡ out.old.items ++ flat_map (piece_text (listed listing.now)) (unread stored at end)) }
{
    put_lines(out, listing, at, end.min(stored))?;
    put_zeros(out, listing, at.max(stored), end)?;
    Ok(())
}

/// What stands between what is covered and an address.
fn put_gap(
    out: &mut Vec<u8>,
    listing: &Listing<'_>,
    stored: u64,
    covered: Covered,
    to: u64,
) -> Result<(), AllocError>
    requires low { covered.end < 2 ^ 33 }
    requires near { to < 2 ^ 33 }
    requires held { stored < 2 ^ 33 }
    ensures { OnOk result (out.new.items ≡ out.old.items ++ flat_map (piece_text (listed listing.now)) (gap listing.now.pages.now stored (covered_value covered) to)) }
{
    let words = covered.words_to(to);
    put_table(out, listing, covered.end, words)?;
    put_unread(out, listing, stored, covered.end + 2 * words, to)?;
    Ok(())
}

// ---- all of a section

/// The pieces of a section behind what is covered, by the instructions of the image.
pub fn put_pieces(
    out: &mut Vec<u8>,
    listing: &Listing<'_>,
    instrs: &[Instr],
    section: &Section,
    before: Covered,
    stored: u64,
) -> Result<(), AllocError>
    requires low { before.end < 2 ^ 33 }
    requires held { stored < 2 ^ 33 }
    requires found { All (λ instr. instruction_at listing.now.pages.now instr.at ≡ Some instr) instrs.now }
    ensures { OnOk result (out.new.items ≡ out.old.items ++ flat_map (piece_text (listed listing.now))
        (pieces listing.now.pages.now stored (end_of section.now) (covered_value before) (filter (begins_in section.now) instrs.now))) }
{
    let mut covered = before;
    for instr in instrs {
        if begins_in(section, instr) {
            put_gap(out, listing, stored, covered, u64::from(instr.at))?;
            put_instruction(out, listing, instr, covered.inside(instr))?;
            covered = covered.with(instr);
        }
    }
    put_gap(out, listing, stored, covered, end_of(section))?;
    Ok(())
}
