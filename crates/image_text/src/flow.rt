// The lines of what a translation makes of an image, and the whole text.
ghost use Rattle.std.specs.Prelude.{◌≡◌, ◌<◌, ◌≤◌, ◌++◌, ℕ, OnOk, filter, length, slice_index};
ghost use Rattle.std.specs.List.{flat_map};
ghost use Rattle.image_file.specs.Whole.{IsWhole};
ghost use Rattle.image_text.specs.Lines.{open_line, service_line, stop_lines};
ghost use Rattle.image_text.specs.Text.{flow_text, has_opcode, interpreted_line, is_interpreted, opcode_text, opcodes, reached_line, show_text};

use crate::instructions::{put_open, put_service, put_stops};
use crate::put::{Piece, put_pieces};
use crate::tables::put_tables;
use flow_discovery::has_block;
use image_file::Image;
use std::alloc::{AllocError, Global};
use vax_form::{Instr, Pages, WantOfMemory};
use vax_text::name_of;

/// How many opcodes there are.
const OPCODES: usize = 256;

fn is_interpreted(pages: &Pages, instr: &Instr) -> bool
    ensures { result ≡ is_interpreted pages.now instr.now }
{
    !has_block(instr, pages)
}

/// How many of the instructions have no block.
fn interpreted(pages: &Pages, instrs: &[Instr]) -> u64
    ensures value { result ≡ length (filter (is_interpreted pages.now) instrs.now) }
    ensures most { result ≤ length instrs.now }
{
    let mut count = 0;
    for instr in instrs {
        if is_interpreted(pages, instr) {
            count += 1;
        }
    }
    count
}

/// Where an opcode is counted.
fn place_of(instr: &Instr) -> usize
    ensures value { result ≡ instr.now.opcode }
    ensures within { result < OPCODES }
{
    usize::from(instr.opcode)
}

/// Of each opcode, how many of those there are.
fn of_opcodes(pages: &Pages, instrs: &[Instr]) -> [u64; OPCODES]
    ensures { (k : ℕ) → k < OPCODES → slice_index result k ≡ length (filter (has_opcode pages.now k) instrs.now) }
{
    let mut counts = [0; OPCODES];
    for instr in instrs {
        if is_interpreted(pages, instr) {
            counts[place_of(instr)] += 1;
        }
    }
    counts
}

fn put_reached(
    out: &mut Vec<u8>,
    pages: &Pages,
    instrs: &[Instr],
    mapped: u64,
    words: u64,
) -> Result<(), AllocError>
    ensures { OnOk result (out.new.items ≡ out.old.items ++ reached_line pages.now instrs.now mapped words) }
{
    put_pieces(
        out,
        &[
            Piece::Text(b"reached"),
            Piece::Number(instrs.len() as u64),
            Piece::Text(b" mapped"),
            Piece::Number(mapped),
            Piece::Text(b" interpreted"),
            Piece::Number(interpreted(pages, instrs)),
            Piece::Text(b" words"),
            Piece::Number(words),
            Piece::Text(b"\n"),
        ],
    )
}

fn put_opcode(out: &mut Vec<u8>, opcode: u8, count: u64) -> Result<(), AllocError>
    ensures { OnOk result (out.new.items ≡ out.old.items ++ opcode_text opcode count) }
{
    if count == 0 {
        return Ok(());
    }
    put_pieces(
        out,
        &[
            Piece::Text(b"interpreted "),
            Piece::Text(name_of(opcode)),
            Piece::Number(count),
            Piece::Text(b"\n"),
        ],
    )
}

fn put_opcodes(out: &mut Vec<u8>, pages: &Pages, instrs: &[Instr]) -> Result<(), AllocError>
    ensures { OnOk result (out.new.items ≡ out.old.items ++ flat_map (interpreted_line pages.now instrs.now) opcodes) }
{
    let counts = of_opcodes(pages, instrs);
    for opcode in 0..OPCODES {
        put_opcode(out, opcode as u8, counts[opcode])?;
    }
    Ok(())
}

fn put_opens(out: &mut Vec<u8>, instrs: &[Instr]) -> Result<(), AllocError>
    ensures { OnOk result (out.new.items ≡ out.old.items ++ flat_map open_line instrs.now) }
{
    for instr in instrs {
        put_open(out, instr)?;
    }
    Ok(())
}

fn put_all_stops(
    alloc: Global,
    out: &mut Vec<u8>,
    pages: &Pages,
    instrs: &[Instr],
) -> Result<(), WantOfMemory>
    ensures { OnOk result (out.new.items ≡ out.old.items ++ flat_map (stop_lines pages.now) instrs.now) }
{
    for instr in instrs {
        put_stops(alloc, out, pages, instr)?;
    }
    Ok(())
}

fn put_services(out: &mut Vec<u8>, instrs: &[Instr]) -> Result<(), WantOfMemory>
    ensures { OnOk result (out.new.items ≡ out.old.items ++ flat_map service_line instrs.now) }
{
    for instr in instrs {
        put_service(out, instr)?;
    }
    Ok(())
}

#[tactic(auto, unfolding(crate::specs::Text::flow_text))]
fn put_flow(
    alloc: Global,
    out: &mut Vec<u8>,
    image: &Image,
    instrs: &[Instr],
    mapped: u64,
    words: u64,
) -> Result<(), WantOfMemory>
    ensures { OnOk result (out.new.items ≡ out.old.items ++ flow_text image.now instrs.now mapped words) }
{
    put_reached(out, &image.pages, instrs, mapped, words)?;
    put_opcodes(out, &image.pages, instrs)?;
    put_opens(out, instrs)?;
    put_all_stops(alloc, out, &image.pages, instrs)?;
    put_services(out, instrs)
}

/// The text of a whole image, of the hints of its translation, of the instructions that can be reached, and of how many
/// addresses are mapped and how many words the translation has.
#[tactic(auto, unfolding(crate::specs::Text::show_text))]
pub fn show_text(
    alloc: Global,
    out: &mut Vec<u8>,
    image: &Image,
    hints: &[u32],
    instrs: &[Instr],
    mapped: u64,
    words: u64,
) -> Result<(), WantOfMemory>
    requires { IsWhole image.now }
    ensures { OnOk result (out.new.items ≡ out.old.items ++ show_text image.now hints.now instrs.now mapped words) }
{
    put_tables(out, image, hints)?;
    put_flow(alloc, out, image, instrs, mapped, words)
}
