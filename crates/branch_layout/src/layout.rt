// Blocks in their places.
ghost use Rattle.std.specs.Prelude.{◌≡◌, ◌<◌, ◌≤◌, ◌+◌, ◌++◌, ◌^◌, ℕ, All, length, map, slice_get, take, drop, IfOk, IfSome, OnOk, Some};
ghost use Rattle.alpha_encode.specs.Words.{IsEncodable, word_of};
ghost use Rattle.address_map.specs.Pairs.{word_at};
ghost use Rattle.block_law.specs.Tidy.{block_words};
ghost use Rattle.alpha_meaning.specs.Pieces.{most_words};
ghost use Rattle.block_law.specs.Translations.{Code};
ghost use Rattle.branch_layout.specs.Ends.{end_of, ended_words};
ghost use Rattle.branch_layout.specs.Layouts.{AddressesRise, AreBlocks, AreEnds, IsLayout, IsPlaced, filled_words, is_small, layout, layout_by, next_address, Placed, placed_sizes, placed_words, places, shifted, whole_sizes, words_of};

use crate::ends::{End, Form, end_of, placed_size};
use crate::exits::{EXIT_WORDS, REACH, branch_to, exit_code};
use address_map::{AddressMap, build};
use alpha_encode::registers::ZERO;
use alpha_encode::{AlphaInstr, BranchOp, encode};
use exception_records::{Block, Point};
use std::alloc::{AllocError, Global};
use vax_form::WantOfMemory;

/// The address of the first of these blocks.
fn next_address(blocks: &[(u32, Block)]) -> Option<u32>
    ensures { result ≡ next_address blocks.now }
{
    match blocks.first() {
        Some((address, _)) => Some(*address),
        None => None,
    }
}

/// Each address with the first word that its block has where each exit has three words, and how many words there are.
fn whole_places(
    alloc: Global,
    blocks: &[(u32, Block)],
) -> Result<(Vec<(u32, u32)>, u32), AllocError>
    requires few { length blocks.now ≤ 32768 }
    requires sizes { All (λ block. length block.1.words ≤ block_words) blocks.now }
    ensures places { IfOk result (λ whole. whole.0.items ≡ places 0 (whole_sizes blocks.now)) }
    ensures words { IfOk result (λ whole. whole.1 ≡ words_of (whole_sizes blocks.now)) }
{
    let mut places = Vec::new(alloc);
    let mut first = 0;
    for (address, block) in blocks {
        places.push((*address, first))?;
        first += block.words.len() as u32;
    }
    Ok((places, first))
}

/// How the block at a place of the list ends.
fn end_at(small: bool, mapped: &AddressMap, blocks: &[(u32, Block)], place: usize) -> Option<End>
    requires place { place < length blocks.now }
    requires blocks { AreBlocks blocks.now }
    ensures end { (block : Placed) → slice_get blocks.now place ≡ Some block → result ≡ end_of small mapped.now (next_address (drop (place + 1) blocks.now)) block.1 }
    ensures start { (block : Placed) → slice_get blocks.now place ≡ Some block → IfSome result (λ end. end.start < length block.1.words) }
{
    let next = next_address(&blocks[place + 1..]);
    end_of(small, mapped, next, &blocks[place].1)
}

/// Each address with the first word of its block, and how each block ends.
fn places(
    alloc: Global,
    small: bool,
    mapped: &AddressMap,
    blocks: &[(u32, Block)],
) -> Result<(Vec<(u32, u32)>, Vec<Option<End>>), AllocError>
    requires few { length blocks.now ≤ 32768 }
    requires blocks { AreBlocks blocks.now }
    ensures places { IfOk result (λ made. made.0.items ≡ places 0 (placed_sizes small mapped.now blocks.now)) }
    ensures ends { IfOk result (λ made. AreEnds small mapped.now blocks.now (length blocks.now) made.1.items) }
{
    let mut places = Vec::new(alloc);
    let mut ends = Vec::new(alloc);
    let mut first = 0;
    for place in 0..blocks.len() {
        places.push((blocks[place].0, first))?;
        let end = end_at(small, mapped, blocks, place);
        ends.push(end)?;
        first += placed_size(end, &blocks[place].1);
    }
    Ok((places, ends))
}

/// Writes the words of an exit where the block keeps the room for them.
fn fill(words: &mut [AlphaInstr], start: usize, code: &[AlphaInstr; EXIT_WORDS])
    requires { start + EXIT_WORDS ≤ length words.old }
    ensures { words.new ≡ take start words.old ++ (code.now ++ drop (start + EXIT_WORDS) words.old) }
{
    words[start..start + EXIT_WORDS].copy_from_slice(code);
}

/// Puts there the words of a block that begins at that word of the code, with those of its exits filled in.
fn filled_words(
    words: &mut Vec<AlphaInstr>,
    map: &AddressMap,
    first: u32,
    block: &Block,
) -> Result<(), AllocError>
    requires within { first + length block.now.words ≤ most_words }
    requires targets { (address : ℕ) → IfSome (word_at map.now address) (λ target. target ≤ most_words) }
    requires block { (address : ℕ) × IsPlaced (address, block.now) }
    ensures { OnOk result (words.new.items ≡ filled_words map.now first block.now) }
{
    words.clear();
    words.extend_from_slice(&block.words)?;
    for (word, address) in &block.exits {
        let code = exit_code(map, first + *word, *address);
        fill(words, *word as usize, &code);
    }
    Ok(())
}

/// Puts there the words of a block that begins at that word of the code, and ends so.
fn ended_words(
    words: &mut Vec<AlphaInstr>,
    map: &AddressMap,
    first: u32,
    block: &Block,
    end: End,
) -> Result<(), AllocError>
    requires within { first + length block.now.words ≤ most_words }
    requires start { end.start < length block.now.words }
    requires targets { (address : ℕ) → IfSome (word_at map.now address) (λ target. target ≤ most_words) }
    ensures { OnOk result (words.new.items ≡ ended_words map.now first block.now end) }
{
    words.clear();
    words.extend_from_slice(&block.words[..end.start as usize])?;
    let mut word = first + end.start;
    if let Some(fork) = end.fork {
        words.push(branch_to(map, word, fork.op, fork.ra, fork.to))?;
        word += 1;
    }
    match end.form {
        Form::Behind => {}
        Form::Near => words.push(branch_to(map, word, BranchOp::Br, ZERO, end.address))?,
        Form::Whole => words.extend_from_slice(&exit_code(map, word, end.address))?,
    }
    Ok(())
}

/// Puts there the words of a block in its place, by its end, or with three for each exit.
fn placed_words(
    words: &mut Vec<AlphaInstr>,
    map: &AddressMap,
    first: u32,
    block: &Block,
    end: Option<End>,
) -> Result<(), AllocError>
    requires within { first + length block.now.words ≤ most_words }
    requires targets { (address : ℕ) → IfSome (word_at map.now address) (λ target. target ≤ most_words) }
    requires block { (address : ℕ) × IsPlaced (address, block.now) }
    requires start { IfSome end (λ end. end.start < length block.now.words) }
    ensures { OnOk result (words.new.items ≡ placed_words map.now first end block.now) }
{
    match end {
        Some(end) => ended_words(words, map, first, block, end),
        None => filled_words(words, map, first, block),
    }
}

fn append_words(words: &mut Vec<u32>, instrs: &[AlphaInstr]) -> Result<(), AllocError>
    requires { All IsEncodable instrs.now }
    ensures { OnOk result (words.new.items ≡ words.old.items ++ map word_of instrs.now) }
{
    for instr in instrs {
        words.push(encode(*instr))?;
    }
    Ok(())
}

fn append_points(
    points: &mut Vec<(u32, Point)>,
    first: u32,
    of_block: &[(u32, Point)],
) -> Result<(), AllocError>
    requires { All (λ entry. first + entry.0 < 2 ^ 32) of_block.now }
    ensures { OnOk result (points.new.items ≡ points.old.items ++ shifted first of_block.now) }
{
    for (word, point) in of_block {
        points.push((first + *word, *point))?;
    }
    Ok(())
}

/// The words and the points of the blocks, for the map of their places, by their ends.
fn code(
    alloc: Global,
    small: bool,
    mapped: &AddressMap,
    map: &AddressMap,
    blocks: &[(u32, Block)],
    ends: &[Option<End>],
) -> Result<(Vec<u32>, Vec<(u32, Point)>), AllocError>
    requires few { length blocks.now ≤ 32768 }
    requires rising { AddressesRise blocks.now }
    requires blocks { AreBlocks blocks.now }
    requires small { small ≡ is_small (words_of (whole_sizes blocks.now)) }
    requires mapped { mapped.now ≡ places 0 (whole_sizes blocks.now) }
    requires places { map.now ≡ places 0 (placed_sizes small mapped.now blocks.now) }
    requires ends { AreEnds small mapped.now blocks.now (length blocks.now) ends.now }
    ensures { IfOk result (λ code. record { words = code.0.items; map = map.now; points = code.1.items } ≡ layout_by small mapped.now blocks.now) }
{
    let mut words = Vec::new(alloc);
    let mut points = Vec::new(alloc);
    let mut instrs = Vec::new(alloc);
    for place in 0..blocks.len() {
        let block = &blocks[place].1;
        let first = words.len() as u32;
        let end = ends[place];
        placed_words(&mut instrs, map, first, block, end)?;
        append_words(&mut words, instrs.as_slice())?;
        append_points(&mut points, first, block.points.as_slice())?;
    }
    Ok((words, points))
}

/// The words of the blocks in their places, the map from the addresses of their instructions to their first words, and
/// their points.
pub fn lay_out(
    alloc: Global,
    blocks: &[(u32, Block)],
) -> Result<(Vec<u32>, Vec<(u32, u32)>, Vec<(u32, Point)>), WantOfMemory>
    requires few { length blocks.now ≤ 32768 }
    requires rising { AddressesRise blocks.now }
    requires blocks { AreBlocks blocks.now }
    ensures laid { IfOk result (λ code. IsLayout blocks.now (record { words = code.0.items; map = code.1.items; points = code.2.items })) }
    // They are a function of the blocks.
    ensures value { IfOk result (λ code. record { words = code.0.items; map = code.1.items; points = code.2.items } ≡ layout blocks.now) }
{
    let (whole, words) = whole_places(alloc, blocks)?;
    let small = words <= REACH;
    let Ok(mapped) = build(alloc, whole.as_slice()) else {
        return Err(WantOfMemory);
    };
    let (places, ends) = places(alloc, small, &mapped, blocks)?;
    let Ok(map) = build(alloc, places.as_slice()) else {
        return Err(WantOfMemory);
    };
    let (words, points) = code(alloc, small, &mapped, &map, blocks, ends.as_slice())?;
    Ok((words, places, points))
}
