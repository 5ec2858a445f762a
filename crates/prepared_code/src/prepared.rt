// Code made ready.
ghost use Rattle.std.specs.Prelude.{◌≡◌, ◌<◌, ◌≤◌, ◌+◌, ◌==◌, length, if◌then◌else◌, IfOk, IfSome, MatchOption, is_some};
ghost use Rattle.address_map.specs.Pairs.{AllRise, address_at};
ghost use Rattle.alpha_encode.specs.Words.{IsEncodable};
ghost use Rattle.alpha_meaning.specs.Pieces.{most_words};
ghost use Rattle.block_law.specs.Translations.{fetch_of};
ghost use Rattle.prepared_code.specs.Flats.{AreFlat};
ghost use Rattle.prepared_code.specs.Known.{AreKnown};
ghost use Rattle.prepared_code.specs.Prepared.{AreReady, IsNext, IsNumber, IsReady, begun};
ghost use Rattle.prepared_code.specs.Sources.{block_at, source_of};
ghost use Rattle.prepared_code.specs.declared.blocks.Block.{Block};

use crate::blocks::{Block, block_by, blocks_of};
use crate::flat::{Flat, flats_of};
use address_map::AddressMap;
use alpha_encode::{AlphaInstr, decode};
use exception_records::Points;
use std::alloc::{AllocError, Global};
use std::marker::Model;
use vax_form::{Pages, WantOfMemory};

/// A word's instruction, and one more than the place of the block that begins there; 0 where none begins.
#[derive(Clone, Copy, Debug, PartialEq, Eq)]
pub(crate) struct Word {
    pub instr: Option<AlphaInstr>,
    pub block: u32,
}

/// A code made ready to be run. Contracts see what it was made of.
#[derive(Debug, Drop)]
pub struct Prepared<'a> {
    words: &'a [u32],
    map: &'a AddressMap,
    points: &'a Points,
    pages: &'a Pages,
    blocks: Vec<Block>,
    ready: Vec<Word>,
    pub(crate) flats: Vec<Flat>,
}

impl<'a> Model for Prepared<'a> {
    ghost use Rattle.prepared_code.specs.Prepared.{IsPrepared};
    ghost use Rattle.prepared_code.specs.Sources.{Source, source_of};

    ghost Value = { Source };

    ghost view = { λ p. source_of p.words.now p.map.now p.points.now p.pages.now };

    ghost invariant = { λ p. IsPrepared (source_of p.words.now p.map.now p.points.now p.pages.now) p.blocks.items p.ready.items p.flats.items };
}

// The number of the block at a place, which is that of the next pair if of any.
fn number_at(pairs: &[(u32, u32)], next: usize, place: usize) -> u32
    requires rise { AllRise pairs.now }
    requires next { IsNext pairs.now next place }
    requires few { place < most_words }
    ensures number { IsNumber pairs.now place result }
    ensures next { IsNext pairs.now (if result == 0 then next else next + 1) (place + 1) }
{
    if next < pairs.len() && pairs[next].1 as usize == place {
        next as u32 + 1
    } else {
        0
    }
}

fn word_at(words: &[u32], place: usize, block: u32) -> Word
    requires { place < length words.now }
    ensures instr { result.instr ≡ fetch_of words.now place }
    ensures encodable { IfSome result.instr IsEncodable }
    ensures block { result.block ≡ block }
{
    Word {
        instr: decode(words[place]),
        block,
    }
}

// The words, beside the pairs of their map.
fn words_of(alloc: Global, words: &[u32], pairs: &[(u32, u32)]) -> Result<Vec<Word>, AllocError>
    requires few { length words.now ≤ most_words }
    requires rise { AllRise pairs.now }
    ensures { IfOk result (λ v. AreReady words.now pairs.now v.items (length words.now)) }
{
    let mut ready = Vec::new(alloc);
    let mut next = 0;
    for place in 0..words.len() {
        let block = number_at(pairs, next, place);
        if block != 0 {
            next += 1;
        }
        ready.push(word_at(words, place, block))?;
    }
    Ok(ready)
}

/// Makes a code ready, of an image with these pages.
pub fn prepare<'a>(
    alloc: Global,
    words: &'a [u32],
    map: &'a AddressMap,
    points: &'a Points,
    pages: &'a Pages,
) -> Result<Prepared<'a>, WantOfMemory>
    requires few { length words.now ≤ most_words }
    ensures { IfOk result (λ p. p ≡ source_of words.now map.now points.now pages.now) }
{
    let pairs = map.pairs();
    let ready = words_of(alloc, words, pairs)?;
    let flats = flats_of(alloc, &ready)?;
    Ok(Prepared {
        words,
        map,
        points,
        pages,
        blocks: blocks_of(alloc, pairs, points, pages)?,
        ready,
        flats,
    })
}

// The block with that number.
#[inline(always)]
fn begun(blocks: &[Block], number: u32) -> Option<Block>
    ensures { result ≡ begun blocks.now number }
{
    if number == 0 {
        return None;
    }
    match blocks.get(number as usize - 1) {
        Some(block) => Some(*block),
        None => None,
    }
}

impl<'a> Prepared<'a> {
    /// The words of the code.
    pub fn words(&self) -> &'a [u32]
        ensures { result.now ≡ self.now.code.words }
    {
        self.words
    }

    /// Its map.
    pub fn map(&self) -> &'a AddressMap
        ensures { result.now ≡ self.now.code.map }
    {
        self.map
    }

    /// The pages of its image.
    pub fn pages(&self) -> &'a Pages
        ensures { result.now ≡ self.now.pages }
    {
        self.pages
    }

    // What is known of its words.
    pub(crate) fn points(&self) -> &'a Points
        ensures { result.now ≡ self.now.code.points }
    {
        self.points
    }

    // The words ready to be run.
    #[inline(always)]
    pub(crate) fn flats(&self) -> &[Flat]
        ensures few { length result.now ≤ most_words }
        ensures flat { AreFlat self.now.code result.now }
        ensures known { AreKnown self.now.code result.now }
        ensures rise { AllRise self.now.code.map }
    {
        &self.flats
    }

    #[inline(always)]
    fn word(&self, word: u32) -> Option<Word>
        ensures ready { MatchOption result (length self.now.code.words ≤ word) (λ w. IsReady self.now.code.words self.now.code.map word w) }
        ensures few { IfSome result (λ w. word < most_words) }
    {
        match self.ready.get(word as usize) {
            Some(word) => Some(*word),
            None => None,
        }
    }

    /// The instruction at a word; None where it spells none or stands behind the words.
    #[inline(always)]
    pub fn instr_at(&self, word: u32) -> Option<AlphaInstr>
        ensures is { result ≡ fetch_of self.now.code.words word }
        ensures encodable { IfSome result IsEncodable }
        ensures few { IfSome result (λ i. word < most_words) }
    {
        match self.word(word) {
            Some(word) => word.instr,
            None => None,
        }
    }

    /// Whether a block begins at a word.
    #[inline(always)]
    pub(crate) fn begins(&self, word: u32) -> bool
        ensures { result ≡ is_some (address_at self.now.code.map word) }
    {
        match self.word(word) {
            Some(word) => word.block != 0,
            None => {
                let map = self.map;
                map.vax_of(word).is_some()
            }
        }
    }

    /// The block that begins at a word.
    #[inline(always)]
    pub fn block_at<L>(&self, word: u32) -> Option<Block>
        ensures { result ≡ block_at self.now word }
    {
        match self.word(word) {
            Some(word) => begun(&self.blocks, word.block),
            None => self.block_behind(word),
        }
    }

    // The same behind the words.
    fn block_behind(&self, word: u32) -> Option<Block>
        ensures { result ≡ block_at self.now word }
    {
        let map = self.map;
        match map.vax_of(word) {
            Some(address) => Some(block_by(self.points, self.pages, address, word)),
            None => None,
        }
    }
}
