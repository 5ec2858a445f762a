// How a block ends in its place: which words of its exits are needed there.
ghost use Rattle.std.specs.Prelude.{◌≡◌, ◌<◌, ◌≤◌, ◌+◌, All, length, IfSome};
ghost use Rattle.alpha_meaning.specs.Act.{target_of};
ghost use Rattle.block_law.specs.Tidy.{block_words};
ghost use Rattle.branch_layout.specs.Ends.{all_stay, branch_end, choice_end, end_by, end_of, exit_end, fork_end, form_of, form_words, fork_words, is_last, is_near_block, is_next, keeps, may_end, may_fall, none_behind, placed_size, stays, turned};

use crate::exits::EXIT_WORDS;
use address_map::AddressMap;
use alpha_encode::{AlphaInstr, BranchOp, pal};
use alpha_meaning::{kind_of, links};
use exception_records::{Block, Point};

/// How an exit is laid out.
#[derive(Clone, Copy)]
pub(crate) enum Form {
    /// Without a word: the block of its address stands behind.
    Behind,
    /// As one branch.
    Near,
    /// With its three words.
    Whole,
}

/// A conditional branch to the block of an address.
#[derive(Clone, Copy)]
pub(crate) struct Fork {
    pub(crate) op: BranchOp,
    pub(crate) ra: u8,
    pub(crate) to: u32,
}

/// How a block ends: behind its words up to one a branch, where it has two exits, and an exit.
#[derive(Clone, Copy)]
pub(crate) struct End {
    pub(crate) start: u32,
    pub(crate) fork: Option<Fork>,
    pub(crate) address: u32,
    pub(crate) form: Form,
}

/// Where a branch at that word goes.
fn target_of(place: u32, disp: i32) -> u32
    requires { place < block_words }
    ensures { result ≡ target_of place disp }
{
    (place + 1).wrapping_add(disp.cast_unsigned())
}

/// Whether the word goes on at a word behind the block's first, up to that one, and to no address that has no block.
fn stays(last: u32, place: u32, word: AlphaInstr) -> bool
    requires { place < block_words }
    ensures { result ≡ stays last place word }
{
    match word {
        AlphaInstr::Memory { .. } | AlphaInstr::Operate { .. } => true,
        AlphaInstr::Branch { disp, .. } => {
            let target = target_of(place, disp);
            0 < target && target <= last
        }
        AlphaInstr::Jump { .. } => false,
        AlphaInstr::Pal(number) => number != pal::SWITCH,
    }
}

fn all_stay(last: u32, words: &[AlphaInstr]) -> bool
    requires { length words.now ≤ block_words }
    ensures { result ≡ all_stay last 0 words.now }
{
    for place in 0..words.len() {
        if !stays(last, place as u32, words[place]) {
            return false;
        }
    }
    true
}

/// Whether no point stands behind that word.
fn none_behind(last: u32, points: &[(u32, Point)]) -> bool
    ensures { result ≡ none_behind last points.now }
{
    for i in 0..points.len() {
        if points[i].0 > last {
            return false;
        }
    }
    true
}

/// Whether the words before that one stay up to it, and no point stands behind it.
fn keeps(start: u32, block: &Block) -> bool
    requires within { start ≤ length block.now.words }
    requires few { length block.now.words ≤ block_words }
    ensures { result ≡ keeps start block.now }
{
    all_stay(start, &block.words[..start as usize]) && none_behind(start, &block.points)
}

/// Whether the word may be the last before another block.
fn may_end(word: AlphaInstr) -> bool
    ensures { result ≡ may_end word }
{
    match word {
        AlphaInstr::Memory { op, .. } => kind_of(op).is_none(),
        AlphaInstr::Branch { .. } | AlphaInstr::Operate { .. } | AlphaInstr::Jump { .. } => true,
        AlphaInstr::Pal(number) => number != pal::PROBE && number != pal::SERVE,
    }
}

/// Whether the word before that one may be, and no point stands at it.
fn may_fall(start: u32, block: &Block) -> bool
    requires { start ≤ length block.now.words }
    ensures { result ≡ may_fall start block.now }
{
    if start == 0 {
        return false;
    }
    let before = start - 1;
    may_end(block.words[before as usize]) && none_behind(before, &block.points)
}

/// Whether the address has a block, which a branch reaches.
fn is_near_block(small: bool, mapped: &AddressMap, address: u32) -> bool
    ensures { result ≡ is_near_block small mapped.now address }
{
    small && mapped.look_up(address).is_some()
}

fn is_next(next: Option<u32>, address: u32) -> bool
    ensures { result ≡ is_next next address }
{
    match next {
        Some(other) => other == address,
        None => false,
    }
}

fn form_of(falls: bool, small: bool, mapped: &AddressMap, next: Option<u32>, address: u32) -> Form
    ensures { result ≡ form_of falls small mapped.now next address }
{
    if falls && is_next(next, address) {
        Form::Behind
    } else if is_near_block(small, mapped, address) {
        Form::Near
    } else {
        Form::Whole
    }
}

/// A branch that is taken just where the other is not.
fn turned(op: BranchOp) -> BranchOp
    ensures { result ≡ turned op }
{
    match op {
        BranchOp::Blbc => BranchOp::Blbs,
        BranchOp::Blbs => BranchOp::Blbc,
        BranchOp::Beq => BranchOp::Bne,
        BranchOp::Bne => BranchOp::Beq,
        BranchOp::Blt => BranchOp::Bge,
        BranchOp::Bge => BranchOp::Blt,
        BranchOp::Ble => BranchOp::Bgt,
        BranchOp::Bgt => BranchOp::Ble,
        BranchOp::Br | BranchOp::Bsr => op,
    }
}

fn is_last(block: &Block, exit: (u32, u32)) -> bool
    requires { exit.0 + EXIT_WORDS ≤ length block.now.words }
    ensures { result ≡ is_last block.now exit }
{
    exit.0 as usize + EXIT_WORDS == block.words.len()
}

fn exit_end(
    small: bool,
    mapped: &AddressMap,
    next: Option<u32>,
    block: &Block,
    exit: (u32, u32),
) -> Option<End>
    requires within { exit.0 + EXIT_WORDS ≤ length block.now.words }
    requires few { length block.now.words ≤ block_words }
    ensures { result ≡ exit_end small mapped.now next block.now exit }
{
    let (start, address) = exit;
    if !(is_last(block, exit) && keeps(start, block)) {
        return None;
    }
    let form = form_of(may_fall(start, block), small, mapped, next, address);
    Some(End {
        start,
        fork: None,
        address,
        form,
    })
}

/// The end of a block with a branch that goes over an exit to another: it goes to the second address itself, or, turned,
/// to the first.
fn fork_end(
    small: bool,
    mapped: &AddressMap,
    next: Option<u32>,
    start: u32,
    op: BranchOp,
    ra: u8,
    first: u32,
    second: u32,
) -> Option<End>
    ensures { result ≡ fork_end small mapped.now next start op ra first second }
{
    let first_near = is_near_block(small, mapped, first);
    let second_near = is_near_block(small, mapped, second);
    let (op, to, address) = if second_near && (is_next(next, first) || !first_near) {
        (op, second, first)
    } else if first_near {
        (turned(op), first, second)
    } else {
        return None;
    };
    Some(End {
        start,
        fork: Some(Fork { op, ra, to }),
        address,
        form: form_of(true, small, mapped, next, address),
    })
}

fn choice_end(
    small: bool,
    mapped: &AddressMap,
    next: Option<u32>,
    block: &Block,
    first: (u32, u32),
    second: (u32, u32),
) -> Option<End>
    requires within { first.0 + EXIT_WORDS ≤ length block.now.words }
    requires second_within { second.0 + EXIT_WORDS ≤ length block.now.words }
    requires few { length block.now.words ≤ block_words }
    ensures { result ≡ choice_end small mapped.now next block.now first second }
{
    let adjacent = first.0 as usize + EXIT_WORDS == second.0 as usize;
    if !(is_last(block, second) && adjacent && first.0 > 0 && keeps(first.0 - 1, block)) {
        return None;
    }
    let start = first.0 - 1;
    match block.words[start as usize] {
        AlphaInstr::Branch { op, ra, disp } => {
            if links(op) || target_of(start, disp) != second.0 {
                return None;
            }
            fork_end(small, mapped, next, start, op, ra, first.1, second.1)
        }
        _ => None,
    }
}

/// How a block ends that has one exit, at its end, or two, behind a branch over the first to the second; none where its
/// exits keep their three words.
pub(crate) fn end_of(
    small: bool,
    mapped: &AddressMap,
    next: Option<u32>,
    block: &Block,
) -> Option<End>
    requires exits { All (λ exit. exit.0 + EXIT_WORDS ≤ length block.now.words) block.now.exits }
    requires few { length block.now.words ≤ block_words }
    ensures { result ≡ end_of small mapped.now next block.now }
{
    match block.exits.as_slice() {
        [exit] => exit_end(small, mapped, next, block, *exit),
        [first, second] => choice_end(small, mapped, next, block, *first, *second),
        _ => None,
    }
}

/// How many words a block has in its place.
pub(crate) fn placed_size(end: Option<End>, block: &Block) -> u32
    requires start { IfSome end (λ end. end.start ≤ block_words) }
    requires few { length block.now.words ≤ block_words }
    ensures { result ≡ placed_size end block.now }
{
    let Some(end) = end else {
        return block.words.len() as u32;
    };
    let fork = if end.fork.is_some() { 1 } else { 0 };
    let form = match end.form {
        Form::Behind => 0,
        Form::Near => 1,
        Form::Whole => EXIT_WORDS as u32,
    };
    end.start + fork + form
}
