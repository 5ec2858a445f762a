// The words of an exit.
ghost use Rattle.std.specs.Prelude.{◌≡◌, ◌<◌, ◌≤◌, ◌^◌, ℕ, Some, IfSome};
ghost use Rattle.address_map.specs.Pairs.{word_at};
ghost use Rattle.alpha_meaning.specs.Pieces.{most_words};
ghost use Rattle.alpha_encode.specs.declared.instr.AlphaInstr.TheVariants.{Branch};
ghost use Rattle.branch_layout.specs.Ends.{word_to};
ghost use Rattle.branch_layout.specs.Exits.{code_to, exit_code, is_near, displacement};

use address_map::AddressMap;
use alpha_encode::registers::{ADDRESS, TARGET, ZERO};
use alpha_encode::{AlphaInstr, BranchOp, NOP, branch, load_high, load_low, pal};

/// How many words an exit has.
pub const EXIT_WORDS: usize = 3;

/// Where a jump goes.
const JUMP: u8 = ADDRESS;

/// How far a branch reaches, in words.
pub(crate) const REACH: u32 = 1 << 20;

fn is_near(word: u32, target: u32) -> bool
    requires word { word ≤ most_words }
    requires target { target ≤ most_words }
    ensures { result ≡ is_near word target }
{
    let next = word + 1;
    next <= target + REACH && target < next + REACH
}

fn displacement(word: u32, target: u32) -> i32
    requires word { word ≤ most_words }
    requires target { target ≤ most_words }
    ensures { result ≡ displacement word target }
{
    target as i32 - (word + 1) as i32
}

/// The words that go from that word to the first word of a block.
pub fn code_to(word: u32, target: u32) -> [AlphaInstr; EXIT_WORDS]
    requires word { word ≤ most_words }
    requires target { target ≤ most_words }
    ensures { result ≡ code_to (is_near word target) word target }
{
    if is_near(word, target) {
        [
            branch(BranchOp::Br, ZERO, displacement(word, target)),
            NOP,
            NOP,
        ]
    } else {
        let jump = AlphaInstr::Jump { ra: ZERO, rb: JUMP };
        [
            load_high(JUMP, 4 * target),
            load_low(JUMP, 4 * target),
            jump,
        ]
    }
}

/// The branch that goes from that word to the first word of the block of an address.
pub(crate) fn branch_to(
    map: &AddressMap,
    word: u32,
    op: BranchOp,
    ra: u8,
    address: u32,
) -> AlphaInstr
    requires word { word ≤ most_words }
    requires target { IfSome (word_at map.now address) (λ target. target ≤ most_words) }
    ensures { result ≡ Branch op ra (displacement word (word_to map.now address)) }
{
    let target = map.look_up(address).unwrap_or(0);
    branch(op, ra, displacement(word, target))
}

/// The words of the exit that begins at that word and leads to that address.
pub(crate) fn exit_code(map: &AddressMap, word: u32, address: u32) -> [AlphaInstr; EXIT_WORDS]
    requires word { word ≤ most_words }
    requires targets { IfSome (word_at map.now address) (λ target. target ≤ most_words) }
    ensures { result ≡ exit_code (word_at map.now address) word address }
{
    match map.look_up(address) {
        Some(target) => code_to(word, target),
        None => [
            load_high(TARGET, address),
            load_low(TARGET, address),
            AlphaInstr::Pal(pal::SWITCH),
        ],
    }
}
