// Words ready to be run: an operation on registers each, or a branch, that goes on inside its block whatever the registers
// hold.
ghost use Rattle.std.specs.Prelude.{◌≡◌, ◌≢◌, ◌+◌, ◌<◌, ◌≤◌, length, min, IfOk, IfSome};
ghost use Rattle.alpha_encode.specs.Words.{IsEncodable};
ghost use Rattle.alpha_meaning.specs.Pieces.{most_words};
ghost use Rattle.block_law.specs.Translations.{Code, fetch_of};
ghost use Rattle.prepared_code.specs.Known.{AreKnown, branch_at, by_literal, ending, flat_at, flat_by, guess_at, guess_inside, guess_of, in_form, is_begun, is_inside, lands_at, leaving, memory_at, most_straight, operation, stays_behind, stays_inside, straight_at, sum, with_literal};
ghost use Rattle.prepared_code.specs.Prepared.{AreEncodable, AreReady};

use crate::effect::target_of;
use crate::prepared::Word;
use alpha_encode::{AlphaInstr, BranchOp, MemoryOp, OperateOp, Second, registers};
use alpha_meaning::{kind_of, links, scale_of};
use std::alloc::{AllocError, Global};
use vt_words::spread;

/// What a word that isn't straight does.
#[derive(Clone, Copy, Debug, PartialEq, Eq)]
pub(crate) enum Way {
    /// Nothing is told of it.
    Other,
    /// No step of it stays inside its block.
    Stops,
    /// It goes to the word that is the literal, at which a block begins, and writes nothing.
    Lands,
    /// The operation, behind which a block begins.
    Ends,
    /// A branch by register `a` to the word that is the literal; it stays inside its block.
    Branches(BranchOp),
    /// A branch by register `a` to the word that is the literal, at which, or at the next one, a block may begin.
    Forks(BranchOp),
}

/// A word as one operation on registers, or as a branch.
#[derive(Clone, Copy, Debug, PartialEq, Eq)]
pub(crate) struct Flat {
    pub op: OperateOp,
    /// The registers of its operands and of its result. The second operand is the sum of register `b` and the literal, one of
    /// which is 0.
    pub a: u8,
    pub b: u8,
    pub c: u8,
    pub way: Way,
    /// How many words are straight from it on, as far as a byte counts; 0 where it isn't.
    pub number: u8,
    /// A guess, of which nothing rests but speed: within how many steps, all local, it comes to another block; 0 where it
    /// comes to none without an access or a PALcode call.
    pub within: u8,
    pub literal: u64,
}

/// A word of which nothing is told.
const OTHER: Flat = Flat {
    op: OperateOp::Bis,
    a: registers::ZERO,
    b: registers::ZERO,
    c: registers::ZERO,
    way: Way::Other,
    number: 0,
    within: 0,
    literal: 0,
};

/// A word behind which no step stays inside its block.
const STOP: Flat = Flat {
    way: Way::Stops,
    ..OTHER
};

/// A straight word whose result no register keeps.
const NOTHING: Flat = Flat { number: 1, ..OTHER };

/// The operation with a second operand that the code fixes.
fn by_literal(op: OperateOp, a: u8, literal: u64, c: u8) -> Flat
    ensures { result ≡ by_literal op a literal c }
{
    Flat {
        op,
        a,
        c,
        literal,
        number: 1,
        ..OTHER
    }
}

/// The operation with a literal. ZAPNOT and ZAP keep and clear the bytes that a mask names.
fn with_literal(op: OperateOp, a: u8, literal: u8, c: u8) -> Flat
    ensures { result ≡ with_literal op a literal c }
{
    match op {
        OperateOp::Zapnot => by_literal(OperateOp::And, a, spread(literal), c),
        OperateOp::Zap => by_literal(OperateOp::Bic, a, spread(literal), c),
        _ => by_literal(op, a, u64::from(literal), c),
    }
}

fn operation(op: OperateOp, a: u8, second: Second, c: u8) -> Flat
    ensures { result ≡ operation op a second c }
{
    match second {
        Second::Register(b) => Flat {
            op,
            a,
            b,
            c,
            number: 1,
            ..OTHER
        },
        Second::Literal(literal) => with_literal(op, a, literal, c),
    }
}

/// LDA and LDAH, which add a displacement.
fn sum(op: MemoryOp, a: u8, base: u8, disp: i16) -> Flat
    ensures { result ≡ sum op a base disp }
{
    let offset = i64::from(disp).cast_unsigned();
    by_literal(OperateOp::Addq, base, offset.wrapping_mul(scale_of(op)), a)
}

/// A straight word in the form in which it runs: what register 31 doesn't keep isn't computed.
fn in_form(flat: Flat) -> Flat
    ensures { result ≡ in_form flat }
{
    if flat.c == registers::ZERO {
        NOTHING
    } else {
        flat
    }
}

/// Whether a word is one of these at which no block begins.
fn is_inside(ready: &[Word], word: usize) -> bool
    ensures { (code : Code) → AreReady code.words code.map ready.now (length code.words) → result ≡ is_inside code word }
{
    match ready.get(word) {
        Some(there) => there.block == 0,
        None => false,
    }
}

/// Whether a word is one of these at which a block begins.
fn is_begun(ready: &[Word], word: usize) -> bool
    ensures { (code : Code) → AreReady code.words code.map ready.now (length code.words) → result ≡ is_begun code word }
{
    match ready.get(word) {
        Some(there) => there.block != 0,
        None => false,
    }
}

/// An operation behind which a block begins.
fn ending(flat: Flat) -> Flat
    ensures { result ≡ ending flat }
{
    Flat {
        way: Way::Ends,
        number: 0,
        ..flat
    }
}

/// An operation.
fn straight_at(ready: &[Word], place: usize, flat: Flat) -> Flat
    requires place { place < length ready.now }
    ensures { (code : Code) → AreReady code.words code.map ready.now (length code.words) → result ≡ straight_at code place flat }
{
    if is_inside(ready, place + 1) {
        in_form(flat)
    } else if is_begun(ready, place + 1) {
        ending(in_form(flat))
    } else {
        OTHER
    }
}

/// An instruction of the memory format: an access, or an operation.
fn memory_at(ready: &[Word], place: usize, op: MemoryOp, a: u8, base: u8, disp: i16) -> Flat
    requires place { place < length ready.now }
    ensures { (code : Code) → AreReady code.words code.map ready.now (length code.words) → result ≡ memory_at code place op a base disp }
{
    match kind_of(op) {
        Some(_) => STOP,
        None => straight_at(ready, place, sum(op, a, base, disp)),
    }
}

/// Whether a branch goes to a block whatever the registers hold, and writes none.
fn lands_at(ready: &[Word], op: BranchOp, a: u8, target: u32) -> bool
    ensures { (code : Code) → AreReady code.words code.map ready.now (length code.words) → result ≡ lands_at code op a target }
{
    links(op) && a == registers::ZERO && is_begun(ready, target as usize)
}

/// Whether a branch writes no register, and stays in its block where it isn't taken.
fn stays_behind(ready: &[Word], place: usize, op: BranchOp, a: u8) -> bool
    requires place { place < length ready.now }
    ensures { (code : Code) → AreReady code.words code.map ready.now (length code.words) → result ≡ stays_behind code place op a }
{
    if links(op) {
        a == registers::ZERO
    } else {
        is_inside(ready, place + 1)
    }
}

/// Whether a branch leaves its block neither where it is taken nor where it isn't, and writes no register.
fn stays_inside(ready: &[Word], place: usize, op: BranchOp, a: u8, target: u32) -> bool
    requires place { place < length ready.now }
    ensures { (code : Code) → AreReady code.words code.map ready.now (length code.words) → result ≡ stays_inside code place op a target }
{
    stays_behind(ready, place, op, a) && is_inside(ready, target as usize)
}

/// A branch that may leave its block.
fn leaving(op: BranchOp, a: u8, target: u32) -> Flat
    ensures { result ≡ leaving op a target }
{
    if links(op) {
        OTHER
    } else {
        Flat {
            a,
            way: Way::Forks(op),
            literal: u64::from(target),
            ..OTHER
        }
    }
}

/// A branch.
fn branch_at(ready: &[Word], place: usize, op: BranchOp, a: u8, disp: i32) -> Flat
    requires place { place < length ready.now }
    requires few { length ready.now ≤ most_words }
    ensures { (code : Code) → AreReady code.words code.map ready.now (length code.words) → result ≡ branch_at code place op a disp }
{
    let target = target_of(place as u32, disp);
    let literal = u64::from(target);
    if lands_at(ready, op, a, target) {
        Flat {
            way: Way::Lands,
            literal,
            ..OTHER
        }
    } else if stays_inside(ready, place, op, a, target) {
        Flat {
            a,
            way: Way::Branches(op),
            literal,
            ..OTHER
        }
    } else {
        leaving(op, a, target)
    }
}

/// The word of an instruction, for itself.
fn flat_by(ready: &[Word], place: usize, instr: AlphaInstr) -> Flat
    requires place { place < length ready.now }
    requires few { length ready.now ≤ most_words }
    requires encodable { IsEncodable instr }
    ensures { (code : Code) → AreReady code.words code.map ready.now (length code.words) → result ≡ flat_by code place instr }
{
    match instr {
        AlphaInstr::Memory { op, ra, rb, disp } => memory_at(ready, place, op, ra, rb, disp),
        AlphaInstr::Branch { op, ra, disp } => branch_at(ready, place, op, ra, disp),
        AlphaInstr::Operate { op, ra, rb, rc } => {
            straight_at(ready, place, operation(op, ra, rb, rc))
        }
        AlphaInstr::Jump { .. } => OTHER,
        AlphaInstr::Pal(_) => STOP,
    }
}

/// The instruction of a word.
fn instr_of(ready: &[Word], place: usize) -> Option<AlphaInstr>
    requires place { place < length ready.now }
    requires encodable { AreEncodable ready.now }
    ensures encodable { IfSome result IsEncodable }
    ensures fetched { (code : Code) → AreReady code.words code.map ready.now (length code.words) → fetch_of code.words place ≡ result }
{
    ready[place].instr
}

/// A word, for itself.
fn flat_at(ready: &[Word], place: usize) -> Flat
    requires place { place < length ready.now }
    requires few { length ready.now ≤ most_words }
    requires encodable { AreEncodable ready.now }
    ensures { (code : Code) → AreReady code.words code.map ready.now (length code.words) → result ≡ flat_at code place }
{
    match instr_of(ready, place) {
        Some(instr) => flat_by(ready, place, instr),
        None => OTHER,
    }
}

/// How many words are straight from one on, which for itself has that number, where so many are from the next on.
fn straight_from(alone: u8, behind: u8) -> u8
    ensures none { alone ≡ 0 → result ≡ 0 }
    ensures more { alone ≢ 0 → result ≡ min (behind + 1) most_straight }
{
    if alone == 0 {
        0
    } else {
        behind.saturating_add(1)
    }
}

/// Within how many steps a word is guessed to come to another block; 0 behind the words.
fn guess_at(flats: &[Flat], place: usize) -> u8
    ensures { result ≡ guess_at flats.now place }
{
    match flats.get(place) {
        Some(flat) => flat.within,
        None => 0,
    }
}

/// The same of a word inside the block of another; 0 where a block begins.
fn guess_inside(ready: &[Word], flats: &[Flat], place: usize) -> u8
    ensures { (code : Code) → AreReady code.words code.map ready.now (length code.words) → result ≡ guess_inside code (guess_at flats.now) place }
{
    if is_begun(ready, place) {
        0
    } else {
        guess_at(flats, place)
    }
}

/// The same of a word before those that are known: by the next one, or by the ways of a branch to a later word.
fn guess_of(ready: &[Word], flats: &[Flat], place: usize, flat: &Flat) -> u8
    requires { place < length flats.now }
    ensures { (code : Code) → AreReady code.words code.map ready.now (length code.words) → result ≡ guess_of code (guess_at flats.now) place flat.now }
{
    let behind = match flat.way {
        Way::Lands | Way::Ends => return 1,
        Way::Forks(_) => {
            let there = guess_inside(ready, flats, flat.literal as usize);
            let behind = guess_inside(ready, flats, place + 1);
            return there.max(behind).saturating_add(1);
        }
        Way::Branches(_) => guess_at(flats, flat.literal as usize).max(guess_at(flats, place + 1)),
        Way::Other if flat.number > 0 => guess_at(flats, place + 1),
        Way::Other | Way::Stops => 0,
    };
    if behind == 0 {
        0
    } else {
        behind.wrapping_add(1)
    }
}

/// The words ready to be run.
pub(crate) fn flats_of(alloc: Global, ready: &[Word]) -> Result<Vec<Flat>, AllocError>
    requires few { length ready.now ≤ most_words }
    requires encodable { AreEncodable ready.now }
    ensures counted { IfOk result (λ v. length v.items ≡ length ready.now) }
    ensures known { IfOk result (λ v. (code : Code) → AreReady code.words code.map ready.now (length code.words) → AreKnown code v.items) }
{
    let mut flats = vec![in alloc; OTHER; ready.len()]?;
    let mut straight: u8 = 0;
    for back in 0..ready.len() {
        let place = ready.len() - 1 - back;
        let flat = flat_at(ready, place);
        straight = straight_from(flat.number, straight);
        flats[place] = Flat {
            number: straight,
            within: guess_of(ready, &flats, place, &flat),
            ..flat
        };
    }
    Ok(flats)
}
