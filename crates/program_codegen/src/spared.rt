// The words at the end of a program, where what is only copied is made where it goes.
ghost use Rattle.std.specs.Prelude.{◌≡◌, ◌++◌, ◌==◌, ◌∷◌, IfOk, MatchOption, None, Some, length, true};
ghost use Rattle.alpha_meaning.specs.Loops.{written};
ghost use Rattle.program_codegen.specs.Ends.{word_reads, goes_by, is_left, is_spare, copies_from, into, leaves_made, spared_word, spared_words, rewrites, makes_home, with_spared, with_waiting, commit_stays, commit_words, end_words};
ghost use Rattle.program_codegen.specs.Programs.{IsExit};

use crate::direct::Commit;
use crate::homes::{Homes, home_at, home_of, stands_in};
use crate::lines::{holder, is_temporary};
use crate::waits::{is_choice, second_reads};
use alpha_encode::registers::ZERO;
use alpha_encode::{AlphaInstr, OperateOp, Second, operate_by};
use micro_ops::Exit;
use std::alloc::{AllocError, Global};

fn word_reads(word: AlphaInstr, register: u8) -> bool
    ensures { result ≡ word_reads word register }
{
    match word {
        AlphaInstr::Operate { ra, rb, .. } => ra == register || second_reads(rb, register),
        _ => true,
    }
}

/// The register that a word writes.
pub(crate) fn written(word: AlphaInstr) -> u8
    ensures { result ≡ written word }
{
    match word {
        AlphaInstr::Operate { rc, .. } => rc,
        _ => ZERO,
    }
}

/// Whether it goes by what stands in the register.
fn goes_by(exit: Exit, register: u8) -> bool
    requires { IsExit exit }
    ensures { result ≡ goes_by exit register }
{
    match exit {
        Exit::Computed(temp) | Exit::Service(temp) | Exit::Choice { when: temp, .. } => {
            holder(temp) == register
        }
        Exit::Next | Exit::Fixed(_) | Exit::Breakpoint => false,
    }
}

/// Whether it is a temporary's register that nothing reads behind the block's words.
fn is_left(exit: Exit, register: u8) -> bool
    requires { IsExit exit }
    ensures { result ≡ is_left exit register }
{
    is_temporary(register) && !goes_by(exit, register)
}

/// Whether what a word makes is left there, whatever that register held.
fn is_spare(exit: Exit, word: AlphaInstr) -> bool
    requires { IsExit exit }
    ensures { result ≡ is_spare exit word }
{
    match word {
        AlphaInstr::Operate { op, rc, .. } => is_left(exit, rc) && !is_choice(op),
        _ => false,
    }
}

/// Whether a word copies a register as it stands, or an extended number in it.
fn copies_from(place: u8, extended: bool, word: AlphaInstr) -> bool
    ensures { result ≡ copies_from place extended word }
{
    match word {
        AlphaInstr::Operate {
            op: OperateOp::Bis,
            ra,
            rb: Second::Register(register),
            ..
        } => ra == ZERO && register == place,
        AlphaInstr::Operate {
            op: OperateOp::Addl,
            ra,
            rb: Second::Literal(value),
            ..
        } => extended && ra == place && value == 0,
        _ => false,
    }
}

/// The same word, but for the register that it writes.
fn into(to: u8, word: AlphaInstr) -> AlphaInstr
    ensures { result ≡ into to word }
{
    match word {
        AlphaInstr::Operate { op, ra, rb, .. } => AlphaInstr::Operate { op, ra, rb, rc: to },
        _ => word,
    }
}

/// Whether a word leaves what is made as it is, and what makes it, unless it is the last.
fn leaves_made(place: u8, last: bool, made: AlphaInstr, word: AlphaInstr) -> bool
    ensures { result ≡ leaves_made place last made word }
{
    (last || !word_reads(made, written(word))) && written(word) != place
}

/// A word that copies it makes it, and no other may read it.
fn spared_word(
    place: u8,
    extended: bool,
    last: bool,
    made: AlphaInstr,
    word: AlphaInstr,
) -> Option<AlphaInstr>
    ensures { result ≡ spared_word place extended last made word }
{
    if !leaves_made(place, last, made, word) {
        None
    } else if copies_from(place, extended, word) {
        Some(into(written(word), made))
    } else if word_reads(word, place) {
        None
    } else {
        Some(word)
    }
}

fn spared_words(
    alloc: Global,
    place: u8,
    extended: bool,
    made: AlphaInstr,
    words: &[AlphaInstr],
) -> Result<Option<Vec<AlphaInstr>>, AllocError>
    ensures { IfOk result (λ spared. MatchOption spared (spared_words place extended made words.now ≡ None) (λ s. spared_words place extended made words.now ≡ Some s.items)) }
{
    let mut spared = Vec::new(alloc);
    for i in 0..words.len() {
        let behind = &words[i + 1..];
        match spared_word(place, extended, behind.is_empty(), made, words[i]) {
            Some(now) => spared.push(now)?,
            None => return Ok(None),
        }
    }
    Ok(Some(spared))
}

fn rewrites(place: u8, word: Option<AlphaInstr>) -> bool
    ensures { result ≡ rewrites place word }
{
    match word {
        Some(word) => written(word) == place,
        None => false,
    }
}

/// Whether a word's number is the low longword of its register, extended with its sign, still behind the word that comes next.
fn makes_home(homes: Homes, word: AlphaInstr, next: Option<AlphaInstr>) -> bool
    ensures { result ≡ makes_home homes word next }
{
    let place = written(word);
    stands_in(home_at(homes, place), place) && !rewrites(place, next)
}

fn with_spared(
    alloc: Global,
    exit: Exit,
    homes: Homes,
    word: AlphaInstr,
    next: Option<AlphaInstr>,
    words: &[AlphaInstr],
) -> Result<Vec<AlphaInstr>, AllocError>
    requires { IsExit exit }
    ensures { IfOk result (λ all. all.items ≡ with_spared exit homes word next words.now) }
{
    if is_spare(exit, word) {
        let extended = makes_home(homes, word, next);
        if let Some(spared) = spared_words(alloc, written(word), extended, word, words)? {
            return Ok(spared);
        }
    }
    let mut all = Vec::new(alloc);
    all.push(word)?;
    all.extend_from_slice(words)?;
    Ok(all)
}

fn with_waiting(
    alloc: Global,
    exit: Exit,
    homes: Homes,
    word: Option<AlphaInstr>,
    next: Option<AlphaInstr>,
    words: Vec<AlphaInstr>,
) -> Result<Vec<AlphaInstr>, AllocError>
    requires { IsExit exit }
    ensures { IfOk result (λ all. all.items ≡ with_waiting exit homes word next words.items) }
{
    match word {
        Some(word) => with_spared(alloc, exit, homes, word, next, &words),
        None => Ok(words),
    }
}

/// The words that leave the codes, and the one that writes a register.
fn committed(
    alloc: Global,
    homes: Homes,
    commit: Commit,
    codes: &[AlphaInstr],
) -> Result<Vec<AlphaInstr>, AllocError>
    requires { commit_stays commit ≡ true }
    ensures { IfOk result (λ words. words.items ≡ codes.now ++ commit_words homes commit) }
{
    let mut words = Vec::new(alloc);
    words.extend_from_slice(codes)?;
    if let Some((register, from)) = commit {
        let place = home_of(homes, from).unwrap_or(holder(from));
        words.push(operate_by(OperateOp::Addl, place, 0, register))?;
    }
    Ok(words)
}

/// The words up to the one that writes the register.
pub(crate) fn end_words(
    alloc: Global,
    homes: Homes,
    commit: Commit,
    exit: Exit,
    codes: &[AlphaInstr],
) -> Result<Vec<AlphaInstr>, AllocError>
    requires commit { commit_stays commit ≡ true }
    requires exit { IsExit exit }
    ensures { IfOk result (λ words. words.items ≡ end_words homes commit exit codes.now) }
{
    let words = committed(alloc, homes, commit, codes)?;
    let words = with_waiting(alloc, exit, homes, homes.waiting, None, words)?;
    with_waiting(alloc, exit, homes, homes.before, homes.waiting, words)
}
