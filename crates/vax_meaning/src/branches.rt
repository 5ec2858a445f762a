// Branches, jumps and loops.
ghost use Rattle.std.specs.Prelude.{◌≡◌, ◌<◌, ◌*◌, ◌^◌, false};
ghost use Rattle.vax_form.specs.Size.{size_of, bytes_of};
ghost use Rattle.vt_words.specs.Values.{IsSize, modulus};
ghost use Rattle.vt_words.specs.Arithmetic.{sum_of, difference_of};
ghost use Rattle.vax_meaning.specs.Play.{Plays, Uses};
ghost use Rattle.vax_meaning.specs.Branches.{target, pc_after, holds, branch_if, branch, branch_on_low_bit, is_at_most, is_less, step_index, goes_up, goes_down, goes_by, add_one_branch, subtract_one_branch, add_compare_branch, branch_to_subroutine, jump_to_subroutine, jump, return_from_subroutine, signed_word, case_to, case_of};

use crate::codes::{carry_of, finish, go_to, negative_of, overflow_of, set_three, zero_of};
use crate::cursor::Cursor;
use crate::evaluation::{Evaluated, location_of_place, value_of_place};
use crate::memory::{code_word, fetch, low_bytes};
use crate::moves::{push, set_compared};
use crate::operands::{put, register_of, set_register_of};
use vax_form::{Condition, End, Instr, Operand, SP, Size, Stop, Width};
use vt_words::{Coded, add, signed, sub};

/// Where a branch goes: the target of its operand, 0 for an operand of another kind.
pub fn target(operand: Operand) -> u32
    ensures { result ≡ target operand }
{
    match operand {
        Operand::Target(address) => address,
        _ => 0,
    }
}

/// Where it goes on: at the target of that operand, or behind the instruction.
pub fn pc_after(instr: &Instr, place: usize, taken: bool) -> u32
    requires { place < 6 }
    ensures { result ≡ pc_after instr.now place taken }
{
    if taken {
        target(instr.operands[place])
    } else {
        instr.after
    }
}

/// Whether the codes meet a condition.
#[tactic(auto, unfolding(crate::specs::Branches::holds))]
fn holds(cursor: &Cursor, condition: Condition) -> bool
    ensures { result ≡ holds condition cursor.now.state }
{
    match condition {
        Condition::NotEqual => !zero_of(cursor),
        Condition::Equal => zero_of(cursor),
        Condition::Greater => !negative_of(cursor) && !zero_of(cursor),
        Condition::LessOrEqual => negative_of(cursor) || zero_of(cursor),
        Condition::GreaterOrEqual => !negative_of(cursor),
        Condition::Less => negative_of(cursor),
        Condition::GreaterUnsigned => !carry_of(cursor) && !zero_of(cursor),
        Condition::LessOrEqualUnsigned => carry_of(cursor) || zero_of(cursor),
        Condition::OverflowClear => !overflow_of(cursor),
        Condition::OverflowSet => overflow_of(cursor),
        Condition::CarryClear => !carry_of(cursor),
        Condition::CarrySet => carry_of(cursor),
    }
}

/// The conditional branches.
#[tactic(auto, unfolding(crate::specs::Branches::branch_if))]
pub fn branch_if(cursor: &mut Cursor, instr: &Instr, condition: Condition) -> Result<End, Stop>
    ensures plays { Plays (branch_if instr.now condition) cursor.old result cursor.new }
    ensures few { Uses 0 cursor.old result cursor.new }
{
    let taken = holds(cursor, condition);
    go_to(cursor, pc_after(instr, 0, taken))
}

/// BRB and BRW.
pub fn branch(cursor: &mut Cursor, instr: &Instr) -> Result<End, Stop>
    ensures plays { Plays (branch instr.now) cursor.old result cursor.new }
    ensures few { Uses 0 cursor.old result cursor.new }
{
    go_to(cursor, pc_after(instr, 0, true))
}

/// BLBS and BLBC.
pub fn branch_on_low_bit(
    cursor: &mut Cursor,
    instr: &Instr,
    state: bool,
    values: &[Evaluated; 6],
) -> Result<End, Stop>
    ensures plays { Plays (branch_on_low_bit instr.now state values.now) cursor.old result cursor.new }
    ensures few { Uses 0 cursor.old result cursor.new }
{
    let bit = value_of_place(values, 0, Size::Long) % 2;
    go_to(cursor, pc_after(instr, 1, bit == state as u64))
}

/// Whether the first is at most the second, as signed numbers.
fn is_at_most(bytes: u32, a: u64, b: u64) -> bool
    requires size { IsSize bytes }
    requires a_fits { a < modulus bytes }
    requires b_fits { b < modulus bytes }
    ensures { result ≡ is_at_most bytes a b }
{
    signed(bytes, a) <= signed(bytes, b)
}

/// Whether the first is less than the second, as signed numbers.
fn is_less(bytes: u32, a: u64, b: u64) -> bool
    requires size { IsSize bytes }
    requires a_fits { a < modulus bytes }
    requires b_fits { b < modulus bytes }
    ensures { result ≡ is_less bytes a b }
{
    signed(bytes, a) < signed(bytes, b)
}

/// An index after a step up.
#[tactic(auto, unfolding(vt_words::specs::Arithmetic::sum_of))]
fn stepped_up(bytes: u32, index: u64, step: u64) -> Coded
    requires size { IsSize bytes }
    requires index_fits { index < modulus bytes }
    requires step_fits { step < modulus bytes }
    ensures value { result ≡ sum_of bytes index step false }
    ensures bound { result.value < modulus bytes }
{
    add(bytes, index, step, false)
}

/// An index after a step down.
#[tactic(auto, unfolding(vt_words::specs::Arithmetic::difference_of))]
fn stepped_down(bytes: u32, index: u64, step: u64) -> Coded
    requires size { IsSize bytes }
    requires index_fits { index < modulus bytes }
    requires step_fits { step < modulus bytes }
    ensures value { result ≡ difference_of bytes index step false }
    ensures bound { result.value < modulus bytes }
{
    sub(bytes, index, step, false)
}

/// Puts an index back, and goes on at the target of a branch or behind the instruction.
#[tactic(auto, unfolding(crate::specs::Branches::step_index))]
fn step_index(
    cursor: &mut Cursor,
    instr: &Instr,
    width: Width,
    index: usize,
    branch: usize,
    answer: Coded,
    taken: bool,
    values: &[Evaluated; 6],
) -> Result<End, Stop>
    requires index { index < 6 }
    requires branch { branch < 6 }
    ensures plays { Plays (step_index instr.now width index branch answer taken values.now) cursor.old result cursor.new }
    ensures few { Uses 2 cursor.old result cursor.new }
{
    put(
        cursor,
        location_of_place(values, index),
        width.size(),
        answer.value,
    )?;
    set_three(cursor, answer);
    finish(cursor, pc_after(instr, branch, taken))
}

/// AOBLEQ, and AOBLSS where it is not `or_equal`.
#[tactic(auto, unfolding(crate::specs::Branches::add_one_branch))]
pub fn add_one_branch(
    cursor: &mut Cursor,
    instr: &Instr,
    or_equal: bool,
    values: &[Evaluated; 6],
) -> Result<End, Stop>
    ensures plays { Plays (add_one_branch instr.now or_equal values.now) cursor.old result cursor.new }
    ensures few { Uses 2 cursor.old result cursor.new }
{
    let limit = value_of_place(values, 0, Size::Long);
    let index = stepped_up(4, value_of_place(values, 1, Size::Long), 1);
    let taken = if or_equal {
        is_at_most(4, index.value, limit)
    } else {
        is_less(4, index.value, limit)
    };
    step_index(cursor, instr, Width::Long, 1, 2, index, taken, values)
}

/// SOBGEQ, and SOBGTR where it is not `or_equal`.
#[tactic(auto, unfolding(crate::specs::Branches::subtract_one_branch))]
pub fn subtract_one_branch(
    cursor: &mut Cursor,
    instr: &Instr,
    or_equal: bool,
    values: &[Evaluated; 6],
) -> Result<End, Stop>
    ensures plays { Plays (subtract_one_branch instr.now or_equal values.now) cursor.old result cursor.new }
    ensures few { Uses 2 cursor.old result cursor.new }
{
    let index = stepped_down(4, value_of_place(values, 0, Size::Long), 1);
    let taken = if or_equal {
        is_at_most(4, 0, index.value)
    } else {
        is_less(4, 0, index.value)
    };
    step_index(cursor, instr, Width::Long, 0, 1, index, taken, values)
}

/// ACB.
#[tactic(auto, unfolding(crate::specs::Branches::add_compare_branch))]
pub fn add_compare_branch(
    cursor: &mut Cursor,
    instr: &Instr,
    width: Width,
    values: &[Evaluated; 6],
) -> Result<End, Stop>
    ensures plays { Plays (add_compare_branch instr.now width values.now) cursor.old result cursor.new }
    ensures few { Uses 2 cursor.old result cursor.new }
{
    let (size, bytes) = (width.size(), width.bytes());
    let limit = value_of_place(values, 0, size);
    let addend = value_of_place(values, 1, size);
    let index = stepped_up(bytes, value_of_place(values, 2, size), addend);
    let taken = if is_less(bytes, addend, 0) {
        is_at_most(bytes, limit, index.value)
    } else {
        is_at_most(bytes, index.value, limit)
    };
    step_index(cursor, instr, width, 2, 3, index, taken, values)
}

/// BSBB and BSBW.
pub fn branch_to_subroutine(cursor: &mut Cursor, instr: &Instr) -> Result<End, Stop>
    ensures plays { Plays (branch_to_subroutine instr.now) cursor.old result cursor.new }
    ensures few { Uses 2 cursor.old result cursor.new }
{
    push(cursor, instr.after as u64)?;
    go_to(cursor, pc_after(instr, 0, true))
}

/// JSB.
pub fn jump_to_subroutine(
    cursor: &mut Cursor,
    instr: &Instr,
    values: &[Evaluated; 6],
) -> Result<End, Stop>
    ensures plays { Plays (jump_to_subroutine instr.now values.now) cursor.old result cursor.new }
    ensures few { Uses 2 cursor.old result cursor.new }
{
    push(cursor, instr.after as u64)?;
    go_to(cursor, value_of_place(values, 0, Size::Long) as u32)
}

/// JMP.
pub fn jump(cursor: &mut Cursor, values: &[Evaluated; 6]) -> Result<End, Stop>
    ensures plays { Plays (jump values.now) cursor.old result cursor.new }
    ensures few { Uses 0 cursor.old result cursor.new }
{
    go_to(cursor, value_of_place(values, 0, Size::Long) as u32)
}

/// RSB.
#[tactic(auto, unfolding(crate::specs::Branches::return_from_subroutine))]
pub fn return_from_subroutine(cursor: &mut Cursor) -> Result<End, Stop>
    ensures plays { Plays return_from_subroutine cursor.old result cursor.new }
    ensures few { Uses 2 cursor.old result cursor.new }
{
    let top = register_of(cursor, SP);
    let pc = fetch(cursor, top, 4)?;
    set_register_of(cursor, SP, top.wrapping_add(4));
    go_to(cursor, low_bytes(4, pc) as u32)
}

/// A signed word as a longword.
fn signed_word(word: u32) -> u64
    requires { word < 65536 }
    ensures { result ≡ signed_word word }
{
    if word < 0x8000 {
        word as u64
    } else {
        word as u64 + 0xFFFF_0000
    }
}

/// Goes on by a table of words, or behind it.
#[tactic(auto, unfolding(crate::specs::Branches::case_to))]
fn case_to(cursor: &mut Cursor, table: u32, difference: u64, limit: u64) -> Result<End, Stop>
    requires difference { difference < 2 ^ 32 }
    requires limit { limit < 2 ^ 32 }
    ensures plays { Plays (case_to table difference limit) cursor.old result cursor.new }
    ensures few { Uses 0 cursor.old result cursor.new }
{
    let table = table as u64;
    if difference <= limit {
        let at = (table + 2 * difference) % 0x1_0000_0000;
        let word = code_word(cursor, at as u32)?;
        let pc = (table + signed_word(word)) % 0x1_0000_0000;
        go_to(cursor, pc as u32)
    } else {
        let pc = (table + 2 * (limit + 1)) % 0x1_0000_0000;
        go_to(cursor, pc as u32)
    }
}

/// CASE.
#[tactic(auto, unfolding(crate::specs::Branches::case_of))]
pub fn case_of(
    cursor: &mut Cursor,
    instr: &Instr,
    width: Width,
    values: &[Evaluated; 6],
) -> Result<End, Stop>
    ensures plays { Plays (case_of instr.now width values.now) cursor.old result cursor.new }
    ensures few { Uses 0 cursor.old result cursor.new }
{
    let (size, bytes) = (width.size(), width.bytes());
    let selector = value_of_place(values, 0, size);
    let difference = stepped_down(bytes, selector, value_of_place(values, 1, size)).value;
    let limit = value_of_place(values, 2, size);
    set_compared(cursor, width, difference, limit);
    case_to(cursor, instr.after, difference, limit)
}
