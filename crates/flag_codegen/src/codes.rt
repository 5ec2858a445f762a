// The words of each condition code, and all of them.
ghost use Rattle.std.specs.Prelude.{◌≡◌, ◌≤◌, ◌++◌, length, All, IfOk, IsSome, OnOk};
ghost use Rattle.vax_form.specs.Operation.{operation_at};
ghost use Rattle.alpha_encode.specs.Words.{IsEncodable};
ghost use Rattle.exception_records.specs.Codes.{all_ready};
ghost use Rattle.exception_records.specs.declared.rules.Rules.{Rules};
ghost use Rattle.block_law.specs.Tidy.{codes_written};
ghost use Rattle.block_law.specs.CodeWords.{LeavesCodes};
ghost use Rattle.code_runs.specs.Codes.{code_sources};
ghost use Rattle.code_runs.specs.Rules.{rules_behind};
ghost use Rattle.flag_codegen.specs.Made.{codes_made};
ghost use Rattle.flag_codegen.specs.Words.{negative_words, zero_words, overflow_words, carry_words, operand_words, carry_code, signs_code, code_words};
ghost use Rattle.flag_codegen.specs.Promises.{most_words};

use crate::instructions::{
    FIRST, RESULT, SECOND, clear, move_to, push_bit, push_less, push_unlike, sign,
};
use crate::made::is_made;
use alpha_encode::registers::{
    CARRY, CARRY_FIRST, CARRY_SECOND, IS_ZERO, NEGATIVE, OVERFLOW, RULE_FIRST, RULE_SECOND,
    TEMPORARIES,
};
use alpha_encode::{AlphaInstr, OperateOp, operate, operate_by};
use code_runs::{code_sources, rules_behind};
use exception_records::Rules;
use micro_ops::{CodeSource, CodeSources};
use std::alloc::{AllocError, Global};
use vax_form::{Flags, Instr, WantOfMemory};

/// The temporaries that hold V and C where they have no rule.
const COMPUTED_OVERFLOW: u8 = TEMPORARIES + 3;

const COMPUTED_CARRY: u8 = TEMPORARIES + 4;

/// The places of N, Z and V in the PSW; C is bit 0.
const NEGATIVE_PLACE: u8 = 3;

const ZERO_PLACE: u8 = 2;

const OVERFLOW_PLACE: u8 = 1;

fn push_negative(words: &mut Vec<AlphaInstr>, source: CodeSource) -> Result<(), AllocError>
    ensures { OnOk result (words.new.items ≡ words.old.items ++ negative_words source) }
{
    use CodeSource::{Add, Compare, Computed, Kept, Psw, Result, Sub, Zero};
    match source {
        Kept => {}
        Zero => words.push(clear(NEGATIVE))?,
        Result(size) | Add(size) | Sub(size) | Computed(size) => {
            words.push(sign(size, RESULT, NEGATIVE))?
        }
        Compare(size) => push_less(words, size, FIRST, SECOND, NEGATIVE)?,
        Psw => push_bit(words, NEGATIVE_PLACE, NEGATIVE)?,
    }
    Ok(())
}

fn push_zero(words: &mut Vec<AlphaInstr>, source: CodeSource) -> Result<(), AllocError>
    ensures { OnOk result (words.new.items ≡ words.old.items ++ zero_words source) }
{
    use CodeSource::{Add, Compare, Computed, Kept, Psw, Result, Sub, Zero};
    match source {
        Kept => {}
        Zero => words.push(clear(IS_ZERO))?,
        Result(_) | Add(_) | Sub(_) | Computed(_) => {
            words.push(operate_by(OperateOp::Cmpeq, RESULT, 0, IS_ZERO))?
        }
        Compare(_) => words.push(operate(OperateOp::Cmpeq, FIRST, SECOND, IS_ZERO))?,
        Psw => push_bit(words, ZERO_PLACE, IS_ZERO)?,
    }
    Ok(())
}

fn push_overflow(words: &mut Vec<AlphaInstr>, source: CodeSource) -> Result<(), AllocError>
    ensures { OnOk result (words.new.items ≡ words.old.items ++ overflow_words source) }
{
    use CodeSource::{Add, Compare, Computed, Kept, Psw, Result, Sub, Zero};
    match source {
        Kept => {}
        Zero | Result(_) | Compare(_) => words.push(clear(OVERFLOW))?,
        Add(size) => push_unlike(words, size, RESULT, FIRST, SECOND, OVERFLOW)?,
        Sub(size) => push_unlike(words, size, FIRST, SECOND, RESULT, OVERFLOW)?,
        Computed(_) => words.push(move_to(COMPUTED_OVERFLOW, OVERFLOW))?,
        Psw => push_bit(words, OVERFLOW_PLACE, OVERFLOW)?,
    }
    Ok(())
}

fn push_carry(words: &mut Vec<AlphaInstr>, source: CodeSource) -> Result<(), AllocError>
    ensures { OnOk result (words.new.items ≡ words.old.items ++ carry_words source) }
{
    use CodeSource::{Add, Compare, Computed, Kept, Psw, Result, Sub, Zero};
    match source {
        Kept => {}
        Zero | Result(_) => words.push(clear(CARRY))?,
        Add(_) => words.push(operate(OperateOp::Cmpult, RESULT, FIRST, CARRY))?,
        Sub(_) | Compare(_) => words.push(operate(OperateOp::Cmpult, FIRST, SECOND, CARRY))?,
        Computed(_) => words.push(move_to(COMPUTED_CARRY, CARRY))?,
        Psw => words.push(operate_by(OperateOp::And, RESULT, 1, CARRY))?,
    }
    Ok(())
}

// The operands of a rule into two registers that keep them.
fn push_operands(
    words: &mut Vec<AlphaInstr>,
    source: CodeSource,
    first: u8,
    second: u8,
) -> Result<(), AllocError>
    ensures { OnOk result (words.new.items ≡ words.old.items ++ operand_words source first second) }
{
    match source {
        CodeSource::Result(_) => words.push(move_to(RESULT, first))?,
        CodeSource::Add(_) | CodeSource::Sub(_) | CodeSource::Compare(_) => {
            words.extend_from_slice(&[move_to(FIRST, first), move_to(SECOND, second)])?
        }
        _ => {}
    }
    Ok(())
}

// C: the operands of its rule where it isn't live, else its register.
fn push_carry_code(
    words: &mut Vec<AlphaInstr>,
    source: CodeSource,
    live: bool,
) -> Result<(), AllocError>
    ensures { OnOk result (words.new.items ≡ words.old.items ++ carry_code source live) }
{
    if !live {
        push_operands(words, source, CARRY_FIRST, CARRY_SECOND)?;
    }
    if is_made(source, live) {
        push_carry(words, source)?;
    }
    Ok(())
}

// N, Z and V: the operands of their rule where some isn't live, and the registers of those that are made.
fn push_signs_code(
    words: &mut Vec<AlphaInstr>,
    source: CodeSource,
    live: Flags,
) -> Result<(), AllocError>
    ensures { OnOk result (words.new.items ≡ words.old.items ++ signs_code source live) }
{
    if !(live.n && live.z && live.v) {
        push_operands(words, source, RULE_FIRST, RULE_SECOND)?;
    }
    if is_made(source, live.v) {
        push_overflow(words, source)?;
    }
    if is_made(source, live.n) {
        push_negative(words, source)?;
    }
    if is_made(source, live.z) {
        push_zero(words, source)?;
    }
    Ok(())
}

// The words, and the rules behind them where all codes are ready before.
fn words_and_rules(
    alloc: Global,
    sources: CodeSources,
    live: Flags,
) -> Result<(Vec<AlphaInstr>, Rules), AllocError>
    ensures words { IfOk result (λ answer. answer.0.items ≡ code_words sources live) }
    ensures rules { IfOk result (λ answer. answer.1 ≡ rules_behind sources live all_ready) }
{
    let mut words = Vec::new(alloc);
    push_carry_code(&mut words, sources.c, live.c)?;
    push_signs_code(&mut words, sources.nzv, live)?;
    Ok((words, rules_behind(sources, live, Rules::READY)))
}

/// The words that leave the condition codes of an instruction, of which some are live behind it, and the rules behind it for
/// each code that it writes. They find the operands of its rule in R21 and R22, the result, or a new PSW, in R23, and a
/// computed V and C in R24 and R25.
pub fn code_words(
    alloc: Global,
    instr: &Instr,
    live: Flags,
) -> Result<(Vec<AlphaInstr>, Rules), WantOfMemory>
    requires { IsSome (operation_at instr.now.opcode) }
    // Whatever rules the codes had before.
    ensures leaves { IfOk result (λ answer. (before : Rules) → LeavesCodes (code_sources instr.now) before (rules_behind (code_sources instr.now) live before) answer.0.items) }
    // A word writes a code's register exactly where the instruction writes the code, and that is live or has no rule.
    ensures writes { IfOk result (λ answer. codes_written answer.0.items ≡ codes_made (code_sources instr.now) live) }
    ensures short { IfOk result (λ answer. length answer.0.items ≤ most_words) }
    ensures encodable { IfOk result (λ answer. All IsEncodable answer.0.items) }
    ensures words { IfOk result (λ answer. answer.0.items ≡ code_words (code_sources instr.now) live) }
    // A code that it doesn't write is ready.
    ensures rules { IfOk result (λ answer. answer.1 ≡ rules_behind (code_sources instr.now) live all_ready) }
{
    Ok(words_and_rules(alloc, code_sources(instr), live)?)
}
