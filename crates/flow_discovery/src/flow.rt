// The addresses to which an instruction goes on.
ghost use Rattle.std.specs.Prelude.{◌≡◌, ◌<◌, ◌≤◌, ◌++◌, ◌+◌, IfOk, OnOk};
ghost use Rattle.std.specs.List.{filter_map};
ghost use Rattle.std.specs.Option.{option_to_list};
ghost use Rattle.vax_form.specs.Grammar.{extended};
ghost use Rattle.vax_form.specs.declared.instr.Size.TheVariants.{Word};
ghost use Rattle.flow_discovery.specs.Flow.{case_addresses, falls_through, goes_on, table_addresses, table_limit, table_of, table_target};
ghost use Rattle.vax_form.specs.Targets.{branch_target, fixed_targets};

use std::alloc::{AllocError, Global};
use vax_form::{
    Instr, LongOperation, Operand, Operation, Pages, WantOfMemory, branch_target, call_of, jump_of,
    operation_of,
};
use vax_long::code_word;

#[tactic(auto, unfolding(crate::specs::Flow::falls_through))]
fn falls_through(operation: Operation) -> bool
    ensures { result ≡ falls_through operation }
{
    !matches!(
        operation,
        Operation::Branch(_)
            | Operation::Jump
            | Operation::ReturnFromSubroutine
            | Operation::Long(LongOperation::Return)
            | Operation::Breakpoint
            | Operation::Case(_)
    )
}

fn push_some(address: Option<u32>, into: &mut Vec<u32>) -> Result<(), AllocError>
    ensures { OnOk result (into.new.items ≡ into.old.items ++ option_to_list address) }
{
    if let Some(address) = address {
        into.push(address)?;
    }
    Ok(())
}

// A word, sign-extended.
fn extended(word: u16) -> u32
    ensures { result ≡ extended Word word }
{
    let word = u32::from(word);
    if word < 0x8000 {
        word
    } else {
        word + 0xFFFF_0000
    }
}

fn table_target(pages: &Pages, table: u32, number: u32) -> Option<u32>
    requires { number < table_limit }
    ensures { result ≡ table_target pages.now table number }
{
    let displacement = code_word(pages, table.wrapping_add(2 * number))?;
    Some(table.wrapping_add(extended(displacement)))
}

fn push_table(pages: &Pages, table: u32, count: u32, into: &mut Vec<u32>) -> Result<(), AllocError>
    requires { count ≤ table_limit }
    ensures { OnOk result (into.new.items ≡ into.old.items ++ table_addresses pages.now table count) }
{
    for number in 0..count {
        push_some(table_target(pages, table, number), into)?;
    }
    into.push(table.wrapping_add(2 * count))?;
    Ok(())
}

fn push_case(
    pages: &Pages,
    table: u32,
    base: &Operand,
    limit: &Operand,
    into: &mut Vec<u32>,
) -> Result<(), AllocError>
    ensures { OnOk result (into.new.items ≡ into.old.items ++ case_addresses pages.now table base.now limit.now) }
{
    match (*base, *limit) {
        (Operand::Value(_), Operand::Value(limit)) if limit < 4_096 => {
            push_table(pages, table, limit as u32 + 1, into)
        }
        _ => Ok(()),
    }
}

#[tactic(auto, unfolding(crate::specs::Flow::table_of))]
fn push_table_of(
    pages: &Pages,
    instr: &Instr,
    operation: Operation,
    into: &mut Vec<u32>,
) -> Result<(), AllocError>
    ensures { OnOk result (into.new.items ≡ into.old.items ++ table_of pages.now instr.now operation) }
{
    let operands = &instr.operands;
    match operation {
        Operation::Case(_) => push_case(pages, instr.after, &operands[1], &operands[2], into),
        _ => Ok(()),
    }
}

fn push_branch_targets(operands: &[Operand], into: &mut Vec<u32>) -> Result<(), AllocError>
    ensures { OnOk result (into.new.items ≡ into.old.items ++ filter_map branch_target operands.now) }
{
    for operand in operands {
        push_some(branch_target(operand), into)?;
    }
    Ok(())
}

#[tactic(auto, unfolding(vax_form::specs::Targets::fixed_targets))]
fn push_fixed_targets(instr: &Instr, into: &mut Vec<u32>) -> Result<(), AllocError>
    ensures { OnOk result (into.new.items ≡ into.old.items ++ fixed_targets instr.now) }
{
    push_branch_targets(&instr.operands, into)?;
    push_some(jump_of(instr), into)?;
    push_some(call_of(instr), into)
}

/// The addresses to which control may go on from the instruction.
#[tactic(auto, unfolding(crate::specs::Flow::goes_on))]
pub fn goes_on(alloc: Global, pages: &Pages, instr: &Instr) -> Result<Vec<u32>, WantOfMemory>
    ensures { IfOk result (λ v. v.items ≡ goes_on pages.now instr.now) }
{
    let mut addresses = Vec::new(alloc);
    let Some(operation) = operation_of(instr.opcode) else {
        return Ok(addresses);
    };
    if falls_through(operation) {
        push_some(Some(instr.after), &mut addresses)?;
    }
    push_fixed_targets(instr, &mut addresses)?;
    push_table_of(pages, instr, operation, &mut addresses)?;
    Ok(addresses)
}
