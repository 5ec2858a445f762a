// The plan of a program: the operands in order, what is computed before the result is written and behind that, where the
// result goes, and the exit.
ghost use Rattle.std.specs.Prelude.{◌≡◌, ◌<◌, ◌≤◌, ◌++◌, ◌∷◌, [], IfOk, OnOk, length};
ghost use Rattle.operand_programs.specs.Operands.{operand_program, steps_behind_specifier};
ghost use Rattle.operand_programs.specs.InOrder.{operands_program, steps_behind_all, no_steps};
ghost use Rattle.micro_lower.specs.Plans.{codes_program, specifier_at, specifiers_from, write_program, end_program, rest_program, program_of, plan_of, steps_behind_target};

use crate::codes::put_codes;
use crate::micros::add;
use micro_ops::{CodeSources, Exit, Micro};
use operand_programs::{
    Specifier, Steps, put_finish, put_operand, put_push, put_replacement, put_result, put_steps,
};
use std::alloc::Global;
use vax_form::{Access, Instr, Operand, Size, WantOfMemory};

/// The temporary of the result.
const RESULT: u8 = 2;
/// The temporary for the address of its operand.
const PLACE: u8 = 3;

/// An operand of a row of the table: how it is used, its size, and the temporaries for its value and for its address.
#[derive(Clone, Copy)]
pub(crate) struct Slot {
    pub access: Access,
    pub size: Size,
    pub to: u8,
    pub place: u8,
}

/// Where the result in temporary 2 goes. The address of an operand in memory is in temporary 3.
#[derive(Clone, Copy)]
pub(crate) enum Target {
    /// There is none.
    Nowhere,
    /// To an operand that is checked with write intent.
    Result { operand: Operand, size: Size },
    /// To an operand that was checked when it was read.
    Replacement { operand: Operand, size: Size },
    /// The longword is pushed.
    Stack,
}

/// A row of the table of instructions.
#[derive(Clone, Copy)]
pub(crate) struct Plan<'a> {
    pub slots: &'a [Slot],
    pub before: &'a [Micro],
    pub target: Target,
    pub behind: &'a [Micro],
    pub exit: Exit,
}

/// The operand of that number in its slot.
pub(crate) fn put_slot(
    program: &mut Vec<Micro>,
    number: usize,
    slot: Slot,
    instr: &Instr,
    steps: &mut Steps,
) -> Result<(), WantOfMemory>
    requires { number < 6 }
    ensures program { OnOk result (program.new.items ≡ program.old.items ++ operand_program (specifier_at number slot instr.now) steps.old) }
    ensures steps { OnOk result (steps.new ≡ steps_behind_specifier (specifier_at number slot instr.now) steps.old) }
{
    let specifier = Specifier {
        access: slot.access,
        size: slot.size,
        operand: instr.operands[number],
        to: slot.to,
        place: slot.place,
    };
    put_operand(program, specifier, steps)
}

/// The operands in order.
pub(crate) fn put_operands(
    program: &mut Vec<Micro>,
    slots: &[Slot],
    instr: &Instr,
    steps: &mut Steps,
) -> Result<(), WantOfMemory>
    requires { length slots.now ≤ 6 }
    ensures program { OnOk result (program.new.items ≡ program.old.items ++ operands_program (specifiers_from 0 slots.now instr.now) steps.old) }
    ensures steps { OnOk result (steps.new ≡ steps_behind_all (specifiers_from 0 slots.now instr.now) steps.old) }
{
    for i in 0..slots.len() {
        put_slot(program, i, slots[i], instr, steps)?;
    }
    Ok(())
}

/// Writes the result.
fn put_target(
    program: &mut Vec<Micro>,
    target: Target,
    steps: &mut Steps,
) -> Result<(), WantOfMemory>
    ensures program { OnOk result (program.new.items ≡ program.old.items ++ write_program target steps.old) }
    ensures steps { OnOk result (steps.new ≡ steps_behind_target target steps.old) }
{
    match target {
        Target::Nowhere => Ok(()),
        Target::Result { operand, size } => put_result(program, operand, size, PLACE, RESULT),
        Target::Replacement { operand, size } => {
            put_replacement(program, operand, size, PLACE, RESULT)
        }
        Target::Stack => put_push(program, steps, PLACE, RESULT),
    }
}

/// The register of the stack pointer.
const STACK_POINTER: u8 = 14;

/// Commits what the specifiers added, and a result in registers. Behind a push the stack pointer is its address.
fn put_end(program: &mut Vec<Micro>, target: Target, steps: &Steps) -> Result<(), WantOfMemory>
    ensures { OnOk result (program.new.items ≡ program.old.items ++ end_program target steps.now) }
{
    match target {
        Target::Nowhere => put_steps(program, steps),
        Target::Stack => {
            let stack = Operand::Register(STACK_POINTER);
            put_finish(program, stack, Size::Long, steps, PLACE)
        }
        Target::Result { operand, size } | Target::Replacement { operand, size } => {
            put_finish(program, operand, size, steps, RESULT)
        }
    }
}

/// Sets the codes and leaves.
fn put_leave(program: &mut Vec<Micro>, codes: CodeSources, exit: Exit) -> Result<(), WantOfMemory>
    ensures { OnOk result (program.new.items ≡ program.old.items ++ (codes_program codes ++ Micro.Leave exit ∷ [])) }
{
    put_codes(program, codes)?;
    add(program, &[Micro::Leave(exit)])
}

/// What comes behind the operands.
pub(crate) fn put_rest(
    program: &mut Vec<Micro>,
    codes: CodeSources,
    plan: Plan<'_>,
    steps: &mut Steps,
) -> Result<(), WantOfMemory>
    ensures { OnOk result (program.new.items ≡ program.old.items ++ rest_program codes (plan_of plan.entry) steps.old) }
{
    add(program, plan.before)?;
    put_target(program, plan.target, steps)?;
    add(program, plan.behind)?;
    put_end(program, plan.target, steps)?;
    put_leave(program, codes, plan.exit)
}

/// The program of a plan.
pub(crate) fn assemble(
    alloc: Global,
    codes: CodeSources,
    plan: Plan<'_>,
    instr: &Instr,
) -> Result<Vec<Micro>, WantOfMemory>
    requires { length plan.slots.now ≤ 6 }
    ensures { IfOk result (λ p. p.items ≡ program_of codes (plan_of plan.entry) instr.now) }
{
    let mut program = Vec::new(alloc);
    let mut steps: Steps = [0; 15];
    put_operands(&mut program, plan.slots, instr, &mut steps)?;
    put_rest(&mut program, codes, plan, &mut steps)?;
    Ok(program)
}
