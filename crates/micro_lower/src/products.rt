// The extended product.
// VAX Architecture Reference Manual, "Integer Arithmetic and Logical Instructions": Extended Multiply.
ghost use Rattle.std.specs.Prelude.{◌≡◌, ◌++◌, IfOk, OnOk};
ghost use Rattle.operand_programs.specs.InOrder.{operands_program, steps_behind_all};
ghost use Rattle.micro_ops.specs.Sources.{sources_of};
ghost use Rattle.micro_lower.specs.Plans.{rest_program, specifiers_from};
ghost use Rattle.micro_lower.specs.Rows.{factors, others, product_program, extended_multiply_plan, extended_multiply_program};

use crate::micros::{add, binary, unary};
use crate::plans::{Plan, Slot, Target, put_operands, put_rest, put_slot};
use crate::rows::{operand, slot};
use micro_ops::{Arg, Exit, Micro, MicroOp, sources_of};
use operand_programs::Steps;
use std::alloc::Global;
use vax_form::{Access, Instr, Operation, Size, WantOfMemory};

/// The product of 0 and 1 as a quadword goes into 0.
const FACTORS: [Slot; 2] = [
    slot!(Access::Read, Size::Long, 0, 1),
    slot!(Access::Read, Size::Long, 1, 2),
];

const ADDEND: Slot = slot!(Access::Read, Size::Long, 1, 2);

const WRITTEN: Slot = slot!(Access::Write, Size::Quad, 2, 3);

const OTHERS: [Slot; 2] = [ADDEND, WRITTEN];

const PRODUCT: [Micro; 3] = [
    unary!(4, MicroOp::SignExtend, Size::Long, Arg::Temp(0)),
    unary!(5, MicroOp::SignExtend, Size::Long, Arg::Temp(1)),
    binary!(0, MicroOp::Mul, Size::Quad, Arg::Temp(4), Arg::Temp(5)),
];

/// The addend goes into 1, and the place of the result into 3.
fn put_others(
    program: &mut Vec<Micro>,
    instr: &Instr,
    steps: &mut Steps,
) -> Result<(), WantOfMemory>
    ensures program { OnOk result (program.new.items ≡ program.old.items ++ operands_program (specifiers_from 2 others instr.now) steps.old) }
    ensures steps { OnOk result (steps.new ≡ steps_behind_all (specifiers_from 2 others instr.now) steps.old) }
{
    put_slot(program, 2, ADDEND, instr, steps)?;
    put_slot(program, 3, WRITTEN, instr, steps)
}

/// The factors are multiplied.
fn put_product(
    program: &mut Vec<Micro>,
    instr: &Instr,
    steps: &mut Steps,
) -> Result<(), WantOfMemory>
    ensures program { OnOk result (program.new.items ≡ program.old.items ++ (operands_program (specifiers_from 0 factors instr.now) steps.old ++ product_program)) }
    ensures steps { OnOk result (steps.new ≡ steps_behind_all (specifiers_from 0 factors instr.now) steps.old) }
{
    put_operands(program, &FACTORS, instr, steps)?;
    add(program, &PRODUCT)
}

const SUM: [Micro; 2] = [
    unary!(4, MicroOp::SignExtend, Size::Long, Arg::Temp(1)),
    binary!(2, MicroOp::Add, Size::Quad, Arg::Temp(0), Arg::Temp(4)),
];

/// The addend is added, and the sum given to the last operand.
fn put_sum(program: &mut Vec<Micro>, instr: &Instr, steps: &mut Steps) -> Result<(), WantOfMemory>
    ensures { OnOk result (program.new.items ≡ program.old.items ++ rest_program (sources_of Operation.ExtendedMultiply) (extended_multiply_plan instr.now) steps.old) }
{
    let quad = Size::Quad;
    let plan = Plan {
        slots: &OTHERS,
        before: &SUM,
        target: Target::Result {
            operand: operand(instr, 3),
            size: quad,
        },
        behind: &[],
        exit: Exit::Next,
    };
    let codes = sources_of(Operation::ExtendedMultiply);
    put_rest(program, codes, plan, steps)
}

/// EMUL: four operands are too many for the temporaries, so the factors are multiplied before the others are evaluated.
pub(crate) fn extended_multiply(alloc: Global, instr: &Instr) -> Result<Vec<Micro>, WantOfMemory>
    ensures { IfOk result (λ p. p.items ≡ extended_multiply_program instr.now) }
{
    let mut program = Vec::new(alloc);
    let mut steps: Steps = [0; 15];
    put_product(&mut program, instr, &mut steps)?;
    put_others(&mut program, instr, &mut steps)?;
    put_sum(&mut program, instr, &mut steps)?;
    Ok(program)
}
