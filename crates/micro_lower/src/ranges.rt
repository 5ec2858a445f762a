// Addresses in an instruction are longwords.
ghost use Rattle.vax_meaning.specs.Evaluation.{operand};
ghost use Rattle.micro_lower.specs.Lowering.{AreLongOperands};

use vax_form::Instr;

/// The addresses in the operands are longwords.
pub(crate) fn are_long(instr: &Instr)
    ensures { AreLongOperands instr.now }
{
    let _operands = (
        instr.operands[0],
        instr.operands[1],
        instr.operands[2],
        instr.operands[3],
    );
}
