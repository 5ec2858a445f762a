// What a RET wants, told by how many replies there are.
ghost use Rattle.std.specs.Prelude.{◌≡◌, ◌<◌, IfSome, length, true};
ghost use Rattle.tie_strings.specs.Bodies.{long_of};
ghost use Rattle.vax_form.specs.Targets.{operand_of};
ghost use Rattle.vax_form.specs.Tree.{Wants, answer, instruction_tree};
ghost use Rattle.vax_form.specs.declared.instr.Operand.TheVariants.{Unused};
ghost use Rattle.vax_form.specs.declared.operation.LongOperation.TheVariants.{Return};
ghost use Rattle.vax_long.specs.Instructions.{long_script};

use crate::body::Plain;
use vax_form::{Instr, Operand, Pages, Reference, VaxState};
use vax_long::longword_wanted;

#[inline(always)]
fn is_unused(operand: &Operand) -> bool
    ensures { result ≡ true → operand.now ≡ Unused }
{
    matches!(operand, Operand::Unused)
}

/// What a RET without operands wants behind the longwords that it read, where its frame is aligned.
fn return_told(
    before: &VaxState,
    instr: &Instr,
    pages: &Pages,
    replies: &[u64],
) -> Option<Reference>
    requires first { operand_of instr.now 0 ≡ Unused }
    requires second { operand_of instr.now 1 ≡ Unused }
    requires third { operand_of instr.now 2 ≡ Unused }
    requires fourth { operand_of instr.now 3 ≡ Unused }
    requires fifth { operand_of instr.now 4 ≡ Unused }
    requires sixth { operand_of instr.now 5 ≡ Unused }
    ensures wanted { IfSome result (λ reference. answer pages.now (instruction_tree pages.now (long_script Return instr.now) before.now) replies.now ≡ Wants reference) }
    ensures few { IfSome result (λ reference. length replies.now < 34) }
{
    longword_wanted(before, pages, replies)
}

/// What an instruction wants behind the references that have replies, where their number tells it.
#[inline(always)]
pub fn told(
    before: &VaxState,
    operation: Plain,
    instr: &Instr,
    pages: &Pages,
    replies: &[u64],
) -> Option<Reference>
    ensures wanted { IfSome result (λ reference. answer pages.now (instruction_tree pages.now (long_script (long_of operation) instr.now) before.now) replies.now ≡ Wants reference) }
    ensures few { IfSome result (λ reference. length replies.now < 34) }
{
    match operation {
        Plain::Return => {
            if is_unused(&instr.operands[0])
                && is_unused(&instr.operands[1])
                && is_unused(&instr.operands[2])
                && is_unused(&instr.operands[3])
                && is_unused(&instr.operands[4])
                && is_unused(&instr.operands[5])
            {
                return_told(before, instr, pages, replies)
            } else {
                None
            }
        }
        _ => None,
    }
}
