// The addresses that the operands of an instruction fix.
ghost use Rattle.std.specs.Prelude.{◌≡◌};
ghost use Rattle.vax_form.specs.Targets.{branch_target, call_of, call_target, fixed_address, jump_of, jump_target};

use crate::instr::{Base, Instr, Operand};
use crate::operation::{LongOperation, Operation, operation_of};

/// The address of a branch displacement.
pub fn branch_target(operand: &Operand) -> Option<u32>
    ensures { result ≡ branch_target operand.now }
{
    match *operand {
        Operand::Target(address) => Some(address),
        _ => None,
    }
}

/// The address of an operand that is absolute or relative, neither deferred nor indexed.
pub fn fixed_address(operand: &Operand) -> Option<u32>
    ensures { result ≡ fixed_address operand.now }
{
    match *operand {
        Operand::Place {
            base: Base::Fixed {
                address,
                deferred: false,
            },
            index: None,
        } => Some(address),
        _ => None,
    }
}

#[tactic(auto, unfolding(crate::specs::Targets::jump_target))]
fn jump_target(instr: &Instr, operation: Operation) -> Option<u32>
    ensures { result ≡ jump_target instr.now operation }
{
    match operation {
        Operation::Jump | Operation::JumpToSubroutine => fixed_address(&instr.operands[0]),
        _ => None,
    }
}

#[tactic(auto, unfolding(crate::specs::Targets::call_target))]
fn call_target(instr: &Instr, operation: Operation) -> Option<u32>
    ensures { result ≡ call_target instr.now operation }
{
    match operation {
        Operation::Long(LongOperation::CallGeneral | LongOperation::CallStack) => {
            fixed_address(&instr.operands[1]).map(|mask| mask.wrapping_add(2))
        }
        _ => None,
    }
}

/// The address of the instruction's jump, where its operand fixes it.
#[tactic(auto, unfolding(crate::specs::Targets::jump_of))]
pub fn jump_of(instr: &Instr) -> Option<u32>
    ensures { result ≡ jump_of instr.now }
{
    match operation_of(instr.opcode) {
        Some(operation) => jump_target(instr, operation),
        None => None,
    }
}

/// The address to which the instruction's call goes on, behind the entry mask, where its operand fixes it.
#[tactic(auto, unfolding(crate::specs::Targets::call_of))]
pub fn call_of(instr: &Instr) -> Option<u32>
    ensures { result ≡ call_of instr.now }
{
    match operation_of(instr.opcode) {
        Some(operation) => call_target(instr, operation),
        None => None,
    }
}
