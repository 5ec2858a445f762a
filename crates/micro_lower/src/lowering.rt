// The program of an instruction.
ghost use Rattle.std.specs.Prelude.{◌≡◌, ◌↔◌, true, false, IfOk, IfErr, MatchOption, Some, None};
ghost use Rattle.vax_form.specs.Grammar.{IsSpelled};
ghost use Rattle.micro_lower.specs.Lowering.{IsLowered, WritesOperand};
ghost use Rattle.micro_lower.specs.Rows.{has_program, program_of_operation, program_for};

use crate::branches::lower_plain;
use crate::ranges::are_long;
use crate::table::lower_row;
use micro_ops::Micro;
use std::alloc::Global;
use vax_form::{Class, Instr, Operation, WantOfMemory, class_of, operation_of};

/// Why an instruction was not lowered.
#[derive(Clone, Copy, Debug, PartialEq, Eq)]
pub enum LowerFault {
    /// It has no program: it is always interpreted.
    NotTranslated,
    /// There was no memory for its program.
    WantOfMemory,
}

impl LowerFault {
    ghost use Rattle.micro_lower.specs.Refusal.{number_of};

    /// The number of the refusal. Want of memory has none.
    pub fn number(&self) -> Option<u8>
        ensures { result ≡ number_of self.now }
    {
        match self {
            LowerFault::NotTranslated => Some(1),
            LowerFault::WantOfMemory => None,
        }
    }
}

/// Whether an instruction has a program: whether it is translated.
#[tactic(auto, unfolding(crate::specs::Rows::has_program))]
pub fn has_program(instr: &Instr) -> bool
    ensures { result ≡ has_program instr.now }
{
    match class_of(instr.opcode) {
        Class::Translated => true,
        Class::Tie | Class::Reserved => false,
    }
}

/// The program of an instruction with that operation; None where the operation has none.
fn lower_operation(
    alloc: Global,
    operation: Operation,
    instr: &Instr,
) -> Result<Option<Vec<Micro>>, WantOfMemory>
    ensures { IfOk result (λ found. MatchOption found (program_of_operation operation instr.now ≡ None) (λ p. program_of_operation operation instr.now ≡ Some p.items)) }
{
    match lower_plain(alloc, operation, instr) {
        Some(Ok(program)) => Ok(Some(program)),
        Some(Err(_)) => Err(WantOfMemory),
        None => match lower_row(alloc, operation, instr) {
            Some(Ok(program)) => Ok(Some(program)),
            Some(Err(WantOfMemory)) => Err(WantOfMemory),
            None => Ok(None),
        },
    }
}

/// The program of an instruction: the same checks and references, and the same end, from every state. Where it leaves, the
/// temporaries hold what the condition codes come from. It reads no other codes than the instruction, leaves only to where
/// the instruction may go on, and writes as many bytes as the operand has that the instruction writes.
///
/// # Errors
///
/// `NotTranslated` just where the instruction has no program; `WantOfMemory`.
pub fn lower(alloc: Global, instr: &Instr) -> Result<Vec<Micro>, LowerFault>
    requires spelled { IsSpelled instr.now }
    ensures lowered { IfOk result (λ program. IsLowered instr.now program.items) }
    ensures program { IfOk result (λ program. program_for instr.now ≡ Some program.items) }
    ensures written { IfOk result (λ program. WritesOperand instr.now program.items) }
    ensures translated { IfOk result (λ _. has_program instr.now ≡ true) }
    ensures refused { IfErr result (λ fault. (fault ≡ LowerFault.NotTranslated) ↔ (has_program instr.now ≡ false)) }
{
    are_long(instr);
    if !has_program(instr) {
        return Err(LowerFault::NotTranslated);
    }
    let Some(operation) = operation_of(instr.opcode) else {
        return Err(LowerFault::NotTranslated);
    };
    match lower_operation(alloc, operation, instr) {
        Ok(Some(program)) => Ok(program),
        Ok(None) => Err(LowerFault::NotTranslated),
        Err(WantOfMemory) => Err(LowerFault::WantOfMemory),
    }
}
