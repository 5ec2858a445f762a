// Whether an instruction has a block in a translation.
ghost use Rattle.std.specs.Prelude.{◌≡◌};
ghost use Rattle.flow_discovery.specs.Mapped.{has_block, has_call_block, has_string_block};

use vax_form::{Class, Instr, LongOperation, Pages, class_of};
use vax_long::{long_form, long_operation_of};

/// Whether the instruction is a call of long form.
pub fn has_call_block(instr: &Instr, pages: &Pages) -> bool
    ensures { result ≡ has_call_block instr.now pages.now }
{
    matches!(
        long_operation_of(instr.opcode),
        Some(LongOperation::CallGeneral | LongOperation::CallStack)
    ) && long_form(instr, pages)
}

/// Whether the instruction is MOVC3.
pub fn has_string_block(instr: &Instr) -> bool
    ensures { result ≡ has_string_block instr.now }
{
    matches!(
        long_operation_of(instr.opcode),
        Some(LongOperation::MoveCharacters)
    )
}

/// Whether the instruction has a block: it is translated by its program, or it is of long form.
pub fn has_block(instr: &Instr, pages: &Pages) -> bool
    ensures { result ≡ has_block instr.now pages.now }
{
    matches!(class_of(instr.opcode), Class::Translated) || long_form(instr, pages)
}
