// The instructions of long form.
ghost use Rattle.std.specs.Prelude.{◌≡◌};
ghost use Rattle.vax_long.specs.LongForms.{has_entry_mask, is_fixed_call, has_long_form, is_long_form};

use crate::calls::is_entry_mask;
use crate::instructions::long_operation_of;
use crate::words::code_word;
use vax_form::{Instr, LongOperation, Pages, fixed_address};

fn has_entry_mask(pages: &Pages, destination: u32) -> bool
    ensures { result ≡ has_entry_mask pages.now destination }
{
    match code_word(pages, destination) {
        Some(mask) => is_entry_mask(u32::from(mask)),
        None => false,
    }
}

/// Whether the code fixes the destination of a call, and an entry mask stands there.
fn is_fixed_call(instr: &Instr, pages: &Pages) -> bool
    ensures { result ≡ is_fixed_call instr.now pages.now }
{
    match fixed_address(&instr.operands[1]) {
        Some(destination) => has_entry_mask(pages, destination),
        None => false,
    }
}

#[tactic(auto, unfolding(crate::specs::LongForms::has_long_form))]
fn has_long_form(operation: LongOperation, instr: &Instr, pages: &Pages) -> bool
    ensures { result ≡ has_long_form operation instr.now pages.now }
{
    match operation {
        LongOperation::CallGeneral | LongOperation::CallStack => is_fixed_call(instr, pages),
        LongOperation::MoveCharacters => true,
        _ => false,
    }
}

/// Whether an instruction is of long form: MOVC3, or a call whose destination the code fixes, neither deferred nor
/// indexed, and whose entry mask can be fetched and has bits 13:12 zero.
pub fn long_form(instr: &Instr, pages: &Pages) -> bool
    ensures { result ≡ is_long_form instr.now pages.now }
{
    match long_operation_of(instr.opcode) {
        Some(operation) => has_long_form(operation, instr, pages),
        None => false,
    }
}
