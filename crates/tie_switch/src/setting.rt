// What a processor runs by.
ghost use Rattle.std.specs.Prelude.{◌≡◌};
ghost use Rattle.image_meaning.specs.Meant.{codes_by, codes_written};
ghost use Rattle.system_model.specs.Settings.{goes_on};
ghost use Rattle.exception_records.specs.Points.{point_at};
ghost use Rattle.system_model.specs.Steps.{rules_of};
ghost use Rattle.tie_switch.specs.Seen.{setting_of};

use cc_liveness::code_use;
use exception_records::Rules;
use system_model::{Range, Translation, word_for};
use vax_form::{Flags, Pages, Pending, VaxState, operation_of};

/// The pages of an image, its translation, and the addresses that threads interpret.
#[derive(Clone, Copy)]
pub(crate) struct Setting<'a> {
    pub pages: &'a Pages,
    pub code: &'a Translation,
    pub ranges: &'a [Range],
}

/// The condition codes that an instruction with that opcode writes; without one, none.
pub(crate) fn codes_by(opcode: Option<u8>) -> Flags
    ensures { result ≡ codes_by opcode }
{
    match opcode {
        Some(opcode) => match operation_of(opcode) {
            Some(operation) => code_use(operation).writes,
            None => Flags::NONE,
        },
        None => Flags::NONE,
    }
}

/// The condition codes that the instruction at an address writes.
pub(crate) fn codes_written(pages: &Pages, address: u32) -> Flags
    ensures { result ≡ codes_written pages.now address }
{
    codes_by(pages.code_byte(address))
}

/// The rules of a word's point; without one, all codes stand in their registers.
pub(crate) fn rules_at(code: &Translation, word: u32) -> Rules
    ensures { result ≡ rules_of (point_at code.now.points word) }
{
    match code.points.find(word) {
        Some(point) => point.rules,
        None => Rules::READY,
    }
}

/// Whether a thread goes on in Alpha code at a state, and at which word.
pub(crate) fn goes_on(setting: Setting<'_>, thread: u8, state: &VaxState) -> Option<u32>
    ensures { result ≡ goes_on (setting_of setting.entry) thread state.now }
{
    let code = setting.code;
    match state.pending {
        Pending::Nothing => word_for(&code.map, setting.ranges, thread, state.pc),
        Pending::Deliver(_) | Pending::Resume => None,
    }
}
