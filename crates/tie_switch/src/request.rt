// The requests of Alpha code's accesses.
ghost use Rattle.std.specs.Prelude.{◌≡◌, ◌+◌, ◌*◌, ◌≤◌, ◌<◌, ◌%◌, ◌^◌, ◌&&◌, true};
ghost use Rattle.system_model.specs.Processors.{moment_of};
ghost use Rattle.system_model.specs.Quadwords.{stored};
ghost use Rattle.system_model.specs.Steps.{Moment, kind_of, change_of, is_defined, request_for};
ghost use Rattle.tie_switch.specs.Accesses.{IsAccess, CanAsk};
ghost use Rattle.tie_switch.specs.Seen.{setting_of};
ghost use Rattle.memory_core.specs.Changes.{IsInRange};
ghost use Rattle.memory_core.specs.Kinds.{is_get};
ghost use Rattle.vax_form.specs.PageTable.{IsPageTable};

use crate::processor::Processor;
use crate::setting::Setting;
use alpha_meaning::{AlphaAccess, AlphaKind, stores};
use memory_core::{Change, Kind, Request};
use vax_form::Pages;

#[inline(always)]
fn kind_of(kind: AlphaKind) -> Kind
    ensures { result ≡ kind_of kind }
{
    match kind {
        AlphaKind::Load => Kind::Load,
        AlphaKind::LoadLocked => Kind::LoadLocked,
        AlphaKind::Store => Kind::Store,
        AlphaKind::StoreConditional => Kind::StoreConditional,
    }
}

/// So many bytes of a value from that byte of a quadword on.
#[inline(always)]
pub(crate) fn stored(place: u8, count: u8, value: u64) -> Change
    requires place { place < 8 }
    requires within { place + count ≤ 8 }
    requires value { value * 2 ^ (8 * place) < 2 ^ 64 }
    ensures change { result ≡ stored place count value }
    ensures range { IsInRange result }
{
    let mask = (1u32 << (place + count)) - (1u32 << place);
    Change::Bytes {
        mask: mask as u8,
        value: value << (8 * place),
    }
}

/// A store changes its bytes of the quadword.
#[inline(always)]
fn change_of(access: AlphaAccess) -> Change
    requires access { IsAccess access }
    requires aligned { access.address % access.bytes ≡ 0 }
    ensures change { result ≡ change_of access }
    ensures range { IsInRange result }
{
    if stores(access.kind) {
        stored((access.address % 8) as u8, access.bytes, access.value)
    } else {
        Change::Nothing
    }
}

// It does nothing, and brings what every page table is.
fn page_table_rises(pages: &Pages)
    ensures { IsPageTable pages.now }
{
    let _ = &pages.ranges;
}

/// Whether a request waits, where a GET does.
#[inline(always)]
pub(crate) fn awaits(waits: bool, request: &Request) -> bool
    ensures { result ≡ (waits && is_get request.now.kind) }
{
    waits && matches!(request.kind, Kind::Get)
}

/// The request of an access by a thread that has retired so many instructions.
#[inline(always)]
pub(crate) fn request_by(
    setting: Setting<'_>,
    thread: u8,
    retired: u64,
    access: AlphaAccess,
) -> Request
    requires access { IsAccess access }
    requires defined { is_defined (setting_of setting) access ≡ true }
    ensures request { (moment : Moment) → moment.thread ≡ thread → moment.retired ≡ retired → result ≡ request_for moment access }
    ensures can { CanAsk setting.entry.pages.now result }
{
    page_table_rises(setting.pages);
    Request {
        processor: thread,
        retired,
        kind: kind_of(access.kind),
        quad: (access.address / 8 * 8) as u32,
        change: change_of(access),
    }
}

impl Processor {
    ghost use Rattle.tie_switch.specs.Processors.{processor_of};

    /// The request of an access.
    pub(crate) fn request_for(&self, setting: Setting<'_>, access: AlphaAccess) -> Request
        requires access { IsAccess access }
        requires defined { is_defined (setting_of setting) access ≡ true }
        ensures request { result ≡ request_for (moment_of (processor_of self.now)) access }
        ensures can { CanAsk setting.entry.pages.now result }
    {
        request_by(setting, self.thread, self.retired, access)
    }
}
