// The requests of interpreted references, and the replies to them.
ghost use Rattle.std.specs.Prelude.{◌≡◌, ◌<◌};
ghost use Rattle.memory_core.specs.Changes.{IsInRange};
ghost use Rattle.system_model.specs.Processors.{kind_by, request_of};
ghost use Rattle.system_model.specs.Quadwords.{change_of, reply_found};
ghost use Rattle.vt_words.specs.Quad.{field_of};

use crate::processor::Processor;
use crate::request::stored;
use memory_core::{Change, Kind, Request};
use vax_form::{RefKind, Reference};

/// The kind of access that an interpreted reference makes.
fn kind_by(kind: RefKind) -> Kind
    ensures { result ≡ kind_by kind }
{
    match kind {
        RefKind::Read => Kind::TieRead,
        RefKind::Write(_) => Kind::TieWrite,
        RefKind::Add(_) | RefKind::SetBit(_) | RefKind::ClearBit(_) => Kind::TieLocked,
        RefKind::Put(_) => Kind::Put,
        RefKind::Get => Kind::Get,
    }
}

/// What a reference makes of its quadword.
fn change_of(reference: &Reference) -> Change
    requires range { IsInRange (change_of reference.now) }
    ensures { result ≡ change_of reference.now }
{
    let place = (reference.address % 8) as u8;
    match reference.kind {
        RefKind::Read | RefKind::Get => Change::Nothing,
        RefKind::Write(value) => stored(place, reference.count, value),
        RefKind::Add(value) => Change::AddWord { at: place, value },
        RefKind::SetBit(bit) => Change::SetBit(8 * place + bit),
        RefKind::ClearBit(bit) => Change::ClearBit(8 * place + bit),
        RefKind::Put(byte) => Change::Byte(byte),
    }
}

// So many bytes of a quadword from that byte on, as far as it reaches.
fn field_of(quad: u64, at: u32, count: u32) -> u64
    requires { at < 8 }
    ensures { result ≡ field_of quad at count }
{
    let shifted = quad >> (8 * at);
    if count < 8 {
        shifted % (1 << (8 * count))
    } else {
        shifted
    }
}

/// The reply to a reference whose access finds that.
pub(crate) fn reply_found(reference: &Reference, before: u64) -> u64
    ensures { result ≡ reply_found reference.now before }
{
    let place = reference.address % 8;
    match reference.kind {
        RefKind::Read => field_of(before, place, u32::from(reference.count)),
        RefKind::Add(_) => field_of(before, place, 2),
        RefKind::SetBit(_) | RefKind::ClearBit(_) => field_of(before, place, 1),
        RefKind::Write(_) | RefKind::Put(_) => 0,
        RefKind::Get => before,
    }
}

impl Processor {
    /// The request of an interpreted reference.
    pub(crate) fn reference_request(&self, reference: &Reference) -> Request
        requires range { IsInRange (change_of reference.now) }
        ensures { result ≡ request_of self.now.thread self.now.retired reference.now }
    {
        Request {
            processor: self.thread,
            retired: self.retired,
            kind: kind_by(reference.kind),
            quad: reference.address - reference.address % 8,
            change: change_of(reference),
        }
    }
}
