// The next byte of a string, and its references.
ghost use Rattle.std.specs.Prelude.{◌≡◌};
ghost use Rattle.vax_meaning.specs.Play.{Plays, Uses};
ghost use Rattle.tie_strings.specs.Bytes.{may_be_read, next_byte, read_of, write_of};

use vax_form::{Pages, RefKind, Reference, Stop};
use vax_long::{fetch_byte, read_byte};
use vax_meaning::{Cursor, low_bytes};

/// Reads a byte, which is checked first unless it was.
#[tactic(auto, unfolding(crate::specs::Bytes::next_byte))]
pub(crate) fn next_byte(cursor: &mut Cursor, checked: bool, address: u32) -> Result<u8, Stop>
    ensures plays { Plays (next_byte checked address) cursor.old result cursor.new }
    ensures few { Uses 1 cursor.old result cursor.new }
{
    if checked {
        read_byte(cursor, address)
    } else {
        fetch_byte(cursor, address)
    }
}

/// Whether a byte was checked, or may be read.
#[inline(always)]
pub(crate) fn may_be_read(checked: bool, pages: &Pages, address: u32) -> bool
    ensures { result ≡ may_be_read checked pages.now address }
{
    checked || pages.first_bad(address, 1, false).is_none()
}

/// The read of a byte.
#[inline(always)]
pub(crate) fn read_of(address: u32) -> Reference
    ensures { result ≡ read_of address }
{
    Reference {
        address,
        count: 1,
        kind: RefKind::Read,
    }
}

/// The write of a byte.
#[inline(always)]
pub(crate) fn write_of(address: u32, byte: u8) -> Reference
    ensures { result ≡ write_of address byte }
{
    Reference {
        address,
        count: 1,
        kind: RefKind::Write(low_bytes(1, byte as u64)),
    }
}
