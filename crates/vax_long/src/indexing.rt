// INDEX.
ghost use Rattle.std.specs.Prelude.{◌≡◌, ◌<◌, ◌^◌};
ghost use Rattle.vax_meaning.specs.Play.{Plays, Uses};
ghost use Rattle.vax_long.specs.Index.{is_outside, index_of, index};

use vax_form::{End, Instr, Size, Stop};
use vax_meaning::{
    Cursor, Evaluated, location_of_place, set_codes, set_pc, sign_of, store, value_of_place,
};
use vt_words::signed;

/// Whether a signed longword is below the one bound or above the other.
fn is_outside(low: u64, high: u64, subscript: u64) -> bool
    requires low { low < 2 ^ 32 }
    requires high { high < 2 ^ 32 }
    requires subscript { subscript < 2 ^ 32 }
    ensures { result ≡ is_outside low high subscript }
{
    let place = signed(4, subscript);
    place < signed(4, low) || signed(4, high) < place
}

/// The index of an element: the low 32 bits.
fn index_of(sum: u64, subscript: u64, size: u64) -> u32
    requires sum { sum < 2 ^ 32 }
    requires subscript { subscript < 2 ^ 32 }
    requires size { size < 2 ^ 32 }
    ensures { result ≡ index_of sum subscript size }
{
    let total = (sum as u32).wrapping_add(subscript as u32);
    total.wrapping_mul(size as u32)
}

/// INDEX.
#[tactic(auto, unfolding(crate::specs::Index::index))]
pub fn index(cursor: &mut Cursor, instr: &Instr, values: &[Evaluated; 6]) -> Result<End, Stop>
    ensures plays { Plays (index instr.now values.now) cursor.old result cursor.new }
    ensures few { Uses 2 cursor.old result cursor.new }
{
    let long = Size::Long;
    let subscript = value_of_place(values, 0, long);
    let low = value_of_place(values, 1, long);
    let high = value_of_place(values, 2, long);
    let sum = value_of_place(values, 4, long);
    let result = index_of(sum, subscript, value_of_place(values, 3, long)) as u64;
    store(cursor, location_of_place(values, 5), long, result)?;
    set_codes(cursor, sign_of(long, result), result == 0, false, false);
    set_pc(cursor, instr.after);
    if is_outside(low, high, subscript) {
        Ok(End::Traps(7))
    } else {
        Ok(End::Done)
    }
}
