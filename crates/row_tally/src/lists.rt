// Fields that are lists: of numbers, of pairs of numbers, and of bytes.
ghost use Rattle.std.specs.Prelude.{◌≡◌, [], Ok, map, IfOk, true, false};
ghost use Rattle.std.specs.List.{AllZip};
ghost use Rattle.hex.specs.Hex.{decode_of};
ghost use Rattle.row_tally.specs.Rows.{IsPair, is_none, number_of, pieces_of};

use crate::fault::RowFault;
use crate::reading::{bytes, is_none, longword, pieces};
use std::alloc::Global;

/// The longwords of a field, which have one comma between; `-` alone is none.
pub fn longwords(alloc: Global, field: &str) -> Result<Vec<u32>, RowFault>
    ensures { IfOk result (λ v. v.items ≡ map number_of (pieces_of field.now)) }
{
    let pieces = pieces(alloc, field)?;
    let mut longwords = Vec::new(alloc);
    for piece in &pieces {
        longwords.push(longword(piece)?)?;
    }
    Ok(longwords)
}

/// The two longwords of FIRST=SECOND.
pub fn pair(piece: &str) -> Result<(u32, u32), RowFault>
    ensures { IfOk result (IsPair piece.now) }
{
    match piece.split_once('=') {
        Some((first, second)) => Ok((longword(first)?, longword(second)?)),
        None => Err(RowFault::OtherCount),
    }
}

/// The pairs FIRST=SECOND of a field, which have one comma between; `-` alone is none.
pub fn pairs(alloc: Global, field: &str) -> Result<Vec<(u32, u32)>, RowFault>
    ensures { IfOk result (λ v. AllZip IsPair (pieces_of field.now) v.items) }
{
    let pieces = pieces(alloc, field)?;
    let mut pairs = Vec::new(alloc);
    for piece in &pieces {
        pairs.push(pair(piece)?)?;
    }
    Ok(pairs)
}

/// The bytes that pairs of hexadecimal digits spell; `-` alone is none.
pub fn bytes_or_none(alloc: Global, field: &str) -> Result<Vec<u8>, RowFault>
    ensures none { IfOk result (λ bytes. is_none field.now ≡ true → bytes.items ≡ []) }
    ensures bytes { IfOk result (λ bytes. is_none field.now ≡ false → decode_of field.now ≡ Ok bytes.items) }
{
    if is_none(field) {
        return Ok(Vec::new(alloc));
    }
    bytes(alloc, field)
}
