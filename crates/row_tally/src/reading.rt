// Reads tables of rows: lines with fields that are words, hexadecimal numbers, bytes, or lists of these.
ghost use Rattle.std.specs.Prelude.{◌≡◌, ◌≢◌, Ok, map, length, IfOk, IfErr};
ghost use Rattle.std.specs.Str.Parse.{ParsesUnsigned};
ghost use Rattle.hex.specs.Hex.{decode_of};
ghost use Rattle.row_tally.specs.declared.fault.RowFault.TheVariants.{OtherCount};
ghost use Rattle.row_tally.specs.Rows.{is_row, rows_of, fields_of, is_none, pieces_of};

use crate::fault::RowFault;
use hex::FromHexError;
use std::alloc::{AllocError, Global};

const RADIX: u32 = 16;

/// Whether a line of a table is a row: it is not empty, and no comment, which begins with `#`.
pub(crate) fn is_row(line: &str) -> bool
    ensures { result ≡ is_row line.now }
{
    match line.as_bytes() {
        [] | [b'#', ..] => false,
        _ => true,
    }
}

/// The rows of a table, in order.
pub fn rows(alloc: Global, table: &str) -> Result<Vec<&str>, AllocError>
    ensures { IfOk result (λ v. map (λ x. x.now) v.items ≡ rows_of table.now) }
{
    table.lines().filter(|line| is_row(line)).collect(alloc)
}

/// The words of a row, which have one space between.
pub fn words(alloc: Global, row: &str) -> Result<Vec<&str>, AllocError>
    ensures { IfOk result (λ v. map (λ x. x.now) v.items ≡ fields_of row.now) }
{
    row.split(' ').collect(alloc)
}

/// The fields of a row, which have one space between, if there are `count`.
pub fn fields(alloc: Global, row: &str, count: usize) -> Result<Vec<&str>, RowFault>
    ensures fields { IfOk result (λ v. map (λ x. x.now) v.items ≡ fields_of row.now) }
    ensures counted { IfOk result (λ v. length v.items ≡ count) }
    ensures refused { IfErr result (λ e. e ≡ OtherCount → length (fields_of row.now) ≢ count) }
{
    let fields = match words(alloc, row) {
        Ok(fields) => fields,
        Err(want) => return Err(RowFault::Memory(want)),
    };
    if fields.len() != count {
        return Err(RowFault::OtherCount);
    }
    Ok(fields)
}

/// Whether a field is `-` alone, which spells a list of nothing.
pub(crate) fn is_none(field: &str) -> bool
    ensures { result ≡ is_none field.now }
{
    let bytes = field.as_bytes();
    bytes.len() == 1 && bytes[0] == b'-'
}

/// The pieces of a field, which have one comma between; `-` alone is none.
pub fn pieces(alloc: Global, field: &str) -> Result<Vec<&str>, AllocError>
    ensures { IfOk result (λ v. map (λ x. x.now) v.items ≡ pieces_of field.now) }
{
    if is_none(field) {
        return Ok(Vec::new(alloc));
    }
    field.split(',').collect(alloc)
}

/// A hexadecimal number below 2^64.
pub fn number(text: &str) -> Result<u64, RowFault>
    ensures { ParsesUnsigned 64 16 text.now result }
{
    match u64::from_str_radix(text, RADIX) {
        Ok(number) => Ok(number),
        Err(_) => Err(RowFault::NoNumber),
    }
}

/// A hexadecimal number below 2^32.
pub fn longword(text: &str) -> Result<u32, RowFault>
    ensures { ParsesUnsigned 32 16 text.now result }
{
    match u32::from_str_radix(text, RADIX) {
        Ok(number) => Ok(number),
        Err(_) => Err(RowFault::NoNumber),
    }
}

/// The bytes that pairs of hexadecimal digits spell.
pub fn bytes(alloc: Global, text: &str) -> Result<Vec<u8>, RowFault>
    ensures { IfOk result (λ bytes. decode_of text.now ≡ Ok bytes.items) }
{
    match hex::decode(alloc, text) {
        Ok(bytes) => Ok(bytes),
        Err(FromHexError::OutOfMemory) => Err(RowFault::Memory(AllocError)),
        Err(_) => Err(RowFault::NoBytes),
    }
}
