// The pieces of lines, appended.
ghost use Rattle.std.specs.Prelude.{◌≡◌, ◌++◌, OnOk, decimal};
ghost use Rattle.std.specs.List.{flat_map};
ghost use Rattle.image_text.specs.Lines.{address_text, number};
ghost use Rattle.image_text.specs.Pieces.{piece_text};

use report_text::Line;
use std::alloc::AllocError;

/// A piece of a line.
#[derive(Clone, Copy)]
pub enum Piece<'a> {
    Text(&'a [u8]),
    /// A number in decimal digits.
    Digits(u64),
    /// The same behind a blank.
    Number(u64),
    /// A blank, and an address in eight hexadecimal digits.
    Address(u32),
}

fn put_digits(out: &mut Vec<u8>, n: u64) -> Result<(), AllocError>
    ensures { OnOk result (out.new.items ≡ out.old.items ++ decimal n) }
{
    let mut line = Line::new();
    line.push_spaced(n);
    out.extend_from_slice(&line.as_slice()[1..])
}

fn put_number(out: &mut Vec<u8>, n: u64) -> Result<(), AllocError>
    ensures { OnOk result (out.new.items ≡ out.old.items ++ number n) }
{
    let mut line = Line::new();
    line.push_spaced(n);
    out.extend_from_slice(line.as_slice())
}

fn put_address(out: &mut Vec<u8>, address: u32) -> Result<(), AllocError>
    ensures { OnOk result (out.new.items ≡ out.old.items ++ address_text address) }
{
    let mut line = Line::new();
    line.push(b' ');
    line.push_longword(address);
    out.extend_from_slice(line.as_slice())
}

fn put_piece(out: &mut Vec<u8>, piece: Piece<'_>) -> Result<(), AllocError>
    ensures { OnOk result (out.new.items ≡ out.old.items ++ piece_text piece.entry) }
{
    match piece {
        Piece::Text(text) => out.extend_from_slice(text),
        Piece::Digits(n) => put_digits(out, n),
        Piece::Number(n) => put_number(out, n),
        Piece::Address(address) => put_address(out, address),
    }
}

/// The pieces, one behind the other.
pub fn put_pieces(out: &mut Vec<u8>, pieces: &[Piece<'_>]) -> Result<(), AllocError>
    ensures { OnOk result (out.new.items ≡ out.old.items ++ flat_map piece_text pieces.now) }
{
    for piece in pieces {
        put_piece(out, *piece)?;
    }
    Ok(())
}
