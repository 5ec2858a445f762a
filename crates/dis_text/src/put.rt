// Numbers and bytes, appended.
ghost use Rattle.std.specs.Prelude.{◌≡◌, ◌<◌, ◌+◌, ◌-◌, ◌/◌, ◌%◌, ◌++◌, OnOk, codes, length, map, replicate, slice_index};
ghost use Rattle.std.specs.List.{flat_map};
ghost use Rattle.array_text.specs.Hexadecimal.{hexadecimal};
ghost use Rattle.report_text.specs.Digits.{eight_digits};
ghost use Rattle.dis_text.specs.Lines.{bytes_text, character, front, spaced_byte};

use array_text::{Line, push_hexadecimal};
use std::alloc::AllocError;

/// The characters of bytes with the blanks before them, and one behind.
const BYTES_WIDTH: usize = 25;

/// The characters of one byte with the blank before it.
const BYTE_WIDTH: usize = 3;

// The digit of a number that counts so many.
fn digit(number: u64, counts: u64) -> u8
    requires { 0 < counts }
    ensures { result ≡ slice_index (codes "0123456789ABCDEF") (number / counts % 16) }
{
    b"0123456789ABCDEF"[(number / counts % 16) as usize]
}

/// A number in its lowest eight hexadecimal digits.
#[tactic(auto, unfolding(report_text::specs::Digits::eight_digits, report_text::specs::Digits::digits_from))]
pub fn put_longword(out: &mut Vec<u8>, number: u64) -> Result<(), AllocError>
    ensures { OnOk result (out.new.items ≡ out.old.items ++ eight_digits number) }
{
    out.extend_from_slice(&[
        digit(number, 0x1000_0000),
        digit(number, 0x100_0000),
        digit(number, 0x10_0000),
        digit(number, 0x1_0000),
        digit(number, 0x1000),
        digit(number, 0x100),
        digit(number, 0x10),
        digit(number, 1),
    ])
}

/// A number in as few hexadecimal digits as it needs.
#[tactic(auto, using(array_text::proofs::Hexadecimal::quadword_places))]
pub fn put_hexadecimal(out: &mut Vec<u8>, number: u64) -> Result<(), AllocError>
    ensures { OnOk result (out.new.items ≡ out.old.items ++ hexadecimal number) }
{
    let mut line = Line::new();
    push_hexadecimal(&mut line, number);
    out.extend_from_slice(line.as_slice())
}

#[tactic(auto, unfolding(report_text::specs::Digits::two_digits, report_text::specs::Digits::digits_from))]
fn put_spaced_byte(out: &mut Vec<u8>, byte: u8) -> Result<(), AllocError>
    ensures { OnOk result (out.new.items ≡ out.old.items ++ spaced_byte byte) }
{
    let number = u64::from(byte);
    out.extend_from_slice(&[b' ', digit(number, 0x10), digit(number, 1)])
}

fn put_spaced_bytes(out: &mut Vec<u8>, bytes: &[u8]) -> Result<(), AllocError>
    ensures { OnOk result (out.new.items ≡ out.old.items ++ flat_map spaced_byte bytes.now) }
{
    for byte in bytes {
        put_spaced_byte(out, *byte)?;
    }
    Ok(())
}

fn put_blanks(out: &mut Vec<u8>, count: usize) -> Result<(), AllocError>
    ensures { OnOk result (out.new.items ≡ out.old.items ++ replicate count 32) }
{
    for _n in 0..count {
        out.push(b' ')?;
    }
    Ok(())
}

fn put_bytes_text(out: &mut Vec<u8>, bytes: &[u8]) -> Result<(), AllocError>
    ensures { OnOk result (out.new.items ≡ out.old.items ++ bytes_text bytes.now) }
{
    let width = bytes.len().saturating_mul(BYTE_WIDTH);
    out.push(b' ')?;
    put_spaced_bytes(out, bytes)?;
    put_blanks(out, BYTES_WIDTH.saturating_sub(width))?;
    out.extend_from_slice(b"  ")
}

/// An address, and the bytes that stand there.
pub fn put_front(out: &mut Vec<u8>, address: u64, bytes: &[u8]) -> Result<(), AllocError>
    ensures { OnOk result (out.new.items ≡ out.old.items ++ front address bytes.now) }
{
    put_longword(out, address)?;
    put_bytes_text(out, bytes)
}

fn character(byte: u8) -> u8
    ensures { result ≡ character byte }
{
    if (b' '..=b'~').contains(&byte) {
        byte
    } else {
        b'.'
    }
}

/// Bytes as ASCII characters.
pub fn put_characters(out: &mut Vec<u8>, bytes: &[u8]) -> Result<(), AllocError>
    ensures { OnOk result (out.new.items ≡ out.old.items ++ map character bytes.now) }
{
    for byte in bytes {
        out.push(character(*byte))?;
    }
    Ok(())
}
