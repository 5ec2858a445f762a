//! Lines of text in an array, made without memory.
ghost use Rattle.std.specs.Prelude.{◌≡◌, ◌+◌, ◌<◌, ◌≤◌, [], ◌∷◌, ◌++◌, length, decimal};
ghost use Rattle.report_text.specs.Digits.{digit_at, digits_from, two_digits, eight_digits};

use std::marker::Model;

/// The most bytes of the lines.
pub const LINE_ROOM: usize = 256;

/// The most digits of a number.
pub const DIGITS: usize = 20;

/// Lines of text. Contracts see them as their bytes.
#[derive(Drop)]
pub struct Line {
    bytes: [u8; LINE_ROOM],
    len: usize,
}

impl Model for Line {
    ghost use Rattle.std.specs.Prelude.{◌≤◌, ℕ, List, take};

    ghost Value = { List ℕ };

    ghost view = { λ l. take l.len l.bytes };

    ghost invariant = { λ l. l.len ≤ 256 };
}

impl Line {
    pub fn new() -> Self
        ensures { result ≡ [] }
    {
        Line {
            bytes: [0; LINE_ROOM],
            len: 0,
        }
    }

    pub fn as_slice(&self) -> &[u8]
        ensures { result.now ≡ self.now }
    {
        &self.bytes[..self.len]
    }

    pub fn push(&mut self, byte: u8)
        requires { length self.old < LINE_ROOM }
        ensures { self.new ≡ self.old ++ byte ∷ [] }
    {
        self.bytes[self.len] = byte;
        self.len += 1;
    }

    pub fn push_text(&mut self, text: &[u8])
        requires { length self.old + length text.now ≤ LINE_ROOM }
        ensures { self.new ≡ self.old ++ text.now }
    {
        for byte in text {
            self.push(*byte);
        }
    }

    /// Two hexadecimal digits with capital letters.
    pub fn push_byte(&mut self, number: u8)
        requires { length self.old + 2 ≤ LINE_ROOM }
        ensures text { self.new ≡ self.old ++ two_digits number }
        ensures room { length self.new ≡ length self.old + 2 }
    {
        self.push_hexadecimal(2, u32::from(number));
    }

    /// Eight hexadecimal digits with capital letters.
    pub fn push_longword(&mut self, number: u32)
        requires { length self.old + 8 ≤ LINE_ROOM }
        ensures text { self.new ≡ self.old ++ eight_digits number }
        ensures room { length self.new ≡ length self.old + 8 }
    {
        self.push_hexadecimal(8, number);
    }

    // The lowest digits of a number.
    fn push_hexadecimal(&mut self, digits: u32, number: u32)
        requires few { digits ≤ 8 }
        requires room { length self.old + digits ≤ LINE_ROOM }
        ensures text { self.new ≡ self.old ++ digits_from digits number }
        ensures room { length self.new ≡ length self.old + digits }
    {
        for written in 0..digits {
            self.push(digit_at(digits - 1 - written, number));
        }
    }

    /// A blank, and the number in decimal digits.
    pub fn push_spaced(&mut self, number: u64)
        requires { length self.old + 1 + DIGITS ≤ LINE_ROOM }
        ensures text { self.new ≡ self.old ++ 32 ∷ decimal number }
        ensures room { length self.new ≤ length self.old + 1 + DIGITS }
    {
        self.push(b' ');
        push_digits(self, number);
    }
}

#[tactic(auto, using(crate::proofs::Digits::digits_one, crate::proofs::Digits::digits_fewer))]
fn push_digits(line: &mut Line, number: u64)
    requires { length line.old + length (decimal number) ≤ LINE_ROOM }
    ensures { line.new ≡ line.old ++ decimal number }
{
    if number < 10 {
        line.push(b'0' + number as u8);
    } else {
        push_digits(line, number / 10);
        line.push(b'0' + (number % 10) as u8);
    }
}

// The hexadecimal digit at that place, from the lowest.
fn digit_at(place: u32, number: u32) -> u8
    requires { place < 8 }
    ensures { result ≡ digit_at place number }
{
    b"0123456789ABCDEF"[(number / 16_u32.pow(place) % 16) as usize]
}
