// Numbers in as few digits as they need.
ghost use Rattle.std.specs.Prelude.{◌≡◌, ◌+◌, ◌<◌, ◌≤◌, ◌++◌, length, decimal};
ghost use Rattle.array_text.specs.Hexadecimal.{digit, hexadecimal};

use crate::line::{Line, ROOM};

/// Appends a number in decimal digits, for which there has to be room.
#[tactic(auto, using(crate::proofs::DecimalDigits::digits_one, crate::proofs::DecimalDigits::digits_fewer))]
pub fn push_decimal(line: &mut Line, number: u64)
    requires { length line.old.items + length (decimal number) ≤ ROOM }
    ensures text { line.new.items ≡ line.old.items ++ decimal number }
    ensures room { length line.new.items ≡ length line.old.items + length (decimal number) }
{
    if number < 10 {
        line.push(b'0' + number as u8);
    } else {
        push_decimal(line, number / 10);
        line.push(b'0' + (number % 10) as u8);
    }
}

/// Appends a number in hexadecimal digits with capital letters, for which there has to be room.
#[tactic(auto, using(crate::proofs::Hexadecimal::hexadecimal_one, crate::proofs::Hexadecimal::hexadecimal_longer))]
pub fn push_hexadecimal(line: &mut Line, number: u64)
    requires { length line.old.items + length (hexadecimal number) ≤ ROOM }
    ensures text { line.new.items ≡ line.old.items ++ hexadecimal number }
    ensures room { length line.new.items ≡ length line.old.items + length (hexadecimal number) }
{
    if number < 16 {
        line.push(digit(number as u8));
    } else {
        push_hexadecimal(line, number / 16);
        line.push(digit((number % 16) as u8));
    }
}

fn digit(number: u8) -> u8
    requires { number < 16 }
    ensures { result ≡ digit number }
{
    if number < 10 {
        b'0' + number
    } else {
        b'A' - 10 + number
    }
}
