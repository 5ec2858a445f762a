// A line, and a text behind it.
ghost use Rattle.std.specs.Prelude.{◌≡◌, ◌+◌, ◌≤◌, ◌++◌, length};

use arrayvec::ArrayVec;

/// The most bytes of a line.
pub const ROOM: usize = 160;

/// A line of text.
pub type Line = ArrayVec<u8, ROOM>;

/// Appends a text, for which there has to be room.
pub fn push_text(line: &mut Line, text: &[u8])
    requires { length line.old.items + length text.now ≤ ROOM }
    ensures text { line.new.items ≡ line.old.items ++ text.now }
    ensures room { length line.new.items ≡ length line.old.items + length text.now }
{
    for byte in text {
        line.push(*byte);
    }
}
