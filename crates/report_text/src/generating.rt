//! The lines of `generate`.
ghost use Rattle.std.specs.Prelude.{◌≡◌};
ghost use Rattle.report_text.specs.Generating.{generated_text};

use crate::line::Line;

/// The number of a generated image and the bytes of its file, how many addresses are mapped, and the sum of its memory's
/// bytes after the run, modulo 2^32.
pub fn generated_lines(number: u32, bytes: u64, mapped: u64, memory: u32) -> Line
    ensures { result ≡ generated_text number bytes mapped memory }
{
    let mut line = Line::new();
    line.push_text(b"image");
    line.push_spaced(u64::from(number));
    line.push_text(b" bytes");
    line.push_spaced(bytes);
    line.push_text(b"\nmapped");
    line.push_spaced(mapped);
    line.push_text(b"\nmemory ");
    line.push_longword(memory);
    line.push(b'\n');
    line
}
