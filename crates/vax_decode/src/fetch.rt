// The bytes that can be fetched from an address on.
ghost use Rattle.std.specs.Prelude.{◌≡◌, ◌≤◌, take};
ghost use Rattle.vax_form.specs.GrammarFound.{fetched};

use vax_form::Pages;

/// No instruction has more bytes.
pub(crate) const LONGEST: usize = 64;

/// The bytes from an address on, as far as they can be fetched one after the other, and their number.
pub(crate) fn fetch(pages: &Pages, pc: u32) -> ([u8; LONGEST], usize)
    ensures few { result.1 ≤ 64 }
    ensures bytes { take result.1 result.0 ≡ fetched pages.now pc 64 }
{
    let mut bytes = [0; LONGEST];
    let mut count = 0;
    while count < LONGEST {
        let Some(run) = pages.code_from(pc.wrapping_add(count as u32)) else {
            return (bytes, count);
        };
        let more = run.len().min(LONGEST - count);
        bytes[count..count + more].copy_from_slice(&run[..more]);
        count += more;
    }
    (bytes, count)
}
