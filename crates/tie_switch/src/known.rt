// Instructions that were decoded before.
ghost use Rattle.std.specs.Prelude.{◌≡◌};
ghost use Rattle.tie_switch.specs.Known.{AreFound};
ghost use Rattle.vax_decode.specs.Decoded.{found_of};
ghost use Rattle.vax_form.specs.Grammar.{instruction};
ghost use Rattle.vax_form.specs.GrammarFound.{found};

use vax_decode::{Decoded, decode_at};
use vax_form::{Instr, Pages};

/// How many instructions are known, by the low bits of their addresses.
pub const KNOWN: usize = 1024;

/// The place of what is known of an address, where there is such a place.
#[inline(always)]
pub(crate) fn place_of(address: u32) -> usize {
    address as usize % KNOWN
}

// An instruction is known at the place of its address, where there is such a place.
fn know(pages: &Pages, known: &mut [Option<Instr>], instr: &Instr)
    requires known { AreFound pages.now known.old }
    requires there { found pages.now instr.now.at ≡ instruction instr.now }
    ensures { AreFound pages.now known.new }
{
    let place = place_of(instr.at);
    if place < known.len() {
        known[place] = Some(*instr);
    }
}

/// Decodes what stands at an address. An instruction is known then: code never changes.
pub(crate) fn decoded_at(pages: &Pages, known: &mut [Option<Instr>], address: u32) -> Decoded
    requires known { AreFound pages.now known.old }
    ensures known { AreFound pages.now known.new }
    ensures found { found_of result ≡ found pages.now address }
{
    let decoded = decode_at(pages, address);
    if let Decoded::Instr(instr) = &decoded {
        know(pages, known, instr);
    }
    decoded
}

/// What stands at an address, by what is known where it is known.
pub(crate) fn there(pages: &Pages, known: &mut [Option<Instr>], address: u32) -> Decoded
    requires known { AreFound pages.now known.old }
    ensures known { AreFound pages.now known.new }
    ensures found { found_of result ≡ found pages.now address }
{
    if let Some(Some(instr)) = known.get(place_of(address)) {
        if instr.at == address {
            return Decoded::Instr(*instr);
        }
    }
    decoded_at(pages, known, address)
}
