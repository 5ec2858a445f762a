// The words that stand in the code: entry masks of procedures, and tables of CASE.
ghost use Rattle.std.specs.Prelude.{◌≡◌};
ghost use Rattle.vax_long.specs.CodeWord.{code_word_at};

use vax_form::Pages;

/// The word at an address, where both of its bytes can be fetched.
pub fn code_word(pages: &Pages, address: u32) -> Option<u16>
    ensures { result ≡ code_word_at pages.now address }
{
    let low = pages.code_byte(address)?;
    let high = pages.code_byte(address.wrapping_add(1))?;
    Some(u16::from(low) + 256 * u16::from(high))
}
