//! Lists in which a number rises: what is found by it, and of how many numbers something is told at one look.
#![tactic(auto)]

ghost use Rattle.std.specs.Prelude.{◌≡◌};
ghost use Rattle.rising_lists.specs.Told.{numbers_told};

/// Of the most numbers something is told at one look: of as many as a translation has words.
const MOST_TOLD: usize = 1 << 23;

/// Of how many numbers, from 0 on, something is told at one look, where the last of a list is that; 0 where it has none.
pub fn numbers_told(last: Option<u32>) -> usize
    ensures { result ≡ numbers_told last }
{
    match last {
        None => 0,
        Some(number) => MOST_TOLD.min(number as usize + 1),
    }
}
