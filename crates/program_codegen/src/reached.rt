// References of programs whose operands are used where they stand.
ghost use Rattle.std.specs.Prelude.{◌≡◌, ◌≤◌, ◌++◌, IfOk, IfSome, MatchOption, OnOk, None, Some, map};
ghost use Rattle.vt_words.specs.Quad.{IsCount};
ghost use Rattle.byte_sequences.specs.Instructions.{IsArgument};
ghost use Rattle.program_codegen.specs.Homes.{AreHomes};
ghost use Rattle.program_codegen.specs.Direct.{stands, settled, is_extended, read_home, reading, may_write, reach};
ghost use Rattle.program_codegen.specs.Programs.{IsRanged, HasWords};
ghost use Rattle.program_codegen.specs.Words.{holder, plain, marked, copy, probing, write_by};

use crate::homes::{Homes, VALUES, home_of, is_shared, push_all_waiting, with_home};
use crate::lines::{Line, copy, holder, marked, plain, push_words};
use crate::operations::{PROBE, push_two, read_by, write_by};
use crate::points::{Site, probing};
use alpha_encode::AlphaInstr;
use alpha_encode::registers::ADDRESS;
use byte_sequences::extended_read_words;
use micro_ops::Micro;
use std::alloc::Global;
use vax_form::WantOfMemory;

/// The bytes of a longword.
const LONGWORD: u8 = 4;

/// The register that holds a temporary, or whose low longword it is.
fn stands(homes: Homes, temp: u8) -> u8
    requires homes { AreHomes homes }
    requires temp { temp ≤ 5 }
    ensures register { result ≡ stands homes temp }
    ensures fits { IsArgument (holder temp) → IsArgument result }
{
    home_of(homes, temp).unwrap_or(holder(temp))
}

fn settled(homes: Homes) -> Homes
    ensures { result ≡ settled homes }
{
    Homes {
        before: None,
        waiting: None,
        ..homes
    }
}

/// Whether what is read is a longword that is extended with its sign.
fn is_extended(to: u8, count: u8) -> bool
    ensures { result ≡ is_extended to count }
{
    count == LONGWORD && to < VALUES
}

fn read_home(to: u8, count: u8) -> Option<u8>
    requires { IsArgument (holder to) }
    ensures { result ≡ read_home to count }
{
    if is_extended(to, count) {
        Some(holder(to))
    } else {
        None
    }
}

fn reading(
    alloc: Global,
    byte_word: bool,
    homes: Homes,
    to: u8,
    place: u8,
    count: u8,
) -> Result<Vec<AlphaInstr>, WantOfMemory>
    requires homes { AreHomes homes }
    requires place { IsArgument (holder place) }
    requires to { IsArgument (holder to) }
    requires count { IsCount count }
    ensures { IfOk result (λ words. words.items ≡ reading byte_word homes to place count) }
{
    if is_extended(to, count) {
        extended_read_words(alloc, stands(homes, place), holder(to))
    } else {
        read_by(alloc, byte_word, stands(homes, place), count, holder(to))
    }
}

/// Whether what is written stands in its register, or is the low longword of one.
fn may_write(homes: Homes, count: u8, from: u8) -> bool
    ensures { result ≡ may_write homes count from }
{
    home_of(homes, from).is_none() || count == LONGWORD
}

/// The lines of a reference, behind the words that wait, and where the temporaries stand behind them; none where another
/// temporary stands in the register that is read into, or more than a longword is written of one.
pub(crate) fn reach(
    alloc: Global,
    site: Site,
    homes: Homes,
    operation: Micro,
    behind: &[Micro],
) -> Result<Option<(Homes, Vec<Line>)>, WantOfMemory>
    requires words { HasWords site.sources operation behind.now }
    requires homes { AreHomes homes }
    ensures step { IfOk result (λ step. MatchOption step (reach site homes operation ≡ None) (λ made. reach site homes operation ≡ Some (made.0, made.1.items))) }
    ensures are { IfOk result (λ step. IfSome step (λ made. AreHomes made.0)) }
{
    let mut lines = Vec::new(alloc);
    push_all_waiting(&mut lines, homes)?;
    match operation {
        Micro::Probe {
            place,
            count,
            write,
        } => {
            let address = plain(copy(stands(homes, place), ADDRESS));
            push_two(
                &mut lines,
                address,
                marked(PROBE, probing(site, count, write)),
            )?;
            Ok(Some((settled(homes), lines)))
        }
        Micro::Read { to, place, count } => {
            if is_shared(homes, to) {
                return Ok(None);
            }
            let words = reading(alloc, site.byte_word, homes, to, place, count)?;
            push_words(&mut lines, &words)?;
            Ok(Some((with_home(to, read_home(to, count), settled(homes)), lines)))
        }
        Micro::Write { place, count, from } => {
            if !may_write(homes, count, from) {
                return Ok(None);
            }
            let place = stands(homes, place);
            let from = stands(homes, from);
            let words = write_by(alloc, site.byte_word, place, count, from)?;
            push_words(&mut lines, &words)?;
            Ok(Some((settled(homes), lines)))
        }
        _ => Ok(None),
    }
}
