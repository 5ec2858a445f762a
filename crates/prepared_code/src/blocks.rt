// What is known of the blocks of a code.
ghost use Rattle.std.specs.Prelude.{◌≡◌, map, option_map, IfOk};
ghost use Rattle.exception_records.specs.Points.{point_at};
ghost use Rattle.exception_records.specs.declared.points.Point.{Point};
ghost use Rattle.prepared_code.specs.Sources.{block_by, block_of};

use exact_lists::list_of;
use exception_records::{Points, Rules};
use std::alloc::Global;
use vax_form::{Pages, WantOfMemory};

/// A block by the word at which it begins.
#[derive(Clone, Copy, Debug, PartialEq, Eq)]
pub struct Block {
    /// The address of its instruction.
    pub address: u32,
    /// The byte there; None where the address isn't in a read-only page.
    pub opcode: Option<u8>,
    /// Those of the word's point; None where the word has none.
    pub rules: Option<Rules>,
}

fn rules_at(points: &Points, word: u32) -> Option<Rules>
    ensures { result ≡ option_map (λ (p : Point). p.rules) (point_at points.now word) }
{
    match points.find(word) {
        Some(point) => Some(point.rules),
        None => None,
    }
}

pub(crate) fn block_by(points: &Points, pages: &Pages, address: u32, word: u32) -> Block
    ensures { result ≡ block_by points.now pages.now address word }
{
    Block {
        address,
        opcode: pages.code_byte(address),
        rules: rules_at(points, word),
    }
}

/// The blocks of a map's pairs.
pub(crate) fn blocks_of(
    alloc: Global,
    pairs: &[(u32, u32)],
    points: &Points,
    pages: &Pages,
) -> Result<Vec<Block>, WantOfMemory>
    ensures { IfOk result (λ v. v.items ≡ map (block_of points.now pages.now) pairs.now) }
{
    list_of(
        alloc,
        pairs.len(),
        pairs
            .iter()
            .map(|pair| block_by(points, pages, pair.0, pair.1)),
    )
}
