// What a block is made for, and the points of its words.
ghost use Rattle.std.specs.Prelude.{◌≡◌};
ghost use Rattle.program_codegen.specs.Words.{point_of, probing, raising, trapping};

use exception_records::{Point, Rules};
use micro_ops::CodeSources;

/// The vector of the reserved operand fault.
pub(crate) const RESERVED_OPERAND: u8 = 0x18;
/// The vector of the breakpoint fault.
pub(crate) const BREAKPOINT: u8 = 0x2C;

/// The address of an instruction and the one behind it, where its codes come from, their rules before and behind it, and
/// whether the processor has the byte-word extension.
#[derive(Clone, Copy)]
pub(crate) struct Site {
    pub(crate) at: u32,
    pub(crate) after: u32,
    pub(crate) sources: CodeSources,
    pub(crate) before: Rules,
    pub(crate) behind: Rules,
    pub(crate) byte_word: bool,
}

/// The point of a word at which the instruction is not done.
pub(crate) fn point_of(site: Site) -> Point
    ensures { result ≡ point_of site }
{
    Point {
        vax_pc: site.at,
        done: 0,
        count: 0,
        write: false,
        raises: 0,
        rules: site.before,
    }
}

pub(crate) fn probing(site: Site, count: u8, write: bool) -> Point
    ensures { result ≡ probing site count write }
{
    Point {
        count,
        write,
        ..point_of(site)
    }
}

/// The point of a fault.
pub(crate) fn raising(site: Site, vector: u8) -> Point
    ensures { result ≡ raising site vector }
{
    Point {
        raises: vector,
        ..point_of(site)
    }
}

/// The point of a trap.
pub(crate) fn trapping(site: Site) -> Point
    ensures { result ≡ trapping site }
{
    Point {
        done: 1,
        rules: site.behind,
        ..point_of(site)
    }
}
