// What holds of translations.
ghost use Rattle.translate.specs.Compiled.{AreAlwaysReady, AreMappedAlike, ArePages, HaveLikePoints, IsFunction};

use image_meaning::laws::page_table_has_bytes;
use vax_form::Pages;

/// An image and its starts have one translation alone.
pub fn translation_law()
    ensures { IsFunction }
{}

/// An image and its starts have the same mapped instructions for every target, and so the same codes along runs.
pub fn targets_law()
    ensures { AreMappedAlike }
{}

/// Nor do the points of a translation depend on the target, but for the words at which they stand.
pub fn points_law()
    ensures { HaveLikePoints }
{}

/// What `block` of program_codegen asks of sources and rules holds of every operation, and of the codes along every run of
/// translated instructions.
pub fn ready_law()
    ensures { AreAlwaysReady }
{}

/// The page table of an image is one, and its code has bytes.
pub(crate) fn pages_law(pages: &Pages)
    ensures { ArePages pages.now }
{
    let _ranges = &pages.ranges;
    page_table_has_bytes(pages);
}
