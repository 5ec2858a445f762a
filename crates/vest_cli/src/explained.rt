// What a legal run of an image is, in which all threads have ended.
ghost use Rattle.image_file.specs.Whole.{IsWhole};
ghost use Rattle.block_law.specs.Translations.{Meets};
ghost use Rattle.image_meaning.specs.Meant.{image_meaning};
ghost use Rattle.image_meaning.specs.Permits.{permit_of};
ghost use Rattle.image_meaning.specs.declared.target.Target.{Target};
ghost use Rattle.vest_cli.specs.Made.{EndedIsRun};

use image_file::Image;
use image_meaning::laws::{page_table_has_bytes, permits, vax_meaning_is_sound};
use legal_history::laws::{images_are_runs, legal_has_headline};
use system_model::{Range, Translation};

/// It has the headline, by the accesses of code for any target whose permit the translation meets, and each thread that is spent is so
/// for a cause. It does nothing.
pub(crate) fn ended_is_run(image: &Image, input: &[u8], translation: &Translation, ranges: &[Range])
    requires whole { IsWhole image.now }
    ensures { (target : Target) → Meets (image_meaning image.now.pages) (permit_of target image.now.pages) translation.now
        → EndedIsRun image.now target input.now translation.now ranges.now }
{
    page_table_has_bytes(&image.pages);
    images_are_runs(image, input);
    vax_meaning_is_sound();
    permits();
    legal_has_headline();
}
