// Translations made ready to be run.
ghost use Rattle.std.specs.Prelude.{◌≡◌, ◌≤◌, IfOk, length};
ghost use Rattle.alpha_meaning.specs.Pieces.{most_words};

use image_file::Image;
use prepared_code::{Prepared, prepare};
use std::alloc::Global;
use system_model::Translation;
use vax_form::WantOfMemory;

/// A translation of an image made ready to be run.
pub fn made_ready<'a>(
    alloc: Global,
    image: &'a Image,
    translation: &'a Translation,
) -> Result<Prepared<'a>, WantOfMemory>
    requires few { length translation.now.words ≤ most_words }
    ensures code { IfOk result (λ prepared. prepared.code ≡ translation.now) }
    ensures pages { IfOk result (λ prepared. prepared.pages ≡ image.now.pages) }
{
    let Translation { words, map, points } = translation;
    prepare(alloc, words, map, points, &image.pages)
}
