// A translation of nothing, so that all is interpreted.
ghost use Rattle.std.specs.Prelude.{IfOk};
ghost use Rattle.block_law.specs.Translations.{Meets};
ghost use Rattle.image_meaning.specs.Meant.{image_meaning};
ghost use Rattle.image_meaning.specs.Permits.{any_permit};

use anyhow::Result;
use image_file::Image;
use std::alloc::{AllocError, Global};
use system_model::Translation;

/// A translation of no instruction meets the judgement for each image.
#[tactic(auto, using(block_law::proofs::Empty::empty_meets))]
pub fn nothing_translated(alloc: Global, image: &Image) -> Result<Translation>
    ensures { IfOk result (Meets (image_meaning image.now.pages) (any_permit image.now.pages)) }
{
    let _ = image;
    Ok(Translation::empty(alloc).map_err(|_| AllocError)?)
}
