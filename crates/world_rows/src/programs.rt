// What the threads of a world run.
ghost use Rattle.std.specs.Prelude.{◌≡◌, IfOk};
ghost use Rattle.block_law.specs.Translations.{Meets};
ghost use Rattle.image_meaning.specs.Meant.{image_meaning};
ghost use Rattle.image_meaning.specs.Permits.{any_permit};

use anyhow::{Result, bail};
use image_file::Image;
use prepared_code::Prepared;
use std::alloc::Global;
use system_model::{Range, Translation};
use translate::{Target, translate};
use vax_form::WantOfMemory;

/// The most steps of a processor, and the most entries of the history.
#[derive(Clone, Copy)]
pub struct Limits {
    pub budget: u64,
    pub entries: u32,
}

/// An image, its translation, the same made ready to be run, and the addresses that threads interpret; and by which number a
/// store of a processor fails, 0 for none.
#[derive(Clone, Copy)]
pub struct Program<'a> {
    pub image: &'a Image,
    pub translation: &'a Translation,
    pub prepared: &'a Prepared<'a>,
    pub ranges: &'a [Range],
    pub miss: u16,
}

/// The translation of an image for a target.
pub fn translated(alloc: Global, image: &Image, target: Target) -> Result<Translation>
    ensures { IfOk result (Meets (image_meaning image.now.pages) (any_permit image.now.pages)) }
{
    match translate(alloc, image, &[], target) {
        Ok(translation) => Ok(translation),
        Err(_) => bail!("no translation"),
    }
}

/// The translation made ready to be run.
pub fn made_ready<'a>(
    alloc: Global,
    image: &'a Image,
    translation: &'a Translation,
) -> Result<Prepared<'a>>
    requires { Meets (image_meaning image.now.pages) (any_permit image.now.pages) translation.now }
    ensures code { IfOk result (λ prepared. prepared.code ≡ translation.now) }
    ensures pages { IfOk result (λ prepared. prepared.pages ≡ image.now.pages) }
{
    match tie_switch::made_ready(alloc, image, translation) {
        Ok(prepared) => Ok(prepared),
        Err(WantOfMemory) => bail!("want of memory"),
    }
}
