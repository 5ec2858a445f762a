// What processors run.
use image_file::Image;
use prepared_code::Prepared;
use system_model::Translation;
use tie_switch::Range;

/// An image, its translation, the same made ready to be run, and the addresses that threads interpret.
#[derive(Clone, Copy)]
pub(crate) struct Program<'a> {
    pub image: &'a Image,
    pub translation: &'a Translation,
    pub prepared: &'a Prepared<'a>,
    pub ranges: &'a [Range],
}
