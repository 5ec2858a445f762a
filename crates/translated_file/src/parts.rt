//! The parts of a translated file.
use image_file::Image;
use std::marker::Model;

/// What a translated file has: its version, its VAX image, addresses of code beside those of the image, and the bytes of
/// its tail, which are to be compared with a translation.
#[derive(Debug, Drop)]
pub struct Parts {
    pub version: u32,
    pub image: Image,
    pub hints: Vec<u32>,
    pub tail: Vec<u8>,
}

impl Model for Parts {
    ghost use Rattle.translated_file.specs.Values.{PartsValue};

    ghost Value = { PartsValue };

    ghost view = { λ p. record { version = p.version; image = p.image; hints = p.hints.items; tail = p.tail.items } };
}
