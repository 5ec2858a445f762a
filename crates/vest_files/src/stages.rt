//! The stages of a file: its bytes, what they mean, the translation of an image, and a file's tail beside it.
ghost use Rattle.std.specs.Prelude.{◌≡◌, IfOk, IfErr, OnOk, Ok};
ghost use Rattle.translated_file.specs.Comparing.{compared};
ghost use Rattle.translated_file.specs.Whole.{AreWhole};
ghost use Rattle.vest_files.specs.Limits as stated;
ghost use Rattle.vest_files.specs.Stages.{HasHints, HasParts, IsFile, IsImage};
ghost use Rattle.translate.specs.Translated.{IsTranslated};
ghost use Rattle.vest_stops.specs.Files.{SameFiles};
ghost use Rattle.vest_files.specs.Versions.{target_of};
ghost use Rattle.vest_files.specs.Stages.{StopsAtFile, StopsAtHints, StopsAtImage, StopsAtParts, StopsAtTail, StopsAtTranslation};

use image_file::{Image, ImageRefusal, read_image};
use report_text::Subject;
use run_files::{HintRefusal, read_hints};
use std::alloc::Global;
use system_model::Translation;
use translate::{Target, TranslateRefusal, translate};
use translated_file::{Parts, TranslatedRefusal, compare, read_parts};
use vest_stops::{Refusal, Stop};
use vt_outside::{Desk, DeskRead};

/// The most bytes of a file.
pub const FILE_LIMIT: usize = 50_331_648;

/// The limit is the one that the definitions state in figures.
pub fn file_limit_is_as_stated()
    ensures { FILE_LIMIT ≡ stated.FILE_LIMIT }
{}

/// The bytes of a file.
pub fn read_file<D: Desk>(alloc: Global, desk: &mut D, name: &str) -> Result<Vec<u8>, Stop>
    ensures ok { IfOk result (λ bytes. IsFile (D.meaning desk.old).files name.now bytes.items) }
    ensures err { IfErr result (λ stop. StopsAtFile stop name.now (D.meaning desk.old) (D.meaning desk.new)) }
    ensures stays { SameFiles (D.meaning desk.old) (D.meaning desk.new) }
{
    match desk.read(alloc, name, FILE_LIMIT) {
        DeskRead::Bytes(bytes) => Ok(bytes),
        DeskRead::Absent => Err(Stop::Absent),
        DeskRead::TooLong => Err(Stop::TooLong),
        DeskRead::Failed => Err(Stop::ReadFault),
        DeskRead::WantOfMemory => Err(Stop::WantOfMemory),
    }
}

/// The image that the bytes mean.
pub fn image_of(alloc: Global, bytes: &[u8]) -> Result<Image, Stop>
    ensures ok { IfOk result (IsImage bytes.now) }
    ensures err { IfErr result (λ stop. StopsAtImage stop bytes.now) }
{
    match read_image(alloc, bytes) {
        Ok(image) => Ok(image),
        Err(ImageRefusal::WantOfMemory) => Err(Stop::WantOfMemory),
        Err(cause) => Err(Stop::Refused(Refusal::new(Subject::Image, cause.numbers().as_slice()))),
    }
}

/// The parts of a translated file that the bytes mean.
pub fn parts_of(alloc: Global, bytes: &[u8]) -> Result<Parts, Stop>
    ensures ok { IfOk result (HasParts bytes.now) }
    ensures err { IfErr result (λ stop. StopsAtParts stop bytes.now) }
{
    match read_parts(alloc, bytes) {
        Ok(parts) => Ok(parts),
        Err(TranslatedRefusal::WantOfMemory) => Err(Stop::WantOfMemory),
        Err(cause) => Err(Stop::Refused(Refusal::new(
            Subject::Translated,
            cause.numbers().as_slice(),
        ))),
    }
}

/// The addresses of the hint file that the bytes mean.
pub fn hints_of(alloc: Global, bytes: &[u8]) -> Result<Vec<u32>, Stop>
    ensures ok { IfOk result (λ hints. HasHints bytes.now hints.items) }
    ensures err { IfErr result (λ stop. StopsAtHints stop bytes.now) }
{
    match read_hints(alloc, bytes) {
        Ok(hints) => Ok(hints),
        Err(HintRefusal::WantOfMemory) => Err(Stop::WantOfMemory),
        Err(cause) => Err(Stop::Refused(Refusal::new(Subject::Hints, cause.numbers().as_slice()))),
    }
}

/// The translation of an image, as far as its threads, its entries and these hints show what can be reached.
pub fn translated(
    alloc: Global,
    image: &Image,
    hints: &[u32],
    target: Target,
) -> Result<Translation, Stop>
    ensures ok { IfOk result (IsTranslated target image.now hints.now) }
    ensures err { IfErr result (λ stop. StopsAtTranslation stop image.now hints.now) }
{
    match translate(alloc, image, hints, target) {
        Ok(translation) => Ok(translation),
        Err(TranslateRefusal::WantOfMemory) => Err(Stop::WantOfMemory),
        Err(cause) => Err(Stop::Refused(Refusal::new(Subject::Flow, cause.numbers().as_slice()))),
    }
}

/// Compares the tail of a translated file with the translation of its image and hints.
pub fn check_tail(parts: &Parts, translation: &Translation) -> Result<(), Stop>
    requires whole { AreWhole parts.now }
    requires translated { IsTranslated (target_of parts.now.version) parts.now.image parts.now.hints translation.now }
    ensures ok { OnOk result (compared parts.now translation.now.words translation.now.map ≡ Ok tt) }
    ensures err { IfErr result (λ stop. StopsAtTail stop parts.now translation.now) }
{
    match compare(parts, &translation.words, &translation.map) {
        Ok(()) => Ok(()),
        Err(cause) => Err(Stop::Refused(Refusal::new(
            Subject::Translated,
            cause.numbers().as_slice(),
        ))),
    }
}
