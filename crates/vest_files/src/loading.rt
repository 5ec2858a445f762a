//! The image of a file with its translation.
ghost use Rattle.std.specs.Prelude.{◌≡◌, IfOk, IfErr, []};
ghost use Rattle.block_law.specs.Translations.{Meets};
ghost use Rattle.image_file.specs.Whole.{IsWhole};
ghost use Rattle.image_meaning.specs.Meant.{image_meaning};
ghost use Rattle.image_meaning.specs.Permits.{permit_of};
ghost use Rattle.vest_stops.specs.Decided.{Decision, IsDecided};
ghost use Rattle.translated_file.specs.Reading.{parts_of};
ghost use Rattle.vest_files.specs.Loading.{DecidesLoad, IsLoaded, IsOfImage, IsOfTranslated, Loads, hints_in, hints_of};
ghost use Rattle.vest_files.specs.Loading.{StopsAtBytes, StopsAtImageFile, StopsAtLoad, StopsAtTranslatedFile};
ghost use Rattle.vest_stops.specs.Files.{SameFiles};

use crate::stages::{check_tail, image_of, parts_of, read_file, translated};
use crate::versions::target_of;
use image_file::Image;
use std::alloc::Global;
use system_model::Translation;
use translate::Target;
use vest_stops::Stop;
use vt_outside::Desk;

/// The first bytes of a translated file.
const MAGIC: &[u8; 4] = b"VXTR";

/// An image, and the translation of it for the processors of a target, with these hints.
#[derive(Drop)]
pub struct Loaded {
    pub image: Image,
    pub target: Target,
    pub translation: Translation,
    /// Those of a translated file; a VAX image has none.
    pub hints: Vec<u32>,
}

// Of the bytes of a VAX image, as far as it shows itself what can be reached.
fn of_image(alloc: Global, bytes: &[u8], target: Target) -> Result<Loaded, Stop>
    ensures ok { IfOk result (λ loaded. IsOfImage bytes.now loaded.image loaded.target loaded.translation) }
    ensures target { IfOk result (λ loaded. loaded.target ≡ target) }
    ensures hints { IfOk result (λ loaded. loaded.hints.items ≡ []) }
    ensures whole { IfOk result (λ loaded. IsWhole loaded.image) }
    ensures meets { IfOk result (λ loaded. Meets (image_meaning loaded.image.pages) (permit_of loaded.target loaded.image.pages) loaded.translation) }
    ensures err { IfErr result (λ stop. StopsAtImageFile stop bytes.now) }
{
    let image = image_of(alloc, bytes)?;
    let translation = translated(alloc, &image, &[], target)?;
    Ok(Loaded {
        image,
        target,
        translation,
        hints: Vec::new(alloc),
    })
}

// Of a translated file, which has to be the translation of its own image and hints for its version's target.
fn of_translated(alloc: Global, bytes: &[u8]) -> Result<Loaded, Stop>
    ensures ok { IfOk result (λ loaded. IsOfTranslated bytes.now loaded.image loaded.target loaded.translation) }
    ensures hints { IfOk result (λ loaded. loaded.hints.items ≡ hints_of (parts_of bytes.now)) }
    ensures whole { IfOk result (λ loaded. IsWhole loaded.image) }
    ensures meets { IfOk result (λ loaded. Meets (image_meaning loaded.image.pages) (permit_of loaded.target loaded.image.pages) loaded.translation) }
    ensures err { IfErr result (λ stop. StopsAtTranslatedFile stop bytes.now) }
{
    let parts = parts_of(alloc, bytes)?;
    let target = target_of(parts.version);
    let translation = translated(alloc, &parts.image, &parts.hints, target)?;
    check_tail(&parts, &translation)?;
    Ok(Loaded {
        image: parts.image,
        target,
        translation,
        hints: parts.hints,
    })
}

/// The image that bytes mean, with its translation. Bytes that begin with `VXTR` are a translated file, whose version tells
/// its target, and all others a VAX image, which is translated for the target that is asked for.
pub fn of_bytes(alloc: Global, bytes: &[u8], asked: Target) -> Result<Loaded, Stop>
    ensures ok { IfOk result (λ loaded. IsLoaded asked bytes.now loaded.image loaded.target loaded.translation) }
    ensures hints { IfOk result (λ loaded. loaded.hints.items ≡ hints_in bytes.now) }
    ensures whole { IfOk result (λ loaded. IsWhole loaded.image) }
    ensures meets { IfOk result (λ loaded. Meets (image_meaning loaded.image.pages) (permit_of loaded.target loaded.image.pages) loaded.translation) }
    ensures err { IfErr result (λ stop. StopsAtBytes stop bytes.now) }
{
    if bytes.starts_with(MAGIC) {
        of_translated(alloc, bytes)
    } else {
        of_image(alloc, bytes, asked)
    }
}

/// The image of a file with its translation.
pub fn load<D: Desk>(alloc: Global, desk: &mut D, name: &str, asked: Target) -> Result<Loaded, Stop>
    ensures does { IfOk result (λ loaded. Loads asked (D.meaning desk.old).files name.now loaded.image loaded.target loaded.translation) }
    ensures whole { IfOk result (λ loaded. IsWhole loaded.image) }
    ensures meets { IfOk result (λ loaded. Meets (image_meaning loaded.image.pages) (permit_of loaded.target loaded.image.pages) loaded.translation) }
    ensures why { IfErr result (λ stop. StopsAtLoad stop name.now (D.meaning desk.old) (D.meaning desk.new)) }
    ensures stays { SameFiles (D.meaning desk.old) (D.meaning desk.new) }
    ensures decided { (decision : Decision) → DecidesLoad (D.meaning desk.old).files name.now decision → IsDecided result decision }
{
    let bytes = read_file(alloc, desk, name)?;
    of_bytes(alloc, &bytes, asked)
}
