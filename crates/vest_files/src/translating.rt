//! The command `translate`.
ghost use Rattle.std.specs.Prelude.{◌≡◌, IfOk, IfErr, option_map};
ghost use Rattle.image_file.specs.Whole.{IsWhole};
ghost use Rattle.translated_file.specs.Spelling.{spelling};
ghost use Rattle.translated_file.specs.Whole.{AreHints};
ghost use Rattle.vest_stops.specs.Decided.{Decision, IsDecided};
ghost use Rattle.translate.specs.Translated.{IsTranslated};
ghost use Rattle.vest_stops.specs.Files.{SameFiles};
ghost use Rattle.vest_files.specs.Versions.{version_of};
ghost use Rattle.vest_files.specs.Translate.{DecidesTranslate, IsHinted, IsTranslatedFile, StopsAtHinted, StopsAtTranslating, StopsTranslate, Translates, Writes};

use crate::stages::{hints_of, image_of, read_file, translated};
use crate::versions::version_of;
use image_file::Image;
use std::alloc::Global;
use system_model::Translation;
use translate::Target;
use translated_file::write_translated;
use vax_form::WantOfMemory;
use vest_stops::{Done, Stop};
use vt_outside::{Desk, DeskWrite};

/// Writes the translated file of a VAX image for the processors of a target, with the hints of a file where one is named. It reads every
/// image file as a VAX image, and reads before it writes.
pub fn translate_file<D: Desk>(
    alloc: Global,
    name: &str,
    hinted: Option<&str>,
    out: &str,
    target: Target,
    desk: &mut D,
) -> Result<Done, Stop>
    ensures does { IfOk result (λ done. Translates target done name.now out.now (option_map (λ s. s.now) hinted.entry) (D.meaning desk.old) (D.meaning desk.new)) }
    ensures why { IfErr result (λ stop. StopsTranslate stop name.now (option_map (λ s. s.now) hinted.entry) (D.meaning desk.old) (D.meaning desk.new)) }
    ensures stays { IfErr result (λ _. SameFiles (D.meaning desk.old) (D.meaning desk.new)) }
    ensures decided { (decision : Decision) → DecidesTranslate (D.meaning desk.old).files name.now (option_map (λ s. s.now) hinted.entry) decision → IsDecided result decision }
{
    let bytes = read_file(alloc, desk, name)?;
    let file = file_of(alloc, &bytes, hinted, target, desk)?;
    Ok(write_file(desk, out, &file))
}

// The bytes of the translated file of the image that bytes mean.
fn file_of<D: Desk>(
    alloc: Global,
    bytes: &[u8],
    hinted: Option<&str>,
    target: Target,
    desk: &mut D,
) -> Result<Vec<u8>, Stop>
    ensures ok { IfOk result (λ file. IsTranslatedFile target bytes.now (option_map (λ s. s.now) hinted.entry) (D.meaning desk.old).files file.items) }
    ensures err { IfErr result (λ stop. StopsAtTranslating stop bytes.now (option_map (λ s. s.now) hinted.entry) (D.meaning desk.old) (D.meaning desk.new)) }
    ensures stays { SameFiles (D.meaning desk.old) (D.meaning desk.new) }
{
    let image = image_of(alloc, bytes)?;
    let hints = hinted_by(alloc, desk, hinted)?;
    let translation = translated(alloc, &image, &hints, target)?;
    Ok(spelled(alloc, &image, &hints, &translation, target)?)
}

// The hints of a file, and none where no file is named.
fn hinted_by<D: Desk>(alloc: Global, desk: &mut D, hinted: Option<&str>) -> Result<Vec<u32>, Stop>
    ensures ok { IfOk result (λ hints. IsHinted (D.meaning desk.old).files (option_map (λ s. s.now) hinted.entry) hints.items) }
    ensures are { IfOk result (λ hints. AreHints hints.items) }
    ensures err { IfErr result (λ stop. StopsAtHinted stop (option_map (λ s. s.now) hinted.entry) (D.meaning desk.old) (D.meaning desk.new)) }
    ensures stays { SameFiles (D.meaning desk.old) (D.meaning desk.new) }
{
    match hinted {
        Some(name) => {
            let bytes = read_file(alloc, desk, name)?;
            hints_of(alloc, &bytes)
        }
        None => Ok(Vec::new(alloc)),
    }
}

// The bytes of the translated file.
fn spelled(
    alloc: Global,
    image: &Image,
    hints: &[u32],
    translation: &Translation,
    target: Target,
) -> Result<Vec<u8>, WantOfMemory>
    requires whole { IsWhole image.now }
    requires hints { AreHints hints.now }
    requires translated { IsTranslated target image.now hints.now translation.now }
    ensures { IfOk result (λ file. file.items ≡ spelling (version_of target) image.now hints.now translation.now.words translation.now.map) }
{
    let version = version_of(target);
    write_translated(
        alloc,
        image,
        hints,
        &translation.words,
        &translation.map,
        version,
    )
}

fn write_file<D: Desk>(desk: &mut D, name: &str, bytes: &[u8]) -> Done
    ensures { Writes result name.now bytes.now (D.meaning desk.old) (D.meaning desk.new) }
{
    match desk.write(name, bytes) {
        DeskWrite::Done => Done::Ok,
        DeskWrite::Failed => Done::WriteFault,
    }
}
