//! The command `list`.
ghost use Rattle.std.specs.Prelude.{◌≡◌, IfOk, IfErr};
ghost use Rattle.report_text.specs.Listing.{AreWithin, listing_text};
ghost use Rattle.vest_stops.specs.Decided.{Decision, IsDecided};
ghost use Rattle.vest_files.specs.List.{Lists, Sends};
ghost use Rattle.vest_files.specs.Loading.{DecidesLoad, StopsAtLoad};
ghost use Rattle.vest_stops.specs.Files.{SameFiles};

use crate::loading::load;
use report_text::listing;
use std::alloc::Global;
use system_model::Translation;
use translate::Target;
use vax_form::WantOfMemory;
use vest_stops::{Done, Stop};
use vt_outside::{Desk, Sink, write_all};

/// Writes the listing of a file's translation: of a VAX image for the first Alpha processors, or of a translated file.
pub fn list_file<D: Desk, K: Sink>(
    alloc: Global,
    name: &str,
    desk: &mut D,
    out: &mut K,
) -> Result<Done, Stop>
    ensures does { IfOk result (λ done. Lists done name.now (D.meaning desk.old) (K.meaning out.old) (K.meaning out.new)) }
    ensures why { IfErr result (λ stop. StopsAtLoad stop name.now (D.meaning desk.old) (D.meaning desk.new)) }
    ensures stays { SameFiles (D.meaning desk.old) (D.meaning desk.new) }
    ensures unsent { IfErr result (λ _. K.meaning out.new ≡ K.meaning out.old) }
    ensures decided { (decision : Decision) → DecidesLoad (D.meaning desk.old).files name.now decision → IsDecided result decision }
{
    let loaded = load(alloc, desk, name, Target::Original)?;
    let text = listing_of(alloc, &loaded.translation)?;
    Ok(send(out, &text))
}

fn listing_of(alloc: Global, translation: &Translation) -> Result<Vec<u8>, WantOfMemory>
    requires { AreWithin translation.now.words translation.now.map }
    ensures { IfOk result (λ text. text.items ≡ listing_text translation.now.words translation.now.map) }
{
    listing(alloc, &translation.words, &translation.map)
}

fn send<K: Sink>(out: &mut K, text: &[u8]) -> Done
    ensures { Sends result text.now (K.meaning out.old) (K.meaning out.new) }
{
    match write_all(out, text) {
        Ok(()) => Done::Ok,
        Err(_) => Done::WriteFault,
    }
}
