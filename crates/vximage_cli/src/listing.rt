// The command `dis`.
ghost use Rattle.std.specs.Prelude.{◌≡◌, IfErr, IfOk, Some, map, option_map};
ghost use Rattle.dis_text.specs.Made.{name_value};
ghost use Rattle.image_meaning.specs.declared.target.Target.TheVariants.{Original};
ghost use Rattle.vest_files.specs.Loading.{IsLoaded, StopsAtBytes, hints_in};
ghost use Rattle.vest_stops.specs.Files.{SameFiles};
ghost use Rattle.vest_stops.specs.declared.stop.Stop.TheVariants.{WantOfMemory as NoMemory};
ghost use Rattle.vximage_words.specs.Commands.{listing_wanted};
ghost use Rattle.vximage_cli.specs.Listing.{AreNamed, IsListing, Lists, RefusesNames, StopsListing};
ghost use Rattle.vximage_cli.specs.Making.{StopsAtOptional};
ghost use Rattle.vximage_cli.specs.Named.{StopsAs};

use crate::entries::ListFault;
use crate::halt::{Fault, Halt, read_named};
use crate::names::names_listed;
use crate::showing::{reached, send};
use dis_text::{Code, Name, Range, listing_text};
use std::alloc::Global;
use translate::Target;
use vest_files::{Loaded, of_bytes};
use vest_stops::{Done, Stop};
use vt_outside::{Desk, Sink};
use vximage_words::ListingAsked;

// The listing of a file's bytes, by what they mean.
fn listed(
    alloc: Global,
    bytes: &[u8],
    loaded: &Loaded,
    names: &[Name],
    asked: &ListingAsked<'_>,
) -> Result<Vec<u8>, Stop>
    requires loaded { IsLoaded Original bytes.now loaded.now.image loaded.now.target loaded.now.translation }
    requires hints { loaded.now.hints.items ≡ hints_in bytes.now }
    ensures ok { IfOk result (λ text. IsListing text.items bytes.now (map name_value names.now) (listing_wanted asked.now)) }
    ensures err { IfErr result (λ stop. stop ≡ NoMemory) }
{
    let Loaded {
        image,
        translation,
        hints,
        ..
    } = loaded;
    let instrs = reached(alloc, image, hints)?;
    let code = Code {
        words: &translation.words,
        map: &translation.map,
        is_told: asked.with_words,
    };
    let range = Range {
        first: asked.first,
        last: asked.last,
    };
    Ok(listing_text(alloc, image, hints, names, &instrs, &code, range)?)
}

fn text_of(
    alloc: Global,
    bytes: &[u8],
    names: &[Name],
    asked: &ListingAsked<'_>,
) -> Result<Vec<u8>, Stop>
    ensures ok { IfOk result (λ text. IsListing text.items bytes.now (map name_value names.now) (listing_wanted asked.now)) }
    ensures err { IfErr result (λ stop. StopsAtBytes stop bytes.now) }
{
    let loaded = of_bytes(alloc, bytes, Target::Original)?;
    listed(alloc, bytes, &loaded, names, asked)
}

// The names of a file.
fn names_at<'a, D: Desk>(alloc: Global, name: &'a str, desk: &mut D) -> Result<Vec<Name>, Fault<'a>>
    ensures ok { IfOk result (λ names. AreNamed (D.meaning desk.old).files (Some name.entry.now) (map name_value names.items)) }
    ensures why { IfErr result (λ fault. StopsAs fault
        (λ stop named. StopsAtOptional stop named (Some name.entry.now) (D.meaning desk.old) (D.meaning desk.new))
        (λ line. RefusesNames (D.meaning desk.old).files (Some name.entry.now) line)) }
    ensures stays { SameFiles (D.meaning desk.old) (D.meaning desk.new) }
{
    let bytes = read_named(alloc, desk, name)?;
    match names_listed(alloc, &bytes) {
        Ok(names) => Ok(names),
        Err(ListFault::NoAddress { line }) => Err(Fault::BadName { line }),
        Err(ListFault::WantOfMemory) => Err(Fault::Halted(Halt {
            stop: Stop::WantOfMemory,
            name: Some(name),
        })),
    }
}

// The names of the file, where one is named.
fn names_in<'a, D: Desk>(
    alloc: Global,
    file: Option<&'a str>,
    desk: &mut D,
) -> Result<Vec<Name>, Fault<'a>>
    ensures ok { IfOk result (λ names. AreNamed (D.meaning desk.old).files (option_map (λ s. s.now) file.entry) (map name_value names.items)) }
    ensures why { IfErr result (λ fault. StopsAs fault
        (λ stop named. StopsAtOptional stop named (option_map (λ s. s.now) file.entry) (D.meaning desk.old) (D.meaning desk.new))
        (λ line. RefusesNames (D.meaning desk.old).files (option_map (λ s. s.now) file.entry) line)) }
    ensures stays { SameFiles (D.meaning desk.old) (D.meaning desk.new) }
{
    match file {
        Some(name) => names_at(alloc, name, desk),
        None => Ok(Vec::new(alloc)),
    }
}

/// Lists the code of a VAX image, translated for the first Alpha processors, or of a translated file.
pub fn list<'a, D: Desk, K: Sink>(
    alloc: Global,
    name: &'a str,
    asked: &ListingAsked<'a>,
    desk: &mut D,
    out: &mut K,
) -> Result<Done, Fault<'a>>
    ensures does { IfOk result (λ done. Lists done name.entry.now (listing_wanted asked.now) (D.meaning desk.old) (K.meaning out.old) (K.meaning out.new)) }
    ensures why { IfErr result (λ fault. StopsAs fault
        (λ stop named. StopsListing stop named name.entry.now (listing_wanted asked.now) (D.meaning desk.old) (D.meaning desk.new))
        (λ line. RefusesNames (D.meaning desk.old).files (listing_wanted asked.now).names line)) }
    ensures stays { SameFiles (D.meaning desk.old) (D.meaning desk.new) }
    ensures unsent { IfErr result (λ _. K.meaning out.new ≡ K.meaning out.old) }
{
    let bytes = read_named(alloc, desk, name)?;
    let names = names_in(alloc, asked.names, desk)?;
    let text = match text_of(alloc, &bytes, &names, asked) {
        Ok(text) => text,
        Err(stop) => return Err(Fault::Halted(Halt::from(stop))),
    };
    Ok(send(out, &text))
}
