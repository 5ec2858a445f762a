// The command `replay`.
ghost use Rattle.std.specs.Prelude.{◌≡◌, IfOk, IfErr, Ok, length, option_map};
ghost use Rattle.image_file.specs.Whole.{IsWhole};
ghost use Rattle.run_files.specs.Fits.{Fits};
ghost use Rattle.run_files.specs.Reading.{order_of};
ghost use Rattle.stored_runs.specs.Found.{AreFound};
ghost use Rattle.stored_runs.specs.Replay.{replay_of};
ghost use Rattle.vest_stops.specs.Files.{SameFiles};
ghost use Rattle.vest_stops.specs.declared.stop.Stop.TheVariants.{WantOfMemory};
ghost use Rattle.vest_files.specs.Stages.{StopsWhere};
ghost use Rattle.vest_runs.specs.Delivery.{Delivers};
ghost use Rattle.vest_cli.specs.Hints.{HasHints};
ghost use Rattle.vest_cli.specs.Replay.{HasOrder, IsMade, IsOutgoing, RefusesGiven, RefusesOrder, Replays, StopsAtOrderFile, StopsReplay, done_of, stop_of};

use crate::hinting::{HintFile, hint_file, store_hints};
use address_map::AddressMap;
use image_file::Image;
use report_text::Subject;
use run_files::{OrderFile, OrderRefusal, read_order};
use std::alloc::Global;
use stored_runs::{Finding, ReplayRefusal, Replayed, done_of, found, replay_report, replayed};
use translate::Target;
use vest_files::{Loaded, load, read_file};
use vest_stops::{Done, Refusal, Stop};
use vt_outside::{Desk, Sink, write_all};

// The order of so many threads that the bytes are.
fn order_of(alloc: Global, bytes: &[u8], threads: u8) -> Result<OrderFile, Stop>
    ensures ok { IfOk result (λ order. order_of threads bytes.now ≡ Ok order) }
    ensures fits { IfOk result (λ order. Fits threads order) }
    ensures err { IfErr result (λ stop. StopsWhere (RefusesOrder threads bytes.now) stop) }
{
    match read_order(alloc, bytes, threads) {
        Ok(order) => Ok(order),
        Err(OrderRefusal::WantOfMemory) => Err(Stop::WantOfMemory),
        Err(cause) => Err(Stop::Refused(Refusal::new(Subject::Order, cause.numbers().as_slice()))),
    }
}

// Why the call stops where an order gives nothing.
fn stop_of(cause: ReplayRefusal) -> Stop
    ensures { result ≡ stop_of cause }
{
    match cause {
        ReplayRefusal::WantOfMemory => Stop::WantOfMemory,
        _ => Stop::Refused(Refusal::new(Subject::Order, cause.numbers().as_slice())),
    }
}

// The order of a file, for so many threads.
fn order_in<D: Desk>(
    alloc: Global,
    threads: u8,
    file: &str,
    desk: &mut D,
) -> Result<OrderFile, Stop>
    ensures ok { IfOk result (HasOrder threads (D.meaning desk.old).files file.now) }
    ensures fits { IfOk result (λ order. Fits threads order) }
    ensures why { IfErr result (λ stop. StopsAtOrderFile stop threads file.now (D.meaning desk.old) (D.meaning desk.new)) }
    ensures stays { SameFiles (D.meaning desk.old) (D.meaning desk.new) }
{
    let bytes = read_file(alloc, desk, file)?;
    order_of(alloc, &bytes, threads)
}

// What it gives of the image.
fn given_by(alloc: Global, image: &Image, order: &OrderFile) -> Result<Replayed, Stop>
    requires whole { IsWhole image.now }
    requires fits { Fits (length image.now.threads) order.now }
    ensures ok { IfOk result (λ given. replay_of image.now order.now ≡ Ok given) }
    ensures err { IfErr result (λ stop. StopsWhere (RefusesGiven image.now order.now) stop) }
{
    match replayed(alloc, image, order) {
        Ok(given) => Ok(given),
        Err(cause) => Err(stop_of(cause)),
    }
}

// The same, and the addresses that it finds of the image and that a map lacks.
fn found_by(
    alloc: Global,
    image: &Image,
    order: &OrderFile,
    map: &AddressMap,
) -> Result<Finding, Stop>
    requires whole { IsWhole image.now }
    requires fits { Fits (length image.now.threads) order.now }
    ensures ok { IfOk result (λ finding. replay_of image.now order.now ≡ Ok finding.replayed) }
    ensures found { IfOk result (λ finding. AreFound image.now order.now map.now finding.addresses.items) }
    ensures err { IfErr result (λ stop. StopsWhere (RefusesGiven image.now order.now) stop) }
{
    match found(alloc, image, order, map) {
        Ok(finding) => Ok(finding),
        Err(cause) => Err(stop_of(cause)),
    }
}

// What it gives of an image, with the file of what it finds and the image's translation lacks, where one is named for that.
fn driven(
    alloc: Global,
    loaded: &Loaded,
    order: &OrderFile,
    hints: Option<&str>,
) -> Result<(Replayed, Option<HintFile>), Stop>
    requires whole { IsWhole loaded.now.image }
    requires fits { Fits (length loaded.now.image.threads) order.now }
    ensures ok { IfOk result (λ driven. replay_of loaded.now.image order.now ≡ Ok driven.0) }
    ensures hints { IfOk result (λ driven. HasHints loaded.now.image order.now loaded.now.translation.map (option_map (λ s. s.now) hints.entry) driven.1) }
    ensures err { IfErr result (λ stop. StopsWhere (RefusesGiven loaded.now.image order.now) stop) }
{
    let Loaded {
        image,
        translation,
        ..
    } = loaded;
    let Some(name) = hints else {
        return Ok((given_by(alloc, image, order)?, None));
    };
    let finding = found_by(alloc, image, order, &translation.map)?;
    let file = hint_file(alloc, name, &finding.addresses)?;
    Ok((finding.replayed, Some(file)))
}

// What goes out: what an order gives, with the lines of the ends, and the file for hints where one is named.
#[derive(Drop)]
struct Outgoing {
    given: Replayed,
    lines: Vec<u8>,
    hints: Option<HintFile>,
}

// What was given, with the lines of its ends.
fn with_lines(alloc: Global, given: Replayed, hints: Option<HintFile>) -> Result<Outgoing, Stop>
    ensures ok { IfOk result (IsOutgoing given hints) }
    ensures err { IfErr result (λ stop. stop ≡ WantOfMemory) }
{
    let lines = replay_report(alloc, &given)?;
    Ok(Outgoing {
        given,
        lines,
        hints,
    })
}

// What the order of the second file gives of the image of the first, and what it finds there.
fn made<D: Desk>(
    alloc: Global,
    name: &str,
    file: &str,
    hints: Option<&str>,
    desk: &mut D,
) -> Result<Outgoing, Stop>
    ensures ok { IfOk result (IsMade (D.meaning desk.old).files name.now file.now (option_map (λ s. s.now) hints.entry)) }
    ensures why { IfErr result (λ stop. StopsReplay stop name.now file.now (D.meaning desk.old) (D.meaning desk.new)) }
    ensures stays { SameFiles (D.meaning desk.old) (D.meaning desk.new) }
{
    let loaded = load(alloc, desk, name, Target::Original)?;
    let order = order_in(alloc, loaded.image.threads.len() as u8, file, desk)?;
    let (given, hints) = driven(alloc, &loaded, &order, hints)?;
    with_lines(alloc, given, hints)
}

// The output goes out, and then the lines.
fn send<K: Sink, E: Sink>(given: &Replayed, lines: &[u8], out: &mut K, report: &mut E) -> Done
    ensures { Delivers result given.now.output lines.now (done_of given.now.ends) (K.meaning out.old) (K.meaning out.new)
        (E.meaning report.old) (E.meaning report.new) }
{
    if write_all(out, &given.output).is_err() {
        return Done::WriteFault;
    }
    if write_all(report, lines).is_err() {
        return Done::WriteFault;
    }
    done_of(&given.ends)
}

/// Drives the threads of a file's image by the order of another file, without a translation: all is read and made before the first byte
/// goes out. Behind output and report, where these went out, the hints go into their file, where one is named: the addresses that were
/// interpreted for want of a translation, by the map of the image's file. It stops at the first file, at its translation, at the second
/// file, at its order, or for want of memory: then the sinks and the files are as they were.
pub(crate) fn replay<D: Desk, K: Sink, E: Sink>(
    alloc: Global,
    name: &str,
    file: &str,
    hints: Option<&str>,
    desk: &mut D,
    out: &mut K,
    report: &mut E,
) -> Result<Done, Stop>
    ensures does { IfOk result (λ done. Replays done name.now file.now (option_map (λ s. s.now) hints.entry) (D.meaning desk.old) (D.meaning desk.new) (K.meaning out.old) (K.meaning out.new) (E.meaning report.old) (E.meaning report.new)) }
    ensures why { IfErr result (λ stop. StopsReplay stop name.now file.now (D.meaning desk.old) (D.meaning desk.new)) }
    ensures stays { IfErr result (λ _. SameFiles (D.meaning desk.old) (D.meaning desk.new)) }
    ensures unsent { IfErr result (λ _. K.meaning out.new ≡ K.meaning out.old) }
    ensures unsaid { IfErr result (λ _. E.meaning report.new ≡ E.meaning report.old) }
{
    let outgoing = made(alloc, name, file, hints, desk)?;
    let sent = send(&outgoing.given, &outgoing.lines, out, report);
    Ok(store_hints(sent, outgoing.hints, desk))
}
