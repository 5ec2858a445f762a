// The command `show`.
ghost use Rattle.std.specs.Prelude.{◌≡◌, ◌++◌, IfErr, IfOk, OnOk};
ghost use Rattle.flow_discovery.specs.Reach.{IsReach};
ghost use Rattle.flow_discovery.specs.Starts.{starts};
ghost use Rattle.image_file.specs.Whole.{IsWhole};
ghost use Rattle.translate.specs.Refusal.{AreFew};
ghost use Rattle.vest_files.specs.List.{Sends};
ghost use Rattle.vest_files.specs.Loading.{IsLoaded, StopsAtBytes, hints_in};
ghost use Rattle.vest_stops.specs.Files.{SameFiles};
ghost use Rattle.vest_stops.specs.declared.stop.Stop.TheVariants.{WantOfMemory as NoMemory};
ghost use Rattle.image_meaning.specs.declared.target.Target.TheVariants.{Original};
ghost use Rattle.vximage_cli.specs.Named.{name_told};
ghost use Rattle.vximage_cli.specs.Showing.{IsText, Shows, StopsShow, TellsOf, file_line, translated_line};

use crate::halt::{Halt, read_named};
use flow_discovery::{FlowRefusal, reach};
use image_file::Image;
use image_text::show_text;
use report_text::Line;
use std::alloc::{AllocError, Global};
use translate::Target;
use vax_form::WantOfMemory;
use vest_files::{Loaded, of_bytes, version_of};
use vest_stops::{Done, Stop};
use vt_outside::{Desk, Sink, write_all};

/// The first bytes of a translated file.
const MAGIC: &[u8; 4] = b"VXTR";

/// The instructions that can be reached, which are not too many.
pub fn reached(
    alloc: Global,
    image: &Image,
    hints: &[u32],
) -> Result<Vec<vax_form::Instr>, WantOfMemory>
    requires { AreFew image.now.pages (starts image.now hints.now) }
    ensures { IfOk result (λ instrs. IsReach image.now.pages (starts image.now hints.now) instrs.items) }
{
    match reach(alloc, image, hints) {
        Ok(instrs) => Ok(instrs),
        Err(FlowRefusal::WantOfMemory) => Err(WantOfMemory),
        Err(FlowRefusal::TooManyInstructions { .. }) => unreachable!(),
    }
}

fn translated_line(version: u32, bytes: usize, hints: usize) -> Line
    ensures { result ≡ translated_line version bytes hints }
{
    let mut line = Line::new();
    line.push_text(b"translated version");
    line.push_spaced(u64::from(version));
    line.push_text(b" bytes");
    line.push_spaced(bytes as u64);
    line.push_text(b" hints");
    line.push_spaced(hints as u64);
    line.push(b'\n');
    line
}

// The line of a translated file; nothing of a VAX image.
fn put_file_line(out: &mut Vec<u8>, bytes: &[u8], loaded: &Loaded) -> Result<(), AllocError>
    requires { loaded.now.hints.items ≡ hints_in bytes.now }
    ensures { OnOk result (out.new.items ≡ out.old.items ++ file_line bytes.now loaded.now.target) }
{
    if !bytes.starts_with(MAGIC) {
        return Ok(());
    }
    let version = version_of(loaded.target);
    let line = translated_line(version, bytes.len(), loaded.hints.len());
    out.extend_from_slice(line.as_slice())
}

// What is said of a file's bytes, by what they mean.
fn shown(alloc: Global, bytes: &[u8], loaded: &Loaded) -> Result<Vec<u8>, Stop>
    requires loaded { IsLoaded Original bytes.now loaded.now.image loaded.now.target loaded.now.translation }
    requires hints { loaded.now.hints.items ≡ hints_in bytes.now }
    requires whole { IsWhole loaded.now.image }
    ensures ok { IfOk result (λ text. TellsOf text.items bytes.now loaded.now.image loaded.now.target loaded.now.translation) }
    ensures err { IfErr result (λ stop. stop ≡ NoMemory) }
{
    let Loaded {
        image,
        translation,
        hints,
        ..
    } = loaded;
    let instrs = reached(alloc, image, hints)?;
    let mapped = translation.map.pairs().len() as u64;
    let words = translation.words.len() as u64;
    let mut text = Vec::new(alloc);
    put_file_line(&mut text, bytes, loaded)?;
    show_text(alloc, &mut text, image, hints, &instrs, mapped, words)?;
    Ok(text)
}

fn text_of(alloc: Global, bytes: &[u8]) -> Result<Vec<u8>, Stop>
    ensures ok { IfOk result (λ text. IsText text.items bytes.now) }
    ensures err { IfErr result (λ stop. StopsAtBytes stop bytes.now) }
{
    let loaded = of_bytes(alloc, bytes, Target::Original)?;
    shown(alloc, bytes, &loaded)
}

pub fn send<K: Sink>(out: &mut K, text: &[u8]) -> Done
    ensures { Sends result text.now (K.meaning out.old) (K.meaning out.new) }
{
    match write_all(out, text) {
        Ok(()) => Done::Ok,
        Err(_) => Done::WriteFault,
    }
}

/// Says what a file's image has, and what its translation makes of it: of a VAX image for the first Alpha processors, or of a
/// translated file.
pub fn show<'a, D: Desk, K: Sink>(
    alloc: Global,
    name: &'a str,
    desk: &mut D,
    out: &mut K,
) -> Result<Done, Halt<'a>>
    ensures does { IfOk result (λ done. Shows done name.entry.now (D.meaning desk.old) (K.meaning out.old) (K.meaning out.new)) }
    ensures why { IfErr result (λ halt. StopsShow halt.stop (name_told halt) name.entry.now (D.meaning desk.old) (D.meaning desk.new)) }
    ensures stays { SameFiles (D.meaning desk.old) (D.meaning desk.new) }
    ensures unsent { IfErr result (λ _. K.meaning out.new ≡ K.meaning out.old) }
{
    let bytes = read_named(alloc, desk, name)?;
    let text = text_of(alloc, &bytes)?;
    Ok(send(out, &text))
}
