// The command `make`.
ghost use Rattle.std.specs.Prelude.{◌≡◌, ◌++◌, IfErr, IfOk, Ok, Some, length, map};
ghost use Rattle.std.specs.List.{AllZip};
ghost use Rattle.elf_file.specs.Program.{program_of};
ghost use Rattle.elf_file.specs.Values.{ProgramValue};
ghost use Rattle.image_file.specs.Reading.{image_of};
ghost use Rattle.image_file.specs.Values.{ImageValue};
ghost use Rattle.image_parts.specs.Loads.{Loads};
ghost use Rattle.image_parts.specs.Parts.{parts_bytes, parts_image, parts_value};
ghost use Rattle.image_parts.specs.Program.{elf_bytes, stacks_of, starts_of};
ghost use Rattle.vest_files.specs.Stages.{StopsWhere};
ghost use Rattle.vest_files.specs.Translate.{Writes};
ghost use Rattle.vest_stops.specs.Files.{SameFiles};
ghost use Rattle.vximage_words.specs.Commands.{parts_wanted, section_wanted};
ghost use Rattle.vximage_cli.specs.Entries.{entries_listed};
ghost use Rattle.vximage_cli.specs.Making.{AreListed, IsSection, IsStored, MakesElf, MakesParts, RefusesLine, Refuses};
ghost use Rattle.vximage_cli.specs.Making.{StopsAtList, StopsAtOptional, StopsAtSections, StopsElf, StopsParts};
ghost use Rattle.vximage_cli.specs.Named.{name_told};

use crate::entries::{ListFault, entries_listed};
use crate::halt::{Halt, read_named, refused};
use image_file::Section;
use image_parts::{Options, Parts, from_elf, from_parts};
use report_text::Subject;
use std::alloc::{AllocError, Global};
use vest_stops::{Done, Refusal, Stop};
use vt_outside::{Desk, DeskWrite};
use vximage_words::{PartsAsked, SectionAsked};

/// The number of the refusal of a line without an address.
const NO_ADDRESS: u64 = 2;

// What a section stores: the bytes of its file, or nothing.
fn stored_of<'a, D: Desk>(
    alloc: Global,
    asked: &SectionAsked<'a>,
    desk: &mut D,
) -> Result<Vec<u8>, Halt<'a>>
    ensures ok { IfOk result (λ stored. IsStored (D.meaning desk.old).files (section_wanted asked.now).file stored.items) }
    ensures why { IfErr result (λ halt. StopsAtOptional halt.stop (name_told halt) (section_wanted asked.now).file (D.meaning desk.old) (D.meaning desk.new)) }
    ensures stays { SameFiles (D.meaning desk.old) (D.meaning desk.new) }
{
    match asked.file {
        Some(name) => read_named(alloc, desk, name),
        None => Ok(Vec::new(alloc)),
    }
}

fn section_of<'a, D: Desk>(
    alloc: Global,
    asked: &SectionAsked<'a>,
    desk: &mut D,
) -> Result<Section, Halt<'a>>
    ensures ok { IfOk result (λ section. IsSection (D.meaning desk.old).files (section_wanted asked.now) section) }
    ensures why { IfErr result (λ halt. StopsAtOptional halt.stop (name_told halt) (section_wanted asked.now).file (D.meaning desk.old) (D.meaning desk.new)) }
    ensures stays { SameFiles (D.meaning desk.old) (D.meaning desk.new) }
{
    let stored = stored_of(alloc, asked, desk)?;
    Ok(Section {
        start: asked.start,
        size: asked.size,
        writable: asked.writable,
        stored,
    })
}

// The sections, with what their files have.
fn sections_of<'a, D: Desk>(
    alloc: Global,
    asked: &[SectionAsked<'a>],
    desk: &mut D,
) -> Result<Vec<Section>, Halt<'a>>
    ensures ok { IfOk result (λ v. AllZip (IsSection (D.meaning desk.old).files) (map section_wanted asked.now) v.items) }
    ensures why { IfErr result (λ halt. StopsAtSections halt.stop (name_told halt) (map section_wanted asked.now) (D.meaning desk.old) (D.meaning desk.new)) }
    ensures stays { SameFiles (D.meaning desk.old) (D.meaning desk.new) }
{
    let mut sections = Vec::new(alloc);
    for section in asked {
        sections.push(section_of(alloc, section, desk)?)?;
    }
    Ok(sections)
}

// The addresses that the lines of a file begin with.
fn listed_in(alloc: Global, bytes: &[u8]) -> Result<Vec<u32>, Stop>
    ensures ok { IfOk result (λ listed. entries_listed bytes.now ≡ Ok listed.items) }
    ensures err { IfErr result (λ stop. StopsWhere (RefusesLine bytes.now) stop) }
{
    match entries_listed(alloc, bytes) {
        Ok(entries) => Ok(entries),
        Err(ListFault::NoAddress { line }) => Err(Stop::Refused(Refusal::new(
            Subject::Parts,
            &[NO_ADDRESS, line],
        ))),
        Err(ListFault::WantOfMemory) => Err(Stop::WantOfMemory),
    }
}

// The entries of a file.
fn listed_at<'a, D: Desk>(alloc: Global, name: &'a str, desk: &mut D) -> Result<Vec<u32>, Halt<'a>>
    ensures ok { IfOk result (λ listed. AreListed (D.meaning desk.old).files (Some name.entry.now) listed.items) }
    ensures why { IfErr result (λ halt. StopsAtList halt.stop (name_told halt) (Some name.entry.now) (D.meaning desk.old) (D.meaning desk.new)) }
    ensures stays { SameFiles (D.meaning desk.old) (D.meaning desk.new) }
{
    let bytes = read_named(alloc, desk, name)?;
    Ok(listed_in(alloc, &bytes)?)
}

// The entries of the file, where one is named.
fn listed_of<'a, D: Desk>(
    alloc: Global,
    asked: &PartsAsked<'a>,
    desk: &mut D,
) -> Result<Vec<u32>, Halt<'a>>
    ensures ok { IfOk result (λ listed. AreListed (D.meaning desk.old).files (parts_wanted asked.now).entries_file listed.items) }
    ensures why { IfErr result (λ halt. StopsAtList halt.stop (name_told halt) (parts_wanted asked.now).entries_file (D.meaning desk.old) (D.meaning desk.new)) }
    ensures stays { SameFiles (D.meaning desk.old) (D.meaning desk.new) }
{
    match asked.entries_file {
        Some(name) => listed_at(alloc, name, desk),
        None => Ok(Vec::new(alloc)),
    }
}

fn joined(alloc: Global, first: &[u32], behind: &[u32]) -> Result<Vec<u32>, AllocError>
    ensures { IfOk result (λ v. v.items ≡ first.now ++ behind.now) }
{
    let mut all = Vec::from_slice(alloc, first)?;
    all.extend_from_slice(behind)?;
    Ok(all)
}

// The bytes of the image of the parts.
fn image_of_parts(alloc: Global, parts: Parts<'_>) -> Result<Vec<u8>, Stop>
    ensures made { IfOk result (λ bytes. parts_bytes (parts_value parts.entry) ≡ Ok bytes.items) }
    ensures reads_back { IfOk result (λ bytes. image_of bytes.items ≡ Ok (parts_image (parts_value parts.entry))) }
    ensures err { IfErr result (λ stop. StopsWhere (Refuses (parts_bytes (parts_value parts.entry))) stop) }
{
    match from_parts(alloc, parts) {
        Ok(bytes) => Ok(bytes),
        Err(cause) => Err(refused(cause)),
    }
}

// The bytes of the image of an executable.
fn image_of_elf(alloc: Global, executable: &[u8], options: &Options) -> Result<Vec<u8>, Stop>
    ensures made { IfOk result (λ bytes. elf_bytes executable.now options.now ≡ Ok bytes.items) }
    ensures loads { IfOk result (λ bytes. (program : ProgramValue) → (image : ImageValue) → program_of executable.now ≡ Ok program → image_of bytes.items ≡ Ok image
        → Loads program.segments (stacks_of options.now.stack (length (starts_of program options.now))) image) }
    ensures err { IfErr result (λ stop. StopsWhere (Refuses (elf_bytes executable.now options.now)) stop) }
{
    match from_elf(alloc, executable, options) {
        Ok(bytes) => Ok(bytes),
        Err(cause) => Err(refused(cause)),
    }
}

fn write_file<D: Desk>(desk: &mut D, name: &str, bytes: &[u8]) -> Done
    ensures { Writes result name.now bytes.now (D.meaning desk.old) (D.meaning desk.new) }
{
    match desk.write(name, bytes) {
        DeskWrite::Done => Done::Ok,
        DeskWrite::Failed => Done::WriteFault,
    }
}

/// Writes the image of the parts that are asked for. All is read before it is written.
pub fn make_parts<'a, D: Desk>(
    alloc: Global,
    out: &str,
    asked: &PartsAsked<'a>,
    desk: &mut D,
) -> Result<Done, Halt<'a>>
    ensures does { IfOk result (λ done. MakesParts done out.now (parts_wanted asked.now) (D.meaning desk.old) (D.meaning desk.new)) }
    ensures why { IfErr result (λ halt. StopsParts halt.stop (name_told halt) (parts_wanted asked.now) (D.meaning desk.old) (D.meaning desk.new)) }
    ensures stays { IfErr result (λ _. SameFiles (D.meaning desk.old) (D.meaning desk.new)) }
{
    let sections = sections_of(alloc, &asked.sections, desk)?;
    let listed = listed_of(alloc, asked, desk)?;
    let entries = joined(alloc, &asked.entries, &listed)?;
    let parts = Parts {
        threads: &asked.threads,
        sections: &sections,
        entries: &entries,
    };
    let bytes = image_of_parts(alloc, parts)?;
    Ok(write_file(desk, out, &bytes))
}

/// Writes the image of an executable. It reads before it writes.
pub fn make_elf<'a, D: Desk>(
    alloc: Global,
    out: &str,
    file: &'a str,
    options: &Options,
    desk: &mut D,
) -> Result<Done, Halt<'a>>
    ensures does { IfOk result (λ done. MakesElf done out.now file.entry.now options.now (D.meaning desk.old) (D.meaning desk.new)) }
    ensures why { IfErr result (λ halt. StopsElf halt.stop (name_told halt) file.entry.now options.now (D.meaning desk.old) (D.meaning desk.new)) }
    ensures stays { IfErr result (λ _. SameFiles (D.meaning desk.old) (D.meaning desk.new)) }
{
    let executable = read_named(alloc, desk, file)?;
    let bytes = image_of_elf(alloc, &executable, options)?;
    Ok(write_file(desk, out, &bytes))
}
