// The images of rows: a read-only section at 200 with the code, and mostly a writable one.
ghost use Rattle.std.specs.Prelude.{IfOk};
ghost use Rattle.image_file.specs.Whole.{IsWhole};

use anyhow::{Result, bail};
use image_file::{Image, read_image};
use row_tally::{RowFault, bytes, bytes_or_none, longword, pairs};
use std::alloc::Global;

/// Where the code stands.
const CODE: u32 = 0x200;

/// Where a writable section stands, where a row names no place.
const WRITABLE: u32 = 0x1000;

/// The SP of a thread, where a row names none.
const STACK: u32 = 0x1200;

/// The bytes of a section.
const SIZE: u32 = 0x200;

/// A section of an image file.
#[derive(Clone, Copy)]
struct Section<'a> {
    first: u32,
    size: u32,
    writable: bool,
    stored: &'a [u8],
}

/// An image file that is put together, and whether all of its bytes were put.
#[derive(Drop)]
struct File {
    bytes: Vec<u8>,
    is_whole: bool,
}

impl File {
    fn put(&mut self, bytes: &[u8]) {
        if self.bytes.extend_from_slice(bytes).is_err() {
            self.is_whole = false;
        }
    }

    fn put_longword(&mut self, longword: u32) {
        self.put(&longword.to_le_bytes());
    }

    /// A count that is too large is put as one that no file has.
    fn put_count(&mut self, count: usize) {
        self.put_longword(u32::try_from(count).unwrap_or(u32::MAX));
    }

    /// The place of a section, and how many bytes it stores.
    fn put_place(&mut self, section: &Section<'_>) {
        self.put_longword(section.first);
        self.put_longword(section.size);
        self.put_count(section.stored.len());
        self.put_longword(u32::from(section.writable));
    }

    /// Threads that start at a PC with an SP each, and how many sections come behind.
    fn put_head(&mut self, starts: &[(u32, u32)], sections: usize) {
        self.put(b"VXIM\x01\0");
        let threads = u16::try_from(starts.len()).unwrap_or(u16::MAX);
        self.put(&threads.to_le_bytes());
        self.put_count(sections);
        for (pc, sp) in starts {
            self.put_longword(*pc);
            self.put_longword(*sp);
        }
    }

    fn put_sections(&mut self, sections: &[Section<'_>]) {
        for section in sections {
            self.put_place(section);
        }
        for section in sections {
            self.put(section.stored);
        }
    }
}

fn read(alloc: Global, file: &File) -> Result<Image>
    ensures { IfOk result IsWhole }
{
    if !file.is_whole {
        bail!("want of memory");
    }
    match read_image(alloc, &file.bytes) {
        Ok(image) => Ok(image),
        Err(_) => bail!("no image"),
    }
}

/// The image of threads that start at a PC with an SP each, and sections.
fn image_with(alloc: Global, starts: &[(u32, u32)], sections: &[Section<'_>]) -> Result<Image>
    ensures { IfOk result IsWhole }
{
    let mut file = File {
        bytes: Vec::new(alloc),
        is_whole: true,
    };
    file.put_head(starts, sections.len());
    file.put_sections(sections);
    read(alloc, &file)
}

/// What the sections of an image store.
#[derive(Drop)]
struct Stored {
    code: Vec<u8>,
    first: u32,
    writable: Vec<u8>,
}

/// The address of a writable section and the field of what it stores, written as FIRST=BYTES, or as BYTES of one at 1000.
fn place_of(field: &str) -> Result<(u32, &str), RowFault> {
    match field.split_once('=') {
        Some((first, stored)) => Ok((longword(first)?, stored)),
        None => Ok((WRITABLE, field)),
    }
}

fn stored_of(alloc: Global, code: &str, writable: &str) -> Result<Stored, RowFault> {
    let (first, stored) = place_of(writable)?;
    let code = bytes(alloc, code)?;
    let writable = bytes_or_none(alloc, stored)?;
    Ok(Stored {
        code,
        first,
        writable,
    })
}

/// The section with the code.
fn code_section(code: &[u8], size: u32) -> Section<'_> {
    Section {
        first: CODE,
        size,
        writable: false,
        stored: code,
    }
}

fn writable_section(first: u32, stored: &[u8]) -> Section<'_> {
    Section {
        first,
        size: SIZE,
        writable: true,
        stored,
    }
}

/// The image of threads, by the fields with their starts, with the code and with the writable section.
pub fn image_of(alloc: Global, starts: &str, code: &str, writable: &str) -> Result<Image>
    ensures { IfOk result IsWhole }
{
    let starts = pairs(alloc, starts)?;
    let stored = stored_of(alloc, code, writable)?;
    let sections = [
        code_section(&stored.code, SIZE),
        writable_section(stored.first, &stored.writable),
    ];
    image_with(alloc, &starts, &sections)
}

/// The image of one thread, whose code fills its only section.
pub fn code_alone(alloc: Global, code: &[u8]) -> Result<Image>
    ensures { IfOk result IsWhole }
{
    let size = u32::try_from(code.len()).unwrap_or(u32::MAX);
    let section = code_section(code, size);
    image_with(alloc, &[(CODE, STACK)], &[section])
}
