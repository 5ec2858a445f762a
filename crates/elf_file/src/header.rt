// The header of an ELF file.
ghost use Rattle.std.specs.Prelude.{◌≡◌, ◌≤◌, ◌*◌, length, drop, IfOk};
ghost use Rattle.elf_file.specs.Header.{header_in, is_class, lacks_programs, header_of};

use crate::fields::{half_at, is_cut};
use crate::figures::*;
use crate::refusal::ElfRefusal;
use image_file::word_at;

/// Where the program begins, and where its program headers and its section headers stand, of what size, and how many.
#[derive(Clone, Copy)]
pub struct Header {
    pub entry: u32,
    pub programs_at: u32,
    pub program_size: u16,
    pub programs: u16,
    pub sections_at: u32,
    pub section_size: u16,
    pub sections: u16,
}

impl Header {
    fn lacks_programs(&self, bytes: &[u8]) -> bool
        ensures { result ≡ lacks_programs self.now bytes.now }
    {
        let size = PROGRAM_HEADER * self.programs as usize;
        self.program_size as usize != PROGRAM_HEADER
            || is_cut(bytes, self.programs_at as usize, size)
    }
}

fn header_in(bytes: &[u8]) -> Header
    requires { HEADER ≤ length bytes.now }
    ensures { result ≡ header_in bytes.now }
{
    Header {
        entry: word_at(bytes, 24),
        programs_at: word_at(bytes, 28),
        program_size: half_at(bytes, 42),
        programs: half_at(bytes, 44),
        sections_at: word_at(bytes, 32),
        section_size: half_at(bytes, 46),
        sections: half_at(bytes, 48),
    }
}

fn is_class(bytes: &[u8]) -> bool
    requires { HEADER ≤ length bytes.now }
    ensures { result ≡ is_class bytes.now }
{
    bytes[4] == CLASS_32 && bytes[5] == LITTLE_ENDIAN && bytes[6] == VERSION
}

/// The header of a static program for the VAX, where its program headers are all there.
#[tactic(auto, unfolding(crate::specs::Header::header_of))]
pub fn header_of(bytes: &[u8]) -> Result<Header, ElfRefusal>
    ensures value { result ≡ header_of bytes.now }
    ensures programs { IfOk result (λ h. PROGRAM_HEADER * h.programs ≤ length (drop h.programs_at bytes.now)) }
{
    if bytes.len() < HEADER {
        let length = bytes.len() as u64;
        return Err(ElfRefusal::Short { length });
    }
    if word_at(bytes, 0) != MAGIC {
        return Err(ElfRefusal::BadMagic);
    }
    if !is_class(bytes) {
        return Err(ElfRefusal::BadClass {
            class: bytes[4],
            order: bytes[5],
            version: bytes[6],
        });
    }
    let found = half_at(bytes, 18);
    if found != VAX {
        return Err(ElfRefusal::BadMachine { found });
    }
    let found = half_at(bytes, 16);
    if found != EXECUTABLE {
        return Err(ElfRefusal::BadType { found });
    }
    let header = header_in(bytes);
    if header.lacks_programs(bytes) {
        let at = header.programs_at;
        return Err(ElfRefusal::BadHeaders { at });
    }
    Ok(header)
}
