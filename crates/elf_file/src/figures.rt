//! The numbers of an ELF file.
ghost use Rattle.std.specs.Prelude.{◌≡◌};
ghost use Rattle.elf_file.specs.Figures as stated;

/// The bytes of the file's header, and the first four of them, the lowest first.
pub const HEADER: usize = 52;

pub const MAGIC: u32 = 0x464c_457f;

pub const CLASS_32: u8 = 1;

pub const LITTLE_ENDIAN: u8 = 1;

pub const VERSION: u8 = 1;

pub const VAX: u16 = 75;

pub const EXECUTABLE: u16 = 2;
/// The bytes of a program header.
pub const PROGRAM_HEADER: usize = 32;

pub const LOAD: u32 = 1;

pub const DYNAMIC: u32 = 2;

pub const INTERPRETER: u32 = 3;

pub const SEGMENT_EXECUTABLE: u32 = 1;

pub const SEGMENT_WRITABLE: u32 = 2;
/// The bytes of a section header.
pub const SECTION_HEADER: usize = 40;

pub const SYMBOL_TABLE: u32 = 2;

pub const SECTION_WRITABLE: u32 = 1;

pub const SECTION_LOADED: u32 = 2;
/// The bytes of a symbol.
pub const SYMBOL: usize = 16;
/// A symbol's type is the rest of its information by this.
pub const SYMBOL_TYPES: u8 = 16;

pub const FUNCTION: u8 = 2;
/// The section of a symbol that is defined elsewhere.
pub const UNDEFINED: u16 = 0;
/// Segments end at this address or below it.
pub const ADDRESS_END: u64 = 0x8000_0000;

/// The numbers are those that the definitions state in figures.
pub fn limits_are_as_stated()
    ensures header { HEADER ≡ stated.HEADER }
    ensures magic { MAGIC ≡ stated.MAGIC }
    ensures class_32 { CLASS_32 ≡ stated.CLASS_32 }
    ensures little_endian { LITTLE_ENDIAN ≡ stated.LITTLE_ENDIAN }
    ensures version { VERSION ≡ stated.VERSION }
    ensures vax { VAX ≡ stated.VAX }
    ensures executable { EXECUTABLE ≡ stated.EXECUTABLE }
    ensures program_header { PROGRAM_HEADER ≡ stated.PROGRAM_HEADER }
    ensures load { LOAD ≡ stated.LOAD }
    ensures dynamic { DYNAMIC ≡ stated.DYNAMIC }
    ensures interpreter { INTERPRETER ≡ stated.INTERPRETER }
    ensures segment_executable { SEGMENT_EXECUTABLE ≡ stated.SEGMENT_EXECUTABLE }
    ensures segment_writable { SEGMENT_WRITABLE ≡ stated.SEGMENT_WRITABLE }
    ensures section_header { SECTION_HEADER ≡ stated.SECTION_HEADER }
    ensures symbol_table { SYMBOL_TABLE ≡ stated.SYMBOL_TABLE }
    ensures section_writable { SECTION_WRITABLE ≡ stated.SECTION_WRITABLE }
    ensures section_loaded { SECTION_LOADED ≡ stated.SECTION_LOADED }
    ensures symbol { SYMBOL ≡ stated.SYMBOL }
    ensures symbol_types { SYMBOL_TYPES ≡ stated.SYMBOL_TYPES }
    ensures function { FUNCTION ≡ stated.FUNCTION }
    ensures undefined { UNDEFINED ≡ stated.UNDEFINED }
    ensures address_end { ADDRESS_END ≡ stated.ADDRESS_END }
{}
