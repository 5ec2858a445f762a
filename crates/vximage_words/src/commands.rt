// The commands, and what is asked of them.
use image_file::Start;
use image_parts::Options;

/// A section that is asked for: where it begins, its bytes, 0 for as many as it stores, whether it may be written, and the
/// file of what it stores.
#[derive(Clone, Copy)]
pub struct SectionAsked<'a> {
    pub start: u32,
    pub size: u32,
    pub writable: bool,
    pub file: Option<&'a str>,
}

/// The parts that are asked for, in the order of the words, and the file with a further entry on each line.
#[derive(Drop)]
pub struct PartsAsked<'a> {
    pub threads: Vec<Start>,
    pub sections: Vec<SectionAsked<'a>>,
    pub entries: Vec<u32>,
    pub entries_file: Option<&'a str>,
}

/// What is listed: whether with Alpha words, from which address to which, and the file with names.
#[derive(Clone, Copy)]
pub struct ListingAsked<'a> {
    pub with_words: bool,
    pub first: u32,
    pub last: u32,
    pub names: Option<&'a str>,
}

/// What a command line asks for. The names are words of the line.
#[derive(Drop)]
pub enum Command<'a> {
    /// `make OUT` with sections and threads: writes the image of these parts.
    MakeParts {
        out: &'a str,
        parts: PartsAsked<'a>,
    },
    /// `make OUT --elf FILE`: writes the image of a static executable.
    MakeElf {
        out: &'a str,
        file: &'a str,
        options: Options,
    },
    /// `show NAME`: says what an image or a translated file has, and what its translation makes of it.
    Show {
        name: &'a str,
    },
    /// `dis NAME`: lists what stands in the code of an image or a translated file.
    List {
        name: &'a str,
        asked: ListingAsked<'a>,
    },
}
