// The length of a whole image's file, from its tables.
ghost use Rattle.std.specs.Prelude.{◌≡◌, ◌<◌, ◌^◌, length, map};
ghost use Rattle.image_file.specs.Rows.{stored_bytes};
ghost use Rattle.image_file.specs.Spelling.{row_of, spelling};
ghost use Rattle.image_file.specs.Whole.{IsWhole};

use crate::image::{Image, Section};
use crate::limits::*;

/// How many bytes of the sections are stored.
fn stored_bytes(sections: &[Section]) -> usize
    requires { stored_bytes (map row_of sections.now) < 2 ^ 31 }
    ensures { result ≡ stored_bytes (map row_of sections.now) }
{
    let mut bytes = 0;
    for section in sections {
        bytes += section.stored.len();
    }
    bytes
}

/// The bytes of a whole image's file.
pub fn image_length(image: &Image) -> usize
    requires { IsWhole image.now }
    ensures value { result ≡ length (spelling image.now) }
    ensures bound { result < 2 ^ 32 }
{
    HEADER
        + start_width(image.version) * image.threads.len()
        + ROW_BYTES * image.sections.len()
        + ENTRY_BYTES * image.entries.len()
        + stored_bytes(&image.sections)
}
