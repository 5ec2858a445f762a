//! The header of a translated file.
ghost use Rattle.std.specs.Prelude.{◌≡◌, ◌≤◌, ◌<◌, ◌^◌, length, IfOk};
ghost use Rattle.translated_file.specs.Reading.{hints_at, tail_at, header_of};

use crate::limits::*;
use crate::refusal::TranslatedRefusal;
use image_file::word_at;

/// The version, how many bytes the image has, and how many hints there are.
#[derive(Clone, Copy, Debug, PartialEq, Eq)]
pub struct Header {
    pub version: u32,
    pub image_bytes: u32,
    pub hints: u32,
}

impl Header {
    /// Where the hints stand.
    pub fn hints_at(&self) -> usize
        ensures value { result ≡ hints_at self.now }
        ensures bound { result < 2 ^ 33 }
    {
        HEADER + self.image_bytes as usize
    }

    /// Where the tail stands.
    pub fn tail_at(&self) -> usize
        ensures value { result ≡ tail_at self.now }
        ensures bound { result < 2 ^ 40 }
    {
        self.hints_at() + WORD_BYTES * self.hints as usize
    }
}

/// The header's numbers, where the image and the hints that they announce are there.
#[tactic(auto, unfolding(crate::specs::Reading::header_of))]
pub fn header_of(bytes: &[u8]) -> Result<Header, TranslatedRefusal>
    ensures value { result ≡ header_of bytes.now }
    ensures tail { IfOk result (λ header. tail_at header ≤ length bytes.now) }
    ensures few { IfOk result (λ header. header.hints ≤ MOST_HINTS) }
{
    let at = bytes.len() as u64;
    if bytes.len() < HEADER {
        return Err(TranslatedRefusal::Truncated { at });
    }
    if word_at(bytes, 0) != MAGIC {
        return Err(TranslatedRefusal::BadMagic);
    }
    let header = Header {
        version: word_at(bytes, 4),
        image_bytes: word_at(bytes, 8),
        hints: word_at(bytes, 12),
    };
    if !is_version(header.version) {
        let found = header.version;
        return Err(TranslatedRefusal::BadVersion { found });
    }
    if header.hints > MOST_HINTS {
        return Err(TranslatedRefusal::BadHint { place: MOST_HINTS });
    }
    if bytes.len() < header.tail_at() {
        return Err(TranslatedRefusal::Truncated { at });
    }
    Ok(header)
}
