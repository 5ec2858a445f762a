// A history that proofs alone keep, and bytes that they alone keep.
ghost use Rattle.std.specs.Prelude.{◌≡◌, ℕ, List, [], ◌∷◌, ◌++◌};
ghost use Rattle.std.specs.Borrow.{ftrue};
ghost use Rattle.memory_core.specs.declared.entry.Entry.{Entry};

use crate::entry::Entry;
use std::marker::Model;

/// Entries in order, oldest first, which only proofs read. It takes no memory.
#[derive(Drop)]
pub(crate) struct Told {
    pub ghost entries: { List Entry },
}

impl Model for Told {
    ghost also_owns = { λ _. ftrue };
}

// It owns nothing.
unsafe impl Send for Told {}

impl Told {
    pub(crate) fn nothing() -> Told
        ensures { result.entries ≡ [] }
    {
        Told {}
    }

    pub(crate) fn and(_before: &Told, _entry: &Entry) -> Told
        ensures { result.entries ≡ _before.now.entries ++ _entry.now ∷ [] }
    {
        Told {}
    }
}

/// Bytes in order, which only proofs read. They take no memory.
#[derive(Drop)]
pub(crate) struct ToldBytes {
    pub ghost bytes: { List ℕ },
}

impl Model for ToldBytes {
    ghost also_owns = { λ _. ftrue };
}

// It owns nothing.
unsafe impl Send for ToldBytes {}

impl ToldBytes {
    pub(crate) fn nothing() -> ToldBytes
        ensures { result.bytes ≡ [] }
    {
        ToldBytes {}
    }

    pub(crate) fn and(_before: &ToldBytes, _bytes: &[u8]) -> ToldBytes
        ensures { result.bytes ≡ _before.now.bytes ++ _bytes.now }
    {
        ToldBytes {}
    }
}
