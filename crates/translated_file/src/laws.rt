//! What holds of all files, for the crates above. Its functions do nothing.
ghost use Rattle.translated_file.specs.Laws.{WrittenIsAccepted, AcceptedIsWritten, PrefixesAreRefused};

/// What is written reads as its parts, and compares with its translation.
pub fn written_is_accepted()
    ensures { WrittenIsAccepted }
{}

/// Bytes that read as parts, and compare with a translation, are those that are written for them.
pub fn accepted_is_written()
    ensures { AcceptedIsWritten }
{}

/// A file that ends too soon, wherever it is cut, is refused as truncated, with its length.
#[tactic(auto, using(crate::proofs::Prefixes::prefixes_are_refused))]
pub fn prefixes_are_refused()
    ensures { PrefixesAreRefused }
{}
