//! What holds of all files, for the crates above. Its function does nothing.
ghost use Rattle.image_file.specs.Prefixes.{PrefixesAreRefused};

/// A file that ends too soon, wherever it is cut, is refused as truncated, with its length.
#[tactic(auto, using(crate::proofs::Prefixes::prefixes_are_refused))]
pub fn prefixes_are_refused()
    ensures { PrefixesAreRefused }
{}
