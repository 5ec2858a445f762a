//! What holds of all order files and hint files, for the crates above. Its functions do nothing.
ghost use Rattle.run_files.specs.Hints.{WrittenHintsAreRead, ReadHintsAreWritten, HintPrefixesAreRefused};
ghost use Rattle.run_files.specs.Laws.{WrittenIsRead, ReadIsWritten, PrefixesAreRefused};

/// What fits is read back as it was.
pub fn written_is_read()
    ensures { WrittenIsRead }
{}

/// What is read fits, and its bytes are the spelling.
pub fn read_is_written()
    ensures { ReadIsWritten }
{}

/// A file that ends too soon, wherever it is cut, is refused as truncated, with its length.
pub fn prefixes_are_refused()
    ensures { PrefixesAreRefused }
{}

/// Few rising addresses are read back as they were.
pub fn written_hints_are_read()
    ensures { WrittenHintsAreRead }
{}

/// What is read of a hint file is few rising addresses, and its bytes are the spelling.
pub fn read_hints_are_written()
    ensures { ReadHintsAreWritten }
{}

/// A hint file that ends too soon, wherever it is cut, is refused as truncated, with its length.
pub fn hint_prefixes_are_refused()
    ensures { HintPrefixesAreRefused }
{}
