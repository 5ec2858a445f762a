//! What hints do to a translation, for the crates above. Its function does nothing.
ghost use Rattle.vest_files.specs.Hinted.{HintsAreMapped};

/// Each hint at which an instruction stands that has a block is mapped.
pub fn hints_are_mapped()
    ensures { HintsAreMapped }
{}
