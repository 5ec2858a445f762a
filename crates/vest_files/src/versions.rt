//! Which version of a translated file holds code for which processors.
ghost use Rattle.std.specs.Prelude.{◌≡◌, true};
ghost use Rattle.translated_file.specs.Limits.{is_version};
ghost use Rattle.vest_files.specs.Versions.{target_of, version_of};

use translate::Target;
use translated_file::{VERSION_1, VERSION_2};

/// The version of a translated file for a target.
pub fn version_of(target: Target) -> u32
    ensures value { result ≡ version_of target }
    ensures of_the_format { is_version result ≡ true }
{
    match target {
        Target::Original => VERSION_1,
        Target::ByteWord => VERSION_2,
    }
}

/// Of the versions that the format has.
pub(crate) fn target_of(version: u32) -> Target
    ensures { result ≡ target_of version }
{
    if version == VERSION_2 {
        Target::ByteWord
    } else {
        Target::Original
    }
}
