//! What holds of all calls. Its functions do nothing.
ghost use Rattle.vest_cli.specs.Again.{ReplayGivesItsRun};
ghost use Rattle.vest_cli.specs.Mapped.{FoundIsMapped, WhatWasFoundIsMapped};

use run_files::laws::written_hints_are_read;
use stored_runs::laws::headline_is_replayed;
use translate::translation_law;
use vest_files::laws::hints_are_mapped;

/// A call of `run` that ended with status 0, 4 or 5 and stored its order in a file of another name, over a desk that tells its files; and
/// a call of `replay` with these names over the files that it left: the second has the same status, and its sinks took the same bytes;
/// or memory ran out, or a call of the outside failed. So it is with a file for hints, too: where that alone could not be written, the
/// sinks took the same bytes.
pub fn replay_gives_its_run()
    ensures { ReplayGivesItsRun }
{
    headline_is_replayed();
    translation_law();
}

/// Each address that an order finds of an image, and that a map lacks, is in the map of each translation of the image that has what
/// was found as its hints.
pub fn found_is_mapped()
    ensures { FoundIsMapped }
{
    hints_are_mapped();
}

/// A call of `replay` of an image with a file for hints of another name than the image's, over a desk that tells its files, ended with
/// status 0, 4 or 5; and a call of `translate` of that image with these hints, over the files that it left, ended with 0: each address that
/// the first found, which its translation lacks, is in the map of the file that the second wrote.
pub fn what_was_found_is_mapped()
    ensures { WhatWasFoundIsMapped }
{
    written_hints_are_read();
    found_is_mapped();
}
