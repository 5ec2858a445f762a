//! What the order of accesses tells, for the proofs of the crates above. Their functions do nothing.
ghost use Rattle.memory_core.specs.Laws.{PairsAgree, BeginningsMeet, MeetsGoOn, ReadersLeave, OthersStay, OpeningIsFound};

/// A store conditional that succeeds, where its processor's latest entry is a load-locked of the same quadword, finds
/// what that one found.
pub fn pairs_agree()
    ensures { PairsAgree }
{}

/// Each beginning of a history that meets the order meets it.
pub fn beginnings_meet()
    ensures { BeginningsMeet }
{}

/// A history that meets the order meets it from a set-up that goes on as another, too.
pub fn meets_go_on()
    ensures { MeetsGoOn }
{}

/// An entry that doesn't write leaves every quadword as it was.
pub fn readers_leave()
    ensures { ReadersLeave }
{}

/// The bytes of a quadword that a change doesn't name stand.
pub fn others_stay()
    ensures { OthersStay }
{}

/// A quadword of the image is what the earliest access to it found, and else the quadword now.
pub fn opening_is_found()
    ensures { OpeningIsFound }
{}
