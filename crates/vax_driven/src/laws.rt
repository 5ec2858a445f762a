//! Laws of driven threads, for the proofs of the crates above. Their functions do nothing.
ghost use Rattle.vax_driven.specs.Laws.{ReachedStays, WantedOnce, WalkGoesOn, BytesStay, OthersStay};

/// Further replies change nothing of where a thread came before them.
#[tactic(auto, using(crate::proofs::Reaching::reached_stays))]
pub fn reached_stays()
    ensures { ReachedStays }
{}

/// With the same replies, a thread wants a reference after one number of instructions at most.
#[tactic(auto, using(crate::proofs::Reaching::wanted_once))]
pub fn wanted_once()
    ensures { WantedOnce }
{}

/// A longer order makes further references alone.
#[tactic(auto, using(crate::proofs::Walking::walk_goes_on))]
pub fn walk_goes_on()
    ensures { WalkGoesOn }
{}

/// A reference leaves a byte at each address.
#[tactic(auto, using(crate::proofs::Changing::bytes_stay))]
pub fn bytes_stay()
    ensures { BytesStay }
{}

/// A reference changes its own bytes alone.
#[tactic(auto, using(crate::proofs::Changing::others_stay))]
pub fn others_stay()
    ensures { OthersStay }
{}
