//! What holds of all runs. Its functions do nothing.
ghost use Rattle.vest_runs.specs.Stored.{WholeIsStored};

/// What code for processors with the byte-word extension writes of a whole byte, or of a whole word at an even address, is one
/// store.
#[tactic(auto, using(crate::proofs::Stored::whole_is_stored))]
pub fn whole_is_stored_law()
    ensures { WholeIsStored }
{}
