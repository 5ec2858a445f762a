//! What holds of every block that follows a tree, for the proofs of the crates above. Their functions do nothing.
ghost use Rattle.block_law.specs.Laws.{OneStepOpens, FewerStepsFollow, SameTreeFollows, MoreKindsMeet, UnwrittenStay, SameStatus};

/// One step may be taken out of what holds for every number of steps.
pub fn one_step_opens()
    ensures { OneStepOpens }
{}

/// What holds for some steps and some room holds for fewer steps and more room.
pub fn fewer_steps_follow()
    ensures { FewerStepsFollow }
{}

/// A tree may be replaced by one with the same checks, references and ends.
pub fn same_tree_follows()
    ensures { SameTreeFollows }
{}

/// Code that meets a permit meets one with more kinds of accesses.
pub fn more_kinds_meet()
    ensures { MoreKindsMeet }
{}

/// An instruction leaves each register that it does not write, and the processor status word shows the same where R15 to
/// R20 and R28 to R30 stay.
pub fn unwritten_registers_stay()
    ensures registers { UnwrittenStay }
    ensures status { SameStatus }
{}
