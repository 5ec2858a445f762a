//! What a turn keeps, for the proofs of the crates above. Its functions do nothing.
ghost use Rattle.tie_switch.specs.Inside.{LandingsAreTurns, ProbesAreTurns, StepsAreTurns};
ghost use Rattle.tie_switch.specs.Laws.{LocalTurnsKeepReached, ManyTurnsKeepReached, TurnsKeepReached, TurnsStayLegal};

use system_model::laws::{
    accesses_keep_reached, ends_keep_reached, others_keep_reached, reached_are_legal,
    requests_are_own, steps_keep_reached,
};

/// A turn over any memory, with entries of others before its own, keeps a processor reached by its own entries of what was
/// seen.
pub fn turns_keep_reached()
    ensures { TurnsKeepReached }
{
    steps_keep_reached();
    accesses_keep_reached();
    ends_keep_reached();
    others_keep_reached();
    requests_are_own();
}

/// So do many turns, one after the other, and many that ask nothing.
pub fn many_turns_keep_reached()
    ensures many { ManyTurnsKeepReached }
    ensures local { LocalTurnsKeepReached }
{
    turns_keep_reached();
}

/// A turn keeps a history and its processors legal, in a memory of one owner.
pub fn turns_stay_legal()
    ensures { TurnsStayLegal }
{
    turns_keep_reached();
    others_keep_reached();
    requests_are_own();
    reached_are_legal();
}

/// Local steps inside a block are turns, which change the registers and the count of steps alone.
#[tactic(auto, using(crate::proofs::Inside::steps_are_turns))]
pub fn steps_are_turns()
    ensures { StepsAreTurns }
{}

/// A local step that arrives at a block is a turn that arrives at its boundary.
#[tactic(auto, using(crate::proofs::Inside::landings_are_turns))]
pub fn landings_are_turns()
    ensures { LandingsAreTurns }
{}

/// A probe that goes on inside its block is a turn that goes on at the next word.
pub fn probes_are_turns()
    ensures { ProbesAreTurns }
{}
