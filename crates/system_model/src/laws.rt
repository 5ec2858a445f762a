//! What keeps processors reached and makes a history legal, and references beside the quadwords of their accesses, for the proofs of the crates above.
//! Its functions do nothing.
ghost use Rattle.system_model.specs.Laws.{BeginningsAreLegal, LegalGoesOn, StepsKeepReached, AccessesKeepReached, EndsKeepReached, OthersKeepReached, RequestsAreOwn, ReachedAreLegal, ReachedAreWithin, LegalAreWithin, ReferencesCanBeMade, StepsCanBeMade, QuadwordChanges, OtherQuadwordsStay, QuadwordReplies, NeighboursStay, OrderTurns};

/// Processors before their first turn are legal, whatever is interpreted.
pub fn beginnings_are_legal()
    ensures { BeginningsAreLegal }
{}

/// A legal history stays legal from a set-up that goes on as the old one, where each processor that is spent has no step left.
pub fn legal_goes_on()
    ensures { LegalGoesOn }
{}

/// A turn that asks nothing keeps a processor reached by its own entries.
#[tactic(auto, using(crate::proofs::Turns::steps_keep_reached))]
pub fn steps_keep_reached()
    ensures { StepsKeepReached }
{}

/// So does a turn that asks, with the entry that it asked for.
#[tactic(auto, using(crate::proofs::Turns::accesses_keep_reached))]
pub fn accesses_keep_reached()
    ensures { AccessesKeepReached }
{}

/// And so does the end of a processor that has no step left, or asks for one more than the limit allows.
#[tactic(auto, using(crate::proofs::Turns::ends_keep_reached))]
pub fn ends_keep_reached()
    ensures { EndsKeepReached }
{}

/// A processor that is reached by a beginning of a history is reached by the whole, where none of its entries come later.
#[tactic(auto, using(crate::proofs::Turns::others_keep_reached))]
pub fn others_keep_reached()
    ensures { OthersKeepReached }
{}

/// What a reached processor asks is of its thread.
pub fn requests_are_own()
    ensures { RequestsAreOwn }
{}

/// A history that meets the memory order and the limit is legal, where each thread's processor is reached by its own
/// entries and there are no others.
#[tactic(auto, using(crate::proofs::Turns::reached_are_legal))]
pub fn reached_are_legal()
    ensures { ReachedAreLegal }
{}

/// A reached processor made no more steps than its budget has and retired no more instructions than it made steps, and none
/// of its entries tells more of them.
pub fn reached_are_within()
    ensures { ReachedAreWithin }
{}

/// So did each processor of a legal history.
pub fn legal_are_within()
    ensures { LegalAreWithin }
{}

/// Memory can make the access of a reference that fits its page.
pub fn references_can_be_made()
    ensures { ReferencesCanBeMade }
{}

/// And it can make what a step of Alpha code wants.
pub fn steps_can_be_made()
    ensures { StepsCanBeMade }
{}

/// A reference changes its bytes as its change does their quadword.
#[tactic(auto, using(crate::proofs::Quads::quadword_changes))]
pub fn quadword_changes()
    ensures { QuadwordChanges }
{}

/// A reference changes no other quadword.
#[tactic(auto, using(crate::proofs::Quads::other_quadwords_stay))]
pub fn other_quadwords_stay()
    ensures { OtherQuadwordsStay }
{}

/// A reference is replied what its quadword has.
#[tactic(auto, using(crate::proofs::Quads::quadword_replies))]
pub fn quadword_replies()
    ensures { QuadwordReplies }
{}

/// An access for a reference changes the reference's bytes alone.
#[tactic(auto, using(crate::proofs::Neighbours::neighbours_stay))]
pub fn neighbours_stay()
    ensures { NeighboursStay }
{}

/// The order of a history told the other way round is its order told so.
#[tactic(auto, using(crate::proofs::Orders::order_turns))]
pub fn order_turns()
    ensures { OrderTurns }
{}
