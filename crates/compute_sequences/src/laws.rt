// What holds of every computation.
ghost use Rattle.compute_sequences.specs.Bounds.{ComputedFits};

/// What is computed fits the size, and a quadword where the sign is extended: so it can be computed with again.
#[tactic(auto, using(crate::proofs::Bounded::computed_fits))]
pub fn compute_laws()
    ensures fits { ComputedFits }
{}
