//! How many instructions can be reached in a generated image. Its function does nothing.
#![tactic(auto)]

ghost use Rattle.generated_flow.specs.Few.{NeverTooMany, ReachesFew};

/// In the image that is generated for a number, at most five instructions more than that can be reached: so its flow is never
/// refused.
pub fn reaches_few()
    ensures few { ReachesFew }
    ensures accepted { NeverTooMany }
{}
