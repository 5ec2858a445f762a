// The rules behind an instruction.
ghost use Rattle.std.specs.Prelude.{◌≡◌};
ghost use Rattle.code_runs.specs.Rules.{rule_of, rule_behind, rules_behind};

use exception_records::{CodeRule, Rules};
use micro_ops::{CodeSource, CodeSources};
use vax_form::Flags;

/// The rule that tells the codes of that source from the operands; codes that are computed, and those of a new PSW, have none.
pub fn rule_of(source: CodeSource) -> CodeRule
    ensures { result ≡ rule_of source }
{
    match source {
        CodeSource::Zero => CodeRule::Zero,
        CodeSource::Result(size) => CodeRule::Result { size },
        CodeSource::Add(size) => CodeRule::Add { size },
        CodeSource::Sub(size) => CodeRule::Sub { size },
        CodeSource::Compare(size) => CodeRule::Compare { size },
        CodeSource::Kept | CodeSource::Computed(_) | CodeSource::Psw => CodeRule::Ready,
    }
}

fn rule_behind(source: CodeSource, live: bool, before: CodeRule) -> CodeRule
    ensures { result ≡ rule_behind source live before }
{
    match source {
        CodeSource::Kept => before,
        _ if live => CodeRule::Ready,
        _ => rule_of(source),
    }
}

/// The rules behind an instruction whose codes have these sources, from those that are live behind it and the rules before
/// it. A code that isn't written keeps its rule; one that is written is ready where it is live or has no rule, and else has
/// the rule of its source.
pub fn rules_behind(sources: CodeSources, live: Flags, before: Rules) -> Rules
    ensures { result ≡ rules_behind sources live before }
{
    Rules {
        n: rule_behind(sources.nzv, live.n, before.n),
        z: rule_behind(sources.nzv, live.z, before.z),
        v: rule_behind(sources.nzv, live.v, before.v),
        c: rule_behind(sources.c, live.c, before.c),
    }
}
