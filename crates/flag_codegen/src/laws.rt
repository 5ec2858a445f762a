// By which rules the codes are told behind an instruction, whichever there were before.
ghost use Rattle.flag_codegen.specs.Promises.{RulesAreAnswered};

/// Behind an instruction each code that it writes has the rule that is answered with its words, whatever the rules before; the
/// others keep theirs.
pub fn rule_law()
    ensures { RulesAreAnswered }
{}
