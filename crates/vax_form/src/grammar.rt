// Laws of the grammar of instructions.
ghost use Rattle.vax_form.specs.GrammarLaws.{Decided, DecidedOnce, ReadBack};

/// The laws of the grammar of instructions: to read the front of a list byte by byte is to decide what the list shows,
/// and no proper prefix of a list that decides does so too.
pub fn grammar_laws()
    ensures read { ReadBack }
    ensures decided { Decided }
    ensures once { DecidedOnce }
{}
