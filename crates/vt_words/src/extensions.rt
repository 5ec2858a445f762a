// Laws of numbers that fit a size, as quadwords.
ghost use Rattle.vt_words.specs.Extensions.{FitsByExtension, ExtendsToQuad, HasLowBytes, SumsAsQuads, DifferencesAsQuads, ProductsAsQuads};

/// An integer fits so many bytes exactly where the extension of its low bytes is itself.
#[tactic(auto, using(crate::proofs::Extended::fits_byte, crate::proofs::Extended::fits_word, crate::proofs::Extended::fits_long, crate::proofs::Extended::extends_byte, crate::proofs::Extended::extends_word, crate::proofs::Extended::extends_long, crate::proofs::Extended::low_byte, crate::proofs::Extended::low_word, crate::proofs::Extended::low_long))]
pub fn extension_laws()
    ensures byte { FitsByExtension 1 }
    ensures word { FitsByExtension 2 }
    ensures long { FitsByExtension 4 }
    ensures byte_extended { ExtendsToQuad 1 }
    ensures word_extended { ExtendsToQuad 2 }
    ensures long_extended { ExtendsToQuad 4 }
    ensures low_byte { HasLowBytes 1 }
    ensures low_word { HasLowBytes 2 }
    ensures low_long { HasLowBytes 4 }
{}

/// Sums, differences and products of integers, as two's complement quadwords.
#[tactic(auto, using(crate::proofs::Extended::sums, crate::proofs::Extended::differences, crate::proofs::Extended::products))]
pub fn quadword_laws()
    ensures sums { SumsAsQuads }
    ensures differences { DifferencesAsQuads }
    ensures products { ProductsAsQuads }
{}
