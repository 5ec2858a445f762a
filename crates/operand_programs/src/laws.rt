// Laws of operands that are evaluated one after the other, of how many words they count, and of what fits.
ghost use Rattle.operand_programs.specs.InOrder.{InOrder, OfInstruction, NothingAdded};
ghost use Rattle.operand_programs.specs.Knowing.{FitsBehindMore, FitsJoined};
ghost use Rattle.operand_programs.specs.Behind.{OperandFits, OperandsFit, PushFits, CommitsFit, FinishFits};
ghost use Rattle.operand_programs.specs.Registers.{SpecifiedIsNamed};
ghost use Rattle.operand_programs.specs.Rows.{RowFits};
ghost use Rattle.operand_programs.specs.Words.{OperandIsShort, OperandIsLow, ResultIsShort, ResultIsLow, ReplacementIsShort, ReplacementIsLow, PushIsShort, PushIsLow, FinishIsShort, FinishIsLow, CommitsAreLow};

/// Operands in order: each sees what the earlier ones added to the registers, and its value and address outlast the later
/// ones. What is committed is the sum of the steps. These are the operands of an instruction.
#[tactic(auto, using(crate::proofs::Ordered::in_order, crate::proofs::Ordered::of_instruction, crate::proofs::Stepped::nothing_added))]
pub fn operand_laws()
    ensures in_order { InOrder }
    ensures of_instruction { OfInstruction }
    ensures at_start { NothingAdded }
{}

/// What an operand and a push count at most, with the commits that they bring, and what a result and the end count; all
/// name the temporaries 0 to 5 alone.
pub fn word_laws()
    ensures operand_short { OperandIsShort }
    ensures operand_low { OperandIsLow }
    ensures result_short { ResultIsShort }
    ensures result_low { ResultIsLow }
    ensures replacement_short { ReplacementIsShort }
    ensures replacement_low { ReplacementIsLow }
    ensures push_short { PushIsShort }
    ensures push_low { PushIsLow }
    ensures finish_short { FinishIsShort }
    ensures finish_low { FinishIsLow }
    ensures commits_low { CommitsAreLow }
{}

/// Operations that fit behind what is known also fit where more is known, and one program fits behind another. So a
/// program needs to be looked at for the least that its operands leave known.
pub fn fitting_law()
    ensures behind_more { FitsBehindMore }
    ensures joined { FitsJoined }
{}

/// What operands leave known, at least, and what pushes and commits do. An operand that some bytes specify names the
/// registers R0 to R14 alone.
pub fn piece_laws()
    ensures named { SpecifiedIsNamed }
    ensures operand { OperandFits }
    ensures operands { OperandsFit }
    ensures push { PushFits }
    ensures commits { CommitsFit }
    ensures finish { FinishFits }
{}

/// A program made of pieces fits where that can be computed of the least that they leave known and of the most words that
/// they count, whatever its operands are.
pub fn row_law()
    ensures { RowFits }
{}
