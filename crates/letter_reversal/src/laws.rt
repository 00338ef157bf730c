//! Laws of the definitions, each a call that does nothing.

ghost use Rattle.letter_reversal.specs.Laws.{LetterReversalsHaveOneOutcome};

/// The step has one outcome, unless memory runs out.
pub fn letter_reversals_have_one_outcome()
    ensures { LetterReversalsHaveOneOutcome }
{}
