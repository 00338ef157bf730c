//! Laws of the words that relations make together, each a call that does nothing.

ghost use Rattle.combinations.specs.Laws.{CombinationsHaveOneOutcome, TuplesHaveCombinedLetters, TuplesHaveOneCombinedLetter};

/// Relations have one combined letter at most at each tuple of numbers, and one where there is a letter for the rest.
pub fn tuples_have_one_combined_letter()
    ensures some { TuplesHaveCombinedLetters }
    ensures one { TuplesHaveOneCombinedLetter }
{}

/// Relations make one word, or are refused by one fault, unless memory runs out.
pub fn combinations_have_one_outcome()
    ensures { CombinationsHaveOneOutcome }
{}
