//! Laws of the definitions, each a call that does nothing.

ghost use Rattle.digit_tuple.specs.Letters.{LettersDetermineDigits, DigitsHaveLetters, LettersHaveDigits};
ghost use Rattle.digit_tuple.specs.Tuples.{TuplesDetermineLetters, LettersDetermineTuples, LettersHaveTuples};
ghost use Rattle.digit_tuple.specs.ExploredWidth.{LeadAlikeIsEquivalence, OneExploredWidth};

/// Two lists of digits on the same tracks with the same letter are equal.
pub fn letters_determine_digits()
    ensures { LettersDetermineDigits }
{}

/// Digits have a letter of their alphabet.
pub fn digits_have_letters()
    ensures { DigitsHaveLetters }
{}

/// Each letter of an alphabet has digits.
pub fn letters_have_digits()
    ensures { LettersHaveDigits }
{}

/// A tuple has at most one letter.
pub fn tuples_determine_letters()
    ensures { TuplesDetermineLetters }
{}

/// A letter denotes at most one tuple.
pub fn letters_determine_tuples()
    ensures { LettersDetermineTuples }
{}

/// Each letter of the alphabet denotes a tuple.
pub fn letters_have_tuples()
    ensures { LettersHaveTuples }
{}

/// Words that lead to one key, or to none, are of one kind: they are alike as equals are.
pub fn kinds_are_classes()
    ensures { LeadAlikeIsEquivalence }
{}

/// An exploration has one width, and is refused under no limit that this does not pass.
pub fn exploration_has_one_width()
    ensures { OneExploredWidth }
{}
