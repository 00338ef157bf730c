//! Laws of automatic words, each a call that does nothing.

ghost use Rattle.word_output.specs.Laws.{LetterSetsHold, OneLetterSet, PairsHaveOneOutcome, PairsHold, PlacesHaveOneLetter, WordReadingsHaveOneOutcome, LettersDetermineWords, WordsHaveListedLetters};
ghost use Rattle.word_output.specs.LetterFunctions.{LetterFunctionsAreEqual};

/// Letter functions over the same tracks that give each word the same letter are equal.
pub fn letter_functions_are_equal()
    ensures { LetterFunctionsAreEqual }
{}

/// A word that is read has at each position the letter that is listed there.
pub fn words_have_listed_letters()
    ensures { WordsHaveListedLetters }
{}

/// Each position has one letter at most.
pub fn places_have_one_letter()
    ensures { PlacesHaveOneLetter }
{}

/// Words over the same systems are equal if they have the same letters at the same positions.
pub fn letters_determine_words()
    ensures { LettersDetermineWords }
{}

/// The automaton of a set of letters holds of the positions that have such a letter, and is the only one that is
/// canonical.
pub fn letter_sets_hold()
    ensures holds { LetterSetsHold }
    ensures one { OneLetterSet }
{}

/// The automaton of a pair of words holds of the numbers for which both have letters that compare so.
pub fn pairs_hold()
    ensures { PairsHold }
{}

/// The step of a pair of words has one outcome, unless memory runs out.
pub fn pairs_have_one_outcome()
    ensures { PairsHaveOneOutcome }
{}

/// The reading of a word has one outcome, unless memory runs out.
pub fn word_readings_have_one_outcome()
    ensures { WordReadingsHaveOneOutcome }
{}
