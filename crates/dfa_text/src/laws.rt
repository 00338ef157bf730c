//! Laws of the definitions, each a call that does nothing.

ghost use Rattle.dfa_text.specs.RelationLaws.{TextAcceptsWords, TextAcceptsOnlyCodes, EqualLanguagesHaveEqualTexts, EqualTextsHaveEqualLanguages};
ghost use Rattle.dfa_text.specs.Lists.{TextListsAutomaton, TextListsWord, EqualTextsHaveEqualWords};

/// The text of an automaton over sets, read as a file, accepts a word of tuples if and only if the automaton accepts
/// the word of their letters, and no word of anything else.
pub fn text_accepts_as_automaton()
    ensures words { TextAcceptsWords }
    ensures only { TextAcceptsOnlyCodes }
{}

/// The text of an automaton over sets, or over systems of one direction, is a file that lists the automaton: its header, its
/// states in order with the output 1 where they accept and 0 where they do not, and its transitions.
pub fn text_lists_automaton()
    ensures { TextListsAutomaton }
{}

/// The text of an automaton with outputs over systems of one direction is a word's file that lists the automaton: its header, its
/// states in order with their outputs, and its transitions.
pub fn text_lists_word()
    ensures { TextListsWord }
{}

/// Two automata with outputs over the same systems with the same text have the same outputs, and the letters lead alike in both.
pub fn equal_texts_have_equal_words()
    ensures { EqualTextsHaveEqualWords }
{}

/// Two canonical automata over the same tracks with the same language have the same text over a header.
pub fn equal_languages_have_equal_texts()
    ensures { EqualLanguagesHaveEqualTexts }
{}

/// Two automata over sets with the same text have the same sets and the same language.
pub fn equal_texts_have_equal_languages()
    ensures { EqualTextsHaveEqualLanguages }
{}
