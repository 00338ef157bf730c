//! Laws of the words that definitions list, each a call that does nothing.

ghost use Rattle.definitions.specs.ListingLaws.{AutomataListTheirWords, RelationsListShortestWords, SentencesListTheEmptyWord, TextsListAsTheirTrees};

/// The text of a definition that may be among automata, read as a file, lists the words that the definition lists.
pub fn texts_list_as_their_trees()
    ensures { TextsListAsTheirTrees }
{}

/// The automaton of a relation, without the words whose most significant letter is zero, lists the shortest words of the tuples
/// of which the relation holds.
pub fn relations_list_shortest_words()
    ensures { RelationsListShortestWords }
{}

/// An automaton over sets lists the words that it accepts.
pub fn automata_list_their_words()
    ensures { AutomataListTheirWords }
{}

/// Where there are no systems, the empty word alone is listed, or none.
pub fn sentences_list_the_empty_word()
    ensures { SentencesListTheEmptyWord }
{}
