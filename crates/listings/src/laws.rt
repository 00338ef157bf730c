//! Laws of the definitions, each a call that does nothing.

ghost use Rattle.listings.specs.Listings.{ListingsAreOne, ListingsAreOver, SameListsHaveSameLines, WordsHaveTuples};

/// A word over tracks is the word of its tuples.
pub fn words_have_tuples()
    ensures { WordsHaveTuples }
{}

/// The words of a listing are over the automaton's letters.
pub fn listings_are_over()
    ensures { ListingsAreOver }
{}

/// Lines within the bounds have no more bytes than that, and are the only ones.
pub fn listings_are_one()
    ensures { ListingsAreOne }
{}

/// Lists of the same words have the same lines.
pub fn same_lists_have_same_lines()
    ensures { SameListsHaveSameLines }
{}
