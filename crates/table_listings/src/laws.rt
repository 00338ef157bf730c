//! Laws of the definitions, each a call that does nothing.

ghost use Rattle.table_listings.specs.Laws.{EqualListsHaveOneAnswer, ListedPlacesAreWords};

/// Lists of the same words have one answer, or none within the limit.
pub fn equal_lists_have_one_answer()
    ensures { EqualListsHaveOneAnswer }
{}

/// A place is on the tracks if and only if it is a word over them.
pub fn listed_places_are_words()
    ensures { ListedPlacesAreWords }
{}
