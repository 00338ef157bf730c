//! Laws of relations, on tuples of numbers, each a call that does nothing.

ghost use Rattle.number_relations.specs.Laws.{ComparisonsHold, NumbersHold, OneAnyNumber, OneComparison, OnePlaced, OneSum, PlacedHolds, RelationsAreDecided, SumsHold, TuplesDetermineRelations};

/// Whether a relation holds of a tuple is decided.
pub fn relations_are_decided()
    ensures { RelationsAreDecided }
{}

/// Relations over the same tracks that hold of the same tuples are equal.
pub fn tuples_determine_relations()
    ensures { TuplesDetermineRelations }
{}

/// A placed automaton holds of numbers where it holds of those that its tracks have under their names.
pub fn placed_holds()
    ensures holds { PlacedHolds }
    ensures one { OnePlaced }
{}

/// A comparison holds of numbers where they compare so.
pub fn comparisons_hold()
    ensures holds { ComparisonsHold }
    ensures one { OneComparison }
{}

/// A sum holds of numbers of which the third is the sum of the others.
pub fn sums_hold()
    ensures holds { SumsHold }
    ensures one { OneSum }
{}

/// Any number is one of the numbers.
pub fn numbers_hold()
    ensures holds { NumbersHold }
    ensures one { OneAnyNumber }
{}
