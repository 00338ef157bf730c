//! Laws of automata that hold of relations, each a call that does nothing.

ghost use Rattle.num_system.specs.Links.{ProductsHold, ComplementsHold, ValidPartsHold, ValidPartsRepresent, ProjectionsHold, SentencesHold};

/// A product of automata that hold of relations holds of what its connective says of them.
pub fn products_hold()
    ensures { ProductsHold }
{}

/// A complement among the valid words holds of the tuples of which the relation does not hold.
pub fn complements_hold()
    ensures { ComplementsHold }
{}

/// The valid part of an automaton that holds of a relation holds of it.
pub fn valid_parts_hold()
    ensures { ValidPartsHold }
{}

/// The valid part of an automaton for which leading zeros change nothing holds of the tuples of which it accepts some
/// representation.
pub fn valid_parts_represent()
    ensures { ValidPartsRepresent }
{}

/// A projection holds of the tuples that some number completes to one of which the relation holds.
pub fn projections_hold()
    ensures { ProjectionsHold }
{}

/// An automaton without tracks accepts the empty word if and only if its sentence is true.
pub fn sentences_hold()
    ensures { SentencesHold }
{}
