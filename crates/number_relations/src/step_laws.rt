//! Laws of the relations that steps make, each a call that does nothing.

ghost use Rattle.number_relations.specs.StepLaws.{ComplementsAreRelations, ComplementsHold, ConstantsAreRelations, ConstantsHold, JoinsAreRelations, JoinsHold, MultiplesHold, ProjectionsAreRelations, ProjectionsHold, ReadingHasOneAnswer, ReadingsAreRelations, ReadingsHold, RelationComplementHasOneOutcome, RelationConstantHasOneOutcome, RelationJoinHasOneOutcome, RelationProjectHasOneOutcome, StepsMakeMultiples};

/// A join holds of numbers as its connective says of the relations on those of their tracks. The step has
/// one outcome.
pub fn joins_hold()
    ensures holds { JoinsHold }
    ensures relation { JoinsAreRelations }
    ensures one { RelationJoinHasOneOutcome }
{}

/// A complement holds of the numbers of which the relation does not hold. The step has one outcome.
pub fn complements_hold()
    ensures holds { ComplementsHold }
    ensures relation { ComplementsAreRelations }
    ensures one { RelationComplementHasOneOutcome }
{}

/// A projection holds of numbers that some number on the dropped track completes to numbers of which the
/// relation holds. The step has one outcome.
pub fn projections_hold()
    ensures holds { ProjectionsHold }
    ensures relation { ProjectionsAreRelations }
    ensures one { RelationProjectHasOneOutcome }
{}

/// A constant holds of its number alone. The step has one outcome.
pub fn constants_hold()
    ensures holds { ConstantsHold }
    ensures relation { ConstantsAreRelations }
    ensures one { RelationConstantHasOneOutcome }
{}

/// A multiple holds of two numbers where the one is so many times the other. The steps of its factor make
/// it.
pub fn multiples_hold()
    ensures holds { MultiplesHold }
    ensures steps { StepsMakeMultiples }
{}

/// A relation that was read holds of the numbers of which some representation is accepted by the listed automaton. Its
/// steps have one answer.
pub fn readings_hold()
    ensures holds { ReadingsHold }
    ensures relation { ReadingsAreRelations }
    ensures one { ReadingHasOneAnswer }
{}
