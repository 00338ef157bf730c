//! Laws of the definitions.

ghost use Rattle.reg_steps.specs.Laws.{StepsMakeTheRelation, OneRelation, RegexHasOneOutcome, RelationHasOneAnswer};

/// The steps over numeration systems make the automaton of the representations of the tuples of which some
/// representation matches the expression.
pub fn steps_make_the_relation()
    ensures { StepsMakeTheRelation }
{}

/// An expression over numeration systems has one such automaton.
pub fn one_relation()
    ensures { OneRelation }
{}

/// The step `regex` has one outcome.
pub fn regex_has_one_outcome()
    ensures { RegexHasOneOutcome }
{}

/// The steps over numeration systems have one answer.
pub fn relation_has_one_answer()
    ensures { RelationHasOneAnswer }
{}
