//! Laws of what plans make, each a call that does nothing.

ghost use Rattle.plan_relations.specs.Laws.{OneMade, PlansHold};

/// A plan makes one relation.
pub fn one_made()
    ensures { OneMade }
{}

/// What a plan makes is a relation that holds of the numbers of which the plan says it.
pub fn plans_hold()
    ensures { PlansHold }
{}
