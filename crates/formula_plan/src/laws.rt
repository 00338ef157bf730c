//! Laws of plans, each a call that does nothing.

ghost use Rattle.formula_plan.specs.Laws.{PlansMean, TreesAreLinear};

/// The relation that the plan of a formula makes holds of the numbers for which the formula is true.
/// For `A` it must be decided of all numbers whether a part holds of them, as it is by automata.
pub fn plans_mean()
    ensures { PlansMean }
{}

/// The tree of a formula that is read has products with at most one factor that is no numeral.
pub fn trees_are_linear()
    ensures { TreesAreLinear }
{}
