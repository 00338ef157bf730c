//! Laws of what the plans of formulas make, each a call that does nothing.

ghost use Rattle.formula_build.specs.Laws.{FormulasHold};
ghost use Rattle.formula_build.specs.OneBuilding.{OneBuilding};

/// What the plan of a formula makes holds of the numbers for which the formula is true.
pub fn formulas_hold()
    ensures { FormulasHold }
{}

/// The steps of a plan have one outcome, apart from out of memory, whichever of two libraries that agree is used.
pub fn one_building()
    ensures { OneBuilding }
{}
