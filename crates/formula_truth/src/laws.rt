//! Laws of truth, each a call that does nothing.

ghost use Rattle.formula_truth.specs.Laws.{FreeVariablesMatter, MeaningsMatter};

/// Truth depends on what names mean, and not on how that is reported.
pub fn meanings_matter()
    ensures { MeaningsMatter }
{}

/// Truth depends on the numbers of the free variables alone.
pub fn free_variables_matter()
    ensures { FreeVariablesMatter }
{}
