//! Laws of the definitions, each a call that does nothing.

ghost use Rattle.language_steps.specs.Laws.{LanguagesHaveOneOutcome};

/// The steps of a language command have one answer, unless memory runs out.
pub fn languages_have_one_outcome()
    ensures { LanguagesHaveOneOutcome }
{}
