//! What `TRUE` and `FALSE` say, of one command.

ghost use Rattle.headlines.specs.Verdicts.{Verdicts};
ghost use Rattle.headlines.specs.PlainVerdicts.{PlainVerdicts};

/// An `eval` or a `def` that is accepted and prints `TRUE` has a formula that is true whatever numbers its variables have, and one that
/// prints `FALSE` a formula that is false whatever they have. Names mean what they were bound to when it was answered.
pub fn verdicts()
    ensures { Verdicts }
{}

/// The same of a sentence without names, that is, without `#`, `$` and `[`. What it says rests on truth and on the grammar alone.
pub fn plain_verdicts()
    ensures { PlainVerdicts }
{}
