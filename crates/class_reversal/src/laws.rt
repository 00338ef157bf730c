//! Laws of the definitions, each a call that does nothing.

ghost use Rattle.class_reversal.specs.Laws.{OneReversedFunction, OneReversedWidth};

/// A reversal has one width, and is refused under no limit that this does not pass.
pub fn reversal_has_one_width()
    ensures { OneReversedWidth }
{}

/// A reversal has one result: canonical automata with the classes of the reversed words are equal, and so are their
/// classes.
pub fn reversal_has_one_result()
    ensures { OneReversedFunction }
{}
