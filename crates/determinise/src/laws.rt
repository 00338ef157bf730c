//! Laws of widths, each a call that does nothing.

ghost use Rattle.determinise.specs.OneWidth.{OneSubsetWidth, OneReversalWidth};

/// A subset construction has one width, and is refused under no limit that this does not pass.
pub fn subset_construction_has_one_width()
    ensures { OneSubsetWidth }
{}

/// A reversal has one width, and is refused under no limit that this does not pass.
pub fn reversal_has_one_width()
    ensures { OneReversalWidth }
{}
