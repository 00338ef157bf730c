//! The law of widths, a call that does nothing.

ghost use Rattle.validity.specs.OneWidth.{OneValidityWidth};

/// A complement among valid words and a valid part have one width, and are refused under no limit
/// that this does not pass.
pub fn validity_has_one_width()
    ensures { OneValidityWidth }
{}
