//! Laws of single numbers, each a call that does nothing.

ghost use Rattle.constants.specs.ConstantWidth.{ConstantAlikeIsEquivalence, OneConstantWidth, ConstantWidthExcludes};

/// Words that the representations of a number do not distinguish are of one kind: they are alike as equals are.
pub fn kinds_are_classes()
    ensures { ConstantAlikeIsEquivalence }
{}

/// The width of a number is one number.
pub fn constant_has_one_width()
    ensures { OneConstantWidth }
{}

/// Where a number has a width, no more words than that are apart: so it is never refused under a limit
/// that the width is within.
pub fn width_excludes_refusal()
    ensures { ConstantWidthExcludes }
{}
