//! What holds of the expansions of all texts.

ghost use Rattle.macro_expand.specs.Laws.{GivesPlainTexts, KeepsPlainTexts, OneAnswer};

/// A text of at most 65,536 bytes without `#` is its own expansion.
pub fn keeps_plain_texts()
    ensures { KeepsPlainTexts }
{}

/// A macro's text without `#` and `%` is in the place of its call without arguments, among bytes without `#`, where all
/// is at most 65,536 bytes.
pub fn gives_plain_texts()
    ensures { GivesPlainTexts }
{}

/// The expansion of a text has one answer, where memory is left.
pub fn one_answer()
    ensures { OneAnswer }
{}
