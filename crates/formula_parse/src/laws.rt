//! Laws of the grammar.

ghost use Rattle.formula_parse.specs.OneAnswer.{OneAnswer, OneTree};

/// No text has two trees. The call does nothing.
pub fn one_tree()
    ensures { OneTree }
{}

/// A text has one answer, where memory does not run out: one tree, or one fault at one byte. The call
/// does nothing.
pub fn one_answer()
    ensures { OneAnswer }
{}
