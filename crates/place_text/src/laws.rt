//! Laws of the definitions, each a call that does nothing.

ghost use Rattle.place_text.specs.Laws.{OneAnswer};

/// Reading a text has one answer, where memory is left.
pub fn one_answer()
    ensures { OneAnswer }
{}
