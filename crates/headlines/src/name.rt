//! What a name means in a formula.

ghost use Rattle.headlines.specs.Names.{Names};

/// A name that a formula calls or indexes means the definition that is under it when the command is answered.
pub fn names()
    ensures { Names }
{}
