//! What the file of a definition says.

ghost use Rattle.headlines.specs.Solutions.{Solutions};

/// A `def` that is accepted stores a file that accepts exactly the representations of the numbers for which its formula is true, padded or not;
/// or, of a sentence, its truth. No other file changes.
pub fn solutions()
    ensures { Solutions }
{}
