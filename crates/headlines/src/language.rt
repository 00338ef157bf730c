//! What the file of a language says that a command makes of others.

ghost use Rattle.headlines.specs.Languages.{Languages};

/// A `union`, `intersect`, `concat`, `star` or `reverse` that is accepted stores a file that accepts exactly the words of the language that the
/// operation makes of those of its automata.
pub fn languages()
    ensures { Languages }
{}
