//! What `test` and `inf` print.

ghost use Rattle.headlines.specs.Listings.{Infinities, Tests};

/// A `test` that is accepted prints the first words, in order and each once, that the automaton lists after the place, and changes no file.
pub fn tests()
    ensures { Tests }
{}

/// An `inf` that is accepted prints `TRUE` if and only if the automaton lists infinitely many words, else `FALSE`, and changes no file.
pub fn infinities()
    ensures { Infinities }
{}
