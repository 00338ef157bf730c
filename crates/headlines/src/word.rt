//! What the file of a word says that a command makes.

ghost use Rattle.headlines.specs.Words.{Combinations, Conversions, Images, Promotions, Transductions};

/// A `promote` that is accepted stores a file that has at each position the letter of the morphism's fixed point.
pub fn promotions()
    ensures { Promotions }
{}

/// An `image` that is accepted stores a file that has at each position the letter of the images of the old word's letters, one after another.
pub fn images()
    ensures { Images }
{}

/// A `combine` that is accepted stores a file that has at each position the letter of the first listed automaton that holds of it, or 0.
pub fn combinations()
    ensures { Combinations }
{}

/// A `transduce` that is accepted stores a file that has at each position the output that the transducer makes there of the old word's letters.
pub fn transductions()
    ensures { Transductions }
{}

/// A `convert` that is accepted stores a file over the named system that has at each position the letter that the old word has there.
pub fn conversions()
    ensures { Conversions }
{}
