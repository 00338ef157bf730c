//! The text of a place in a list of words: the letters of a word, one after another, `[d1,..,dm]` with a digit for each
//! track, and `[]` for the empty word. A text is read by this grammar, or the first fault is reported with its byte.
#![tactic(auto)]

// faults of a place's text
mod fault;
// letters, a digit for each track
mod letter;
// places: words of letters
mod place;
// what the text of a place is made of
mod lexeme;
// the lexeme at a byte
mod lexing;
// reading a place lexeme by lexeme
mod stage;
// laws of the definitions
pub mod laws;

pub use fault::PlaceFault;
pub use letter::Letter;
pub use place::Place;
