//! Answers about the words that an automaton lists: the lines of so many words after a place, and whether there are infinitely
//! many.
//!
//! A place has the digits of its letters, and need be no word that is listed. `is_asked_on` says whether it is a word over the
//! tracks at all.
#![tactic(auto)]

// questions and their answers
mod question;
// places on tracks
mod on_tracks;
// answers about listed words
mod answering;
// laws of the definitions
mod laws;

pub use answering::{LINES_LIMIT, answer};
pub use laws::{equal_lists_have_one_answer, listed_places_are_words};
pub use on_tracks::is_asked_on;
pub use question::{Answer, Question, WordsAfter};
