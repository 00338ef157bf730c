//! What is asked of the words that an automaton lists, and what is answered.

use place_text::Place;

/// So many words: the first ones, or the first ones after a place.
#[derive(Drop)]
pub struct WordsAfter {
    /// The place, if there is one.
    pub place: Option<Place>,
    /// How many words.
    pub count: u64,
}

/// A question about listed words.
#[derive(Drop)]
pub enum Question {
    /// Which ones these are.
    Words(WordsAfter),
    /// Whether there are infinitely many.
    Infinity,
}

/// Its answer.
#[derive(Drop)]
pub enum Answer {
    /// The lines of the words.
    Lines(Vec<u8>),
    /// Whether there are infinitely many.
    Verdict(bool),
}
