//! Laws of the definitions, each a call that does nothing.

ghost use Rattle.word_walk.specs.Following.{WalksCompose, NextWordsAreOne};
ghost use Rattle.word_walk.specs.Walks.{NextWordsAreNear};

/// The next word, and the next ones after it, are the next ones, one more.
pub fn walks_compose()
    ensures { WalksCompose }
{}

/// There is one list of the next words, so many or all.
pub fn next_words_are_one()
    ensures { NextWordsAreOne }
{}

/// A next word is longer than the place by at most twice the number of states.
pub fn next_words_are_near()
    ensures { NextWordsAreNear }
{}
