//! The step `reverse` of automatic words: the letters of words that are read from their last letter on.
#![tactic(auto)]

/// The step `reverse` of automatic words.
pub mod letter_reversal;

/// Laws of the definitions.
pub mod laws;
