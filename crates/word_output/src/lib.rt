//! Automatic words: the letters at positions, as an automaton that gives letters to words that represent positions. A position
//! may have no letter.
//!
//! A `LetterFunction` is a function from words to letters, as its minimal automaton with outputs (a DFAO: Jean-Paul
//! Allouche and Jeffrey Shallit, "Automatic Sequences"), but that letters may be missing. Each function has one
//! (`letter_functions_are_equal`). Each state has a class, and class 0 has no letter. A `Word` is such a function with
//! sealed systems: all representations of a position, a tuple of numbers, have the same letter, or all have none.
//!
//! `read_word_steps` makes a word of what a file lists, by the steps `read`, `pad` and `valid`. `letter_set` gives the
//! automaton of the words whose letter compares with a given one, without a step, and `pair_step` that of the words in
//! which the letters of two functions compare. `laws.rt` says what they hold of.
//!
//! The letter of a position is that of its representation without leading zeros; what a file lists for longer ones is
//! ignored. So `pad_letters` is not the `pad` of a language: it gives each word the letter of the word without these
//! zeros. No comparison holds of a missing letter, not even `Unequal`. In `pair_step` names may repeat: tracks of one
//! name become one track before the step.
//!
//! The width of `read` counts the listed states that words lead to; those of the other steps count words by the letters
//! that follow them, and `valid` by the residuals of the languages too. Time and memory of a step follow its width, the
//! letters and the transitions. `Word::value` takes no memory. Not proved: time and memory.
#![tactic(auto)]

/// The letters of the states of an automaton.
mod state_letters;

/// Automata that give words letters.
pub mod letter_function;

/// The letters of keys that begin with a state.
mod head_letters;

/// Letters without trailing zeros.
mod lsd_letters;

/// Letters without leading zeros.
mod msd_letters;

/// The letters that a word's file lists.
pub mod letter_reading;

/// Letters without the zeros at the end of the most significant letters.
pub mod letter_padding;

/// The letters of valid words.
pub mod valid_letters;

/// Automatic words.
pub mod word;

/// Automatic words read from what files list.
pub mod word_reading;

/// The positions whose letters compare with a given one.
pub mod letter_set;

/// Letters read on tracks that have names.
pub mod placed_letters;

/// Pairs of letters of one word.
mod letter_pairs;

/// Two words whose letters are compared.
pub mod pair;

/// Laws of automatic words.
pub mod laws;
