//! Single numbers of a numeration system: their words, and the automata of their representations.
#![tactic(auto)]

/// How many words of a length there are at each state of an automaton.
mod word_counts;

/// What the most significant digits of a word lead to.
mod prefix;

/// The word that represents a number.
pub mod representation;

/// Automata of the paddings of one word.
mod word_automaton;

/// The automaton of one number.
pub mod constant;

/// Laws of single numbers.
pub mod laws;
