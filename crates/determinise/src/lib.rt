//! Deterministic automata made from nondeterministic ones, whose states are sets of states: the subset construction,
//! and the reversal.
//!
//! `determinise` gives an automaton with the language of an `Nfa` (Michael Rabin and Dana Scott, "Finite automata and
//! their decision problems"). `reverse` gives one that accepts the reversed words of a `Dfa`: it drops the states that
//! no word leads to (`trimmed`), reverses the transitions, and makes the sets. These sets are then the residuals of the
//! reversed language (Janusz Brzozowski, "Canonical regular expressions and minimal state graphs for definite events"),
//! so the width of `reverse` is the number of residuals, whatever the automaton.
//!
//! The empty set is no state: a letter that leads to it has no transition. The width counts it where a word leads to
//! it. No result is minimised here, or said to be minimal.
//!
//! `explore_subsets` chooses how a set is kept: as bits where the automaton has at most 512 states and many
//! transitions, else as a list of its states. Transitions from a set are not compared to put them in order: they are
//! gathered as bits of all letters together, or marked by their numbers, or gathered letter by letter. The result is
//! the same each way. There may be 2^n sets of n states; the limit on the width ends the construction. Not proved: time
//! and memory, and that the way that is chosen is the cheapest.
#![tactic(auto)]

/// The sets of states that words lead to, as a graph of keys.
pub mod subsets;

/// Sets of numbers as bits.
pub mod bit_words;

/// Transitions as rows of bits.
pub mod bit_rows;

/// The numbers whose bits are set.
pub mod bit_members;

/// Numbers put in order by their bits.
pub mod number_set;

/// Transitions put in order by their numbers.
pub mod transition_numbers;

/// Transitions put in order by their letters and targets.
pub mod transition_order;

/// The sets of states that words lead to, as bits.
pub mod bit_subsets;

/// The sets of states that words lead to, as lists, with transitions from rows of bits.
pub mod row_subsets;

/// The exploration of sets of states.
pub mod subset_exploration;

/// The subset construction.
pub mod subset_construction;

/// Automata without the states that no word leads to.
pub mod trimmed;

/// The reversal of a deterministic automaton.
pub mod reversal;

/// Laws of widths.
pub mod laws;
