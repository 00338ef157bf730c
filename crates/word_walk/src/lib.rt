//! The words that an automaton accepts, one after another in shortlex order: shorter words first, and words of one length
//! letter by letter.
//!
//! A walk keeps how far each state is from acceptance, which one search backwards finds when the walk is made: 4 bytes for
//! each state. Of a word that is no longer than the shortest one from a state that decides all, so a walk through words of
//! the least length needs no more. Where a longer word is looked at, it keeps a level for each length up to that of the
//! longest: the states from which a word of this length is accepted. Where these are at most an eighth of all states, a
//! level is their list, 4 bytes for each, else a byte for each state. The level after a list is made from the transitions
//! that lead to its states, if these are at most an eighth of the states too; any other takes one look at each transition.
//! For the former the automaton is reversed, once.
//!
//! To make a walk takes the time that it takes to minimise the automaton, and to search it. Then a word takes time in
//! proportion to its length and to the transitions of the states that it leads through, and the levels that it is the
//! first one to need. Memory goes with the number of states while words have the least length; for longer ones with
//! the number of pairs of a state and a length of which a word is accepted from it, and never with the number of words.
//! Not proved: the costs, and that the search finds the distances: they are compared with the transitions, and where they
//! did not fit, levels would do for them.
#![tactic(auto)]

/// Laws of the definitions.
pub mod laws;

/// The automaton of the listed words.
mod listed_words;

/// Few of the states of an automaton, as a list.
mod few_states;

/// The states from which transitions lead to some states.
mod sources;

/// The states from which a word of one length is accepted.
mod level;

/// How many letters a shortest accepted word has, from each state.
mod distances;

/// An automaton with its distances and levels.
mod listing;

/// Walks through words.
pub mod walk;

/// Whether infinitely many words are listed.
pub mod infinity;
