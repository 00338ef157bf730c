//! Numeration systems: words of a language represent their ranks.
//!
//! Here are the definitions that all systems share, words and their ranks, representations of tuples of numbers and
//! what an automaton holds of, with their laws; no automaton is made.
#![tactic(auto)]

/// What a numeration system gives, and its laws.
pub mod num_system;

/// Laws of the definitions.
pub mod laws;
