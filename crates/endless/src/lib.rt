//! Whether a language has words longer than any number: whether the transitions of its automaton have a cycle.
#![tactic(auto)]

/// States in order, and cycles.
pub mod sorting;

/// Whether a language has an end.
pub mod endless;
