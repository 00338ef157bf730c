//! The reversal of a function from words to classes: which class a word gets that is read from its last letter on.
#![tactic(auto)]

/// Where letters lead, letter by letter.
pub mod targets;

/// The classes that words have from each state, as a graph of keys.
mod backward_classes;

/// The reversal of a function whose states words lead to.
pub mod reached;

/// The reversal of a function.
pub mod reversal;

/// Laws of the definitions.
pub mod laws;
