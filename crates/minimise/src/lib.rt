//! The minimal automaton of a language, in its one numbered form.
//!
//! `canonical` gives it: its states are the residuals that words lead to, numbered in the order of the first words that
//! lead to them, and no letter leads to the empty one. So canonical automata of one language are equal (`laws`).
//! `canonical_classes` does so for a function from words to classes, `explore_canonical` for an exploration, and
//! `Tracked` names the tracks.
//!
//! `residual_classes` finds which states have one residual; here the automaton of these classes is explored from the
//! initial state's. For m transitions and b binary digits of the number of states, transitions are looked at no more than
//! m b times: this is a clause of `canonical_counted`. Not proved: the time of all that is no look, as of the
//! exploration. Where there are 2^32 - 1 residuals or more, or 2^32 transitions, the answer is out of memory.
#![tactic(auto)]

/// Laws of canonical automata.
pub mod laws;

/// States of automata with a sink.
pub mod sink;

/// The automaton whose states are classes, as a source of keys.
mod quotient;

/// The automaton of the residuals that words lead to.
mod minimal;

/// The canonical automaton of a function from words to classes.
pub mod canonical_classes;

/// The canonical automaton of a language.
pub mod canonical;

/// The exploration, made canonical.
pub mod canonical_exploration;

/// Canonical automata whose tracks have names.
pub mod tracked;

/// Whether automata are canonical, and whether canonical ones have one language.
pub mod comparison;
