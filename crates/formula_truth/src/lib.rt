//! The truth of formulas over the natural numbers, with what names mean as a parameter. `specs/` has
//! the definitions: the values of terms, truth by cases on the syntax, free variables. No digit,
//! system or automaton is named there.
//!
//! A slow program decides formulas without words and calls whose quantifiers range over the numbers
//! below a bound, so that rows from outside can test the definitions.
#![tactic(auto)]

// why a formula is not decided
mod fault;

// numbers given to variables
mod given;

// the values of terms
mod evaluation;

// what atoms say, and connectives
mod facts;

// formulas whose quantifiers are bounded
mod deciding;

/// Laws of truth.
pub mod laws;

pub use deciding::holds_below;
pub use fault::Undecided;
pub use given::Given;
