//! The steps by which an expression becomes an automaton: over sets the step `regex` alone, over
//! numeration systems the steps `regex`, `pad` and `valid`.
#![tactic(auto)]

/// The step `regex`.
pub mod regex_step;

/// The three steps over numeration systems.
pub mod relation_steps;

/// Laws of the definitions.
pub mod laws;
