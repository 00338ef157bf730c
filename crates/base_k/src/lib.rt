//! Numeration systems in base k.
#![tactic(auto)]

/// Automata of base k: the words over its digits, and additions with their carries.
mod automata;

/// The systems, one for each base and direction.
pub mod base_k;

/// Laws of base k.
pub mod laws;
