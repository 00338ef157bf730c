//! The Fibonacci numeration system: each number is a sum of some of the weights 1, 2, 3, 5, .. of which no two are side
//! by side.
//!
//! The adder is explored from the most significant digit on, where a few numbers say what the digits read so far leave
//! to those to come. With the least significant digit first it is the reversal of that one.
#![tactic(auto)]

/// Additions, as a graph of keys.
mod additions;

/// Automata of the system: its words, and its additions.
mod automata;

/// The system, in both directions.
pub mod fib;

/// Laws of the system.
pub mod laws;
