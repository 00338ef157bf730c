//! The order of the numbers of a system, its equality and its zero, determined from its language alone.
//!
//! Words of one length are in the order of their numbers, most significant digit first, so that one walk along two
//! words side by side says which number is less. Each result is canonical. That a language is that of a system is no
//! premise: the relations hold for each system whose language it is.
#![tactic(auto)]

/// Pairs of words that are read side by side.
mod pairs;

/// The order and the equality of numbers.
pub mod order;

/// The number 0.
pub mod zero;

/// Laws of orders.
pub mod laws;
