//! Plain slow programs, each of which computes one definition on small inputs. They show that the definition says
//! what rows from outside say.
#![tactic(auto)]

/// Words of letters, and all of a length.
pub mod words;

/// Tuples, and the words of tuples that words of letters denote.
pub mod tuples;

/// Trees of expressions.
pub mod tree;

/// Whether a word of tuples matches an expression.
pub mod matching;
