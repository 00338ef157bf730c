//! Complements of canonical automata among valid words, and their parts on these.
//!
//! A word is valid if on each track its word is in the track's language: `complement_in` gives the valid words that are
//! not accepted, `valid_part` those that are. Both results are canonical. The automaton is read side by side with the
//! languages of all tracks (`product_op`). The width counts the tuples of residuals that words lead to, the empty residual
//! too, so it depends on the languages alone. Not proved: time and memory.
#![tactic(auto)]

/// Complements among valid words, and parts on these.
pub mod valid_words;

/// The law of widths.
pub mod laws;
