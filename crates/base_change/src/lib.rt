//! Automatic words over a base that is another power of the same integer: the least root of two bases, and the steps
//! `split` and `join` on letter functions, which have the same letters at the same positions. Both read the least
//! significant digit first.
#![tactic(auto)]

/// The least root of two bases.
pub mod related;

/// The numbers of digits, and where the digits of numbers lead.
mod digits;

/// The keys of the step `split`.
mod split_keys;

/// The keys of the step `join`.
mod join_keys;

/// The letters of keys.
mod key_letters;

/// From a base to its root.
pub mod split;

/// From a base to its powers.
pub mod join;

/// Copies of letter functions.
mod copied;

/// The word of another word's letters over a related base.
pub mod conversion;

/// Laws of the definitions.
pub mod laws;
