//! The word that several relations make together: its letter at numbers is the value of the first relation
//! in a list that holds of them. Where none does, it is one letter that is given, or there is no letter.
#![tactic(auto)]

/// Relations in a list, each with its letter.
pub mod part;

/// The tracks of relations in a list.
mod shape;

/// The letters of tuples of states.
mod held_letters;

/// Why relations make no word.
pub mod combine_fault;

/// Words of several relations.
pub mod combine;

/// Laws of such words.
pub mod laws;
