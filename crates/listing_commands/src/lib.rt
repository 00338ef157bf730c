//! The commands about the words that an automaton lists: `test` and `inf`. They store nothing.
//!
//! `specs/ListingOutcomes.antt` has their checks in order, `listing.rt` the code.
#![tactic(auto)]

/// Why a question about listed words has no answer.
pub mod listing_fault;

/// The commands about the words that an automaton lists.
pub mod listing;
