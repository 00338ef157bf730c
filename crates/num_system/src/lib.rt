//! Numeration systems made from their languages: sealed systems, whose laws are known.
//!
//! `seal` and `seal_built_in` make a `System` of a `NumSystem` (a trait of `numeration`): the minimal automata of its
//! language and adder, and of the order, the equality, the successor and 0 of its numbers. That each of them is right
//! is the invariant of `System` (`IsSealed` in `specs/Sealed.antt`), so callers need no premise on it.
//!
//! A word of the language represents how many of its words without leading zeros are before it in shortlex order, its
//! own leading zeros removed. So these are abstract numeration systems (Pierre Lecomte and Michel Rigo, "Numeration
//! systems on a regular language"), but that leading zeros may be added. `number_order` determines the order, the
//! equality and 0 from the language alone. From the order the successor takes three steps: the triples x < u < y
//! (`chain_of`), the pairs x, y with such a u (`between_of`), and the pairs x < y without one (`next_of`).
//!
//! In `seal` the limits count for the step of the order and for these three: `Letters` or `States` is the fault of the
//! first that passes one. `seal_built_in` has no limit. Its system has at most 65,536 letters on three tracks; where
//! they are more than 64, the successor is made from the adder, as the sum with 1. Both ways end in one canonical
//! automaton. `laws.rt` says what relations products, complements, valid parts and projections hold of. Not proved:
//! time and memory, and which way to the successor is faster.
#![tactic(auto)]

/// What a numeration system gives, and its laws.
pub use numeration::num_system;

/// The successor of a system's numbers.
pub mod successor;

/// The successor of a system's numbers, from their adder.
mod successor_sums;

/// Steps without a limit.
mod without_limit;

/// The relations of a system's numbers.
mod relations;

/// Sealed systems.
pub mod system;

/// What sealed systems say, seen from outside.
pub mod sealed;

/// The systems of several tracks.
pub mod tracks;

/// Comparisons of two numbers or letters.
pub mod comparison;

/// How a system is sealed.
pub mod seal;

/// Laws of automata that hold of relations.
pub mod laws;
