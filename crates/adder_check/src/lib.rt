//! Whether a language and an adder make a numeration system: whether leading zeros keep the words of the language and
//! it has no end, and whether the adder's relation meets the laws of zero and of the successor, by steps.
//!
//! `admit` gives a `UserSystem`, or the first of four laws (`Law`) that does not hold. The language has the empty word,
//! and leading zeros change nothing (`NoZero`); it has words without leading zeros longer than any bound (`Endless`).
//! The adder's laws are the recursive definition of addition: x + 0 = z if and only if z = x (`ZeroLaw`), and
//! x + (y + 1) = z if and only if z is one more than some w with x + y = w (`SuccessorLaw`).
//!
//! A relation meets these two if and only if it is addition (`laws_determine_addition`), so nothing is tried up to a
//! bound: each is decided by the steps `product` and `project` and a comparison of canonical automata. The successor is
//! made from the order of the language, and not from the adder (`successor_steps`). `faults_exclude` says that where a
//! law does not hold, the two are not a system and its addition.
//!
//! An adder's file may list any representation of a triple: the steps `pad` and `valid` add the others. Files of the
//! other direction are reversed by a step. A step may pass a limit before a law is decided: then `States` or `Letters`
//! is the answer. The answer is one, with the same lines, unless memory runs out (`admission_has_one_answer`).
//!
//! Widths and costs are those of the steps; `check_language` takes time by the transitions. Not proved: time and
//! memory.
#![tactic(auto)]

/// Laws of the definitions.
pub mod laws;

/// Why a system is not admitted.
pub mod admit_fault;

/// Whether leading zeros keep the words of a language.
pub mod keeps_zeros;

/// The automaton of a file, and the laws of a language.
pub mod language_steps;

/// The successor of a system's numbers, by steps.
pub mod successor_steps;

/// The relation of an adder's file, by steps.
pub mod adder_steps;

/// The sums of numbers with 0, by steps.
pub mod zero_sums;

/// The sums of numbers with one more, by steps.
pub mod next_sums;

/// The law of 0, by steps.
pub mod zero_law;

/// Numeration systems that users bring along.
pub mod user_system;

/// Whether the files of a language and an adder make a numeration system.
pub mod admit;
