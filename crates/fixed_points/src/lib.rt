//! Fixed points of morphisms: where all images have one length, the word that begins with the letter 0 and
//! is its own image is automatic in the base of that length.
//!
//! A digit leads from a letter to the letter at its position of the image, so the letter at a position is where the
//! digits of the position lead from 0 (Cobham; Allouche and Shallit, "Automatic Sequences").
#![tactic(auto)]

/// Why a morphism gives no word.
pub mod promote_fault;

/// The base of a morphism's fixed point, or why there is none.
mod fixed_base;

/// Letters with their images, as a graph of keys.
mod letter_graph;

/// The letters of a fixed point, as an automaton that gives them to words of digits.
mod fixed_letters;

/// The system of a base, for one track.
mod msd_base;

/// The step `promote`: the fixed point of a morphism as an automatic word.
pub mod promotion;

/// Laws of fixed points.
pub mod laws;
