//! Operations on languages that canonical automata accept: union, intersection, concatenation and star, each with the
//! width of its step.
#![tactic(auto)]

/// Whether canonical automata accept no word.
mod emptiness;

/// The states of an automaton, linked to another state.
mod linked_rows;

/// The states of an automaton after those of another.
mod shifted_rows;

/// The sets of states that words lead to, made canonical.
mod canonical_sets;

/// Concatenations of two languages.
pub mod concat;

/// The star of a language.
pub mod star;

/// Connectives of two languages over the same tracks.
pub mod pairs;

/// The step `concat`.
pub mod concat_step;

/// The step `star`.
pub mod star_step;

/// The step `product`.
pub mod product_step;

/// Laws of the definitions.
pub mod laws;
