//! Which names, systems and directions a formula may have.
//!
//! `free_system` gives the system of a variable in a part of a formula. `resolve` gives the free variables of a formula
//! in byte order with their systems, or its one fault: an automaton over sets that is called, a name with another number
//! of tracks than it is given, a variable over two systems under one binding, or two directions in one chain or between
//! two words. `mentions` gives what a formula mentions from left to
//! right; `first_files` and `first_systems` what is to be read and known before it is resolved, in the order of its first
//! mention.
//!
//! The definitions are functions on formulas (`specs/Mentions.antt`, `Arity`, `Occurrences`, `Clashes`, `Directions`,
//! `FreeVariables`), which `specs/Resolving.antt` joins. Quantifiers are numbered in the order of the text, so an
//! occurrence is free in a part if and only if its quantifier's number is below that of the part's first one.
//!
//! Calls go no deeper than the nesting of the formula. The time is that of its length times its nesting, and the logarithm
//! of the number of names. What a formula says of numbers plays no part here.
#![tactic(auto)]

// the systems of the tracks, by name
mod headers;

// what a formula mentions, from left to right
mod mention;

// the files that a formula names
mod file;

// files and systems in the order of their first mention
mod first_mentions;

// why a formula has no resolution
mod fault;

// whether names have the tracks that they are given
mod arity;

// the quantifiers that bind variables at a place
mod scope;

// the occurrences of variables
mod occurrence;

// the directions of systems
mod direction;

// the systems that are met in the operands of a chain
mod meeting;

// the walk through a formula
mod walk;

// whether a variable has one system
mod clash;

// the free variables
mod variable;

// the resolution
mod resolution;

// what holds of all resolutions
mod laws;

pub use fault::ResolveFault;
pub use file::File;
pub use first_mentions::{first_files, first_systems};
pub use headers::Headers;
pub use laws::{free_is_unbound, no_clash_is_consistent, one_resolution};
pub use mention::{Mention, mentions};
pub use resolution::{Resolved, free_system, resolve};
pub use variable::Variable;
