//! The morphism that is under a name in a store.
//!
//! `load_morphism` reads the text of the name in the folder of morphisms, and gives its morphism, or says why there
//! is none: nothing is there, the text is too long, the line at which it first breaks the grammar of rules, or a call of the store
//! that failed (`specs/MorphismFiles.antt`).
#![tactic(auto)]

// lines of a text
mod lines;
// the morphism of a text, and of a name
mod loading;
// one file has one morphism, or one refusal
pub mod laws;

pub use loading::load_morphism;
