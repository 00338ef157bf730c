//! The transducer that is under a name in a store.
//!
//! `load_transducer` reads the text of the name in the folder of transducers, and gives its transducer, or says why there is none:
//! nothing is there, the text is too long, the line at which it first breaks the format, or a call of the store that failed
//! (`specs/TransducerFiles.antt`).
#![tactic(auto)]

// the transducer of a text, and of a name
mod loading;
// one file has one transducer, or one refusal
pub mod laws;

pub use loading::load_transducer;
